//! Opening a block.
ghost use Rattle.std.specs.Prelude.{◌≡◌, ◌+◌, ◌∷◌, ◌++◌, [], Some, IfOk, OnOk};
ghost use Rattle.ae_block_constants.specs.Blocks as blocks_spec;
ghost use Rattle.ae_core.specs.declared.formulas.Formula.{out-Formula};
ghost use Rattle.ae_core.specs.declared.formulas.Quant.{Quant as QuantOf};
ghost use Rattle.ae_core.specs.declared.proofs.ClauseLine.TheVariants.{Fresh};
ghost use Rattle.ae_journal.specs.States.{quant_of};
ghost use Rattle.ae_opening.specs.Opens.{Opens};
ghost use Rattle.ae_rules.specs.Instances as instances;

use ae_block_constants::Opened;
use ae_calc::instances::fresh_clause;
use ae_core::copies::copy_formula;
use ae_core::formulas::{Clause, Formula};
use ae_core::lists::List;
use ae_core::proofs::ClauseLine;
use std::alloc::{AllocError, Global};

/// The blocks that were opened, in their order, and the number from which on no constant stands in any line.
#[derive(Drop)]
pub struct OpenedBlocks {
    pub opened: List<Opened>,
    pub next: usize,
}

/// The `fresh` line of a block with the clause that it states.
#[derive(Drop)]
pub struct FreshLine {
    pub line: ClauseLine,
    pub clause: Clause,
}

/// How many variables a block has.
fn variables(formula: &Formula) -> usize
    ensures { result ≡ blocks_spec.variables formula.now }
{
    match formula {
        Formula::All(quant) => quant.sorts.len(),
        Formula::Ex(quant) => quant.sorts.len(),
        _ => 0,
    }
}

/// Puts a block behind those that were opened.
fn push_opened(
    alloc: Global,
    opened: &mut List<Opened>,
    formula: &Formula,
    first: usize,
) -> Result<(), AllocError>
    ensures { OnOk result (opened.new ≡ opened.old ++ record { formula = formula.now; first = first } ∷ []) }
{
    let formula = copy_formula(alloc, formula)?;
    opened.push(Opened { formula, first })
}

/// Gives a block the next constants. After the last number there is no memory for what it would name.
fn take_constants(
    alloc: Global,
    blocks: &mut OpenedBlocks,
    formula: &Formula,
) -> Result<(), AllocError>
    ensures opened { OnOk result (blocks.new.opened ≡ blocks.old.opened ++ record { formula = formula.now; first = blocks.old.next } ∷ []) }
    ensures next { OnOk result (blocks.new.next ≡ blocks.old.next + blocks_spec.variables formula.now) }
{
    let first = blocks.next;
    let next = first.checked_add(variables(formula)).ok_or(AllocError)?;
    push_opened(alloc, &mut blocks.opened, formula, first)?;
    blocks.next = next;
    Ok(())
}

/// The line that puts constants from the first one on for the variables of a block. After the last number there is no memory for what it would name.
fn fresh_line(alloc: Global, formula: &Formula, first: usize) -> Result<FreshLine, AllocError>
    requires block { (q : QuantOf) × (quant_of (out-Formula formula.now) ≡ Some q) }
    ensures line { IfOk result (λ r. r.line ≡ Fresh formula.now first) }
    ensures clause { IfOk result (λ r. instances.fresh_clause formula.now first (out-Formula formula.now) ≡ Some r.clause) }
{
    let clause = fresh_clause(alloc, formula, first)?.ok_or(AllocError)?;
    let formula = copy_formula(alloc, formula)?;
    Ok(FreshLine {
        line: ClauseLine::Fresh { formula, first },
        clause,
    })
}

/// Opens a block: its variables get the next constants, and the line that puts them comes with its clause. `Err` comes where there is no memory for this;
/// after the last number there is none for what it would name.
pub fn open_block(
    alloc: Global,
    blocks: &mut OpenedBlocks,
    formula: &Formula,
) -> Result<FreshLine, AllocError>
    requires block { (q : QuantOf) × (quant_of (out-Formula formula.now) ≡ Some q) }
    ensures { IfOk result (λ r. Opens formula.now blocks.old.next blocks.new.next blocks.old.opened blocks.new.opened r.line r.clause) }
{
    let first = blocks.next;
    take_constants(alloc, blocks, formula)?;
    fresh_line(alloc, formula, first)
}
