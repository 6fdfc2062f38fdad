//! A block that is opened, and what its clause brings.
ghost use Rattle.std.specs.Prelude.{◌≡◌, ◌≤◌, length, take, true, Some, IfOk};
ghost use Rattle.std.specs.List.{Contains};
ghost use Rattle.ae_block_constants.specs.declared.opened.Opened.{Opened as OpenedBlock};
ghost use Rattle.ae_brought_clauses.specs.Brought.{AreBrought};
ghost use Rattle.ae_core.specs.Sorts.{formula_ok};
ghost use Rattle.ae_core.specs.declared.formulas.Formula.{out-Formula};
ghost use Rattle.ae_core.specs.declared.formulas.Quant.{Quant as QuantOf};
ghost use Rattle.ae_core.specs.declared.terms.Term.{Term as TermOf};
ghost use Rattle.ae_goal_names.specs.Named.{clause_terms};
ghost use Rattle.ae_journal.specs.States.{quant_of};
ghost use Rattle.ae_opening.specs.Opens.{Opens};
ghost use Rattle.ae_rules.specs.Clauses.{Clause as ClauseOf};
ghost use Rattle.ae_rules.specs.Derivations.{clause_ok};
ghost use Rattle.ae_rules.specs.Instances as instances;
ghost use Rattle.ae_store.specs.Stores.{IsStore};
ghost use Rattle.ae_theory.specs.Names.{terms_in};

use ae_ages::entries::Aged;
use ae_block_constants::Opened;
use ae_brought_clauses::bring_clause;
use ae_core::formulas::Formula;
use ae_core::lists::{Boxed, List};
use ae_core::problems::Signature;
use ae_opening::{FreshLine, OpenedBlocks, open_block};
use ae_store::store::Store;
use std::alloc::{AllocError, Global};

/// The first so many of the blocks that were opened.
fn first_blocks(blocks: &OpenedBlocks, count: usize) -> &[Opened]
    requires { count ≤ length blocks.now.opened }
    ensures { result.now ≡ take count blocks.now.opened }
{
    &blocks.opened.as_slice()[..count]
}

/// Opens a block, and brings at a generation what its `fresh` clause says, where the blocks before it are opened.
pub fn bring_block(
    alloc: Global,
    signature: &Signature,
    blocks: &mut OpenedBlocks,
    store: &mut Store,
    ages: &mut List<Aged>,
    formula: &Formula,
    generation: u32,
) -> Result<Boxed<FreshLine>, AllocError>
    requires block { (q : QuantOf) × (quant_of (out-Formula formula.now) ≡ Some q) }
    requires same { signature.now ≡ store.old.signature }
    requires sorted { (c : ClauseOf) → instances.fresh_clause formula.now blocks.old.next (out-Formula formula.now) ≡ Some c → clause_ok signature.now c ≡ true }
    requires blocks { (o : OpenedBlock) → Contains blocks.old.opened o → formula_ok signature.now o.formula ≡ true }
    requires there { (o : OpenedBlock) (c : ClauseOf) (t : TermOf) → Contains blocks.old.opened o → instances.fresh_clause o.formula o.first (out-Formula o.formula) ≡ Some c →
        Contains (clause_terms c) t → Contains (terms_in store.old) t }
    ensures opens { IfOk result (λ r. Opens formula.now blocks.old.next blocks.new.next blocks.old.opened blocks.new.opened r.line r.clause) }
    ensures brought { IfOk result (λ r. AreBrought blocks.old.opened generation store.old ages.old store.new ages.new r.clause) }
    ensures store { IfOk result (λ r. IsStore store.new.signature store.new.nodes) }
{
    let earlier = blocks.opened.len();
    let opened = open_block(alloc, blocks, formula)?;
    let fresh = Boxed::new(alloc, opened)?;
    let literals = fresh.get().clause.as_slice();
    bring_clause(
        alloc,
        signature,
        store,
        ages,
        first_blocks(blocks, earlier),
        literals,
        generation,
    )?;
    let _names = store.len();
    Ok(fresh)
}
