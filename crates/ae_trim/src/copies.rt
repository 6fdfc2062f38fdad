//! Copies of the lines of proofs: each is equal to what it copies.
ghost use Rattle.std.specs.Prelude.{◌≡◌, IfOk};

use ae_core::copies::{copy_clause, copy_formula, copy_sorts, copy_term, copy_terms};
use ae_core::lists::List;
use ae_core::proofs::{Block, ClauseLine, Deriv, Ending, EqLine, Scaled};
use ae_core::terms::Term;
use std::alloc::{AllocError, Global};

/// Equal numbers.
fn copy_numbers(alloc: Global, numbers: &[usize]) -> Result<List<usize>, AllocError>
    ensures { IfOk result (λ copies. copies ≡ numbers.now) }
{
    let mut copies = List::new(alloc);
    for number in numbers {
        copies.push(*number)?;
    }
    Ok(copies)
}

/// Equal scaled lines.
fn copy_parts(alloc: Global, parts: &[Scaled]) -> Result<List<Scaled>, AllocError>
    ensures { IfOk result (λ copies. copies ≡ parts.now) }
{
    let mut copies = List::new(alloc);
    for part in parts {
        copies.push(*part)?;
    }
    Ok(copies)
}

/// The terms of a line of a block.
#[derive(Drop)]
struct Sides {
    left: Term,
    right: Term,
}

/// Equal terms of a line.
fn copy_sides(alloc: Global, left: &Term, right: &Term) -> Result<Sides, AllocError>
    ensures left { IfOk result (λ sides. sides.left ≡ left.now) }
    ensures right { IfOk result (λ sides. sides.right ≡ right.now) }
{
    let left = copy_term(alloc, left)?;
    let right = copy_term(alloc, right)?;
    Ok(Sides { left, right })
}

/// An equal line of a block.
fn copy_derived(alloc: Global, line: &EqLine) -> Result<EqLine, AllocError>
    ensures { IfOk result (λ copy. copy ≡ line.now) }
{
    match line {
        EqLine::EqHyp { left, right, hyp } => {
            let sides = copy_sides(alloc, left, right)?;
            Ok(EqLine::EqHyp {
                left: sides.left,
                right: sides.right,
                hyp: *hyp,
            })
        }
        EqLine::EqRefl { left, right } => {
            let sides = copy_sides(alloc, left, right)?;
            Ok(EqLine::EqRefl {
                left: sides.left,
                right: sides.right,
            })
        }
        EqLine::EqSym { left, right, line } => {
            let sides = copy_sides(alloc, left, right)?;
            Ok(EqLine::EqSym {
                left: sides.left,
                right: sides.right,
                line: *line,
            })
        }
        EqLine::EqTrans {
            left,
            right,
            first,
            second,
        } => {
            let sides = copy_sides(alloc, left, right)?;
            Ok(EqLine::EqTrans {
                left: sides.left,
                right: sides.right,
                first: *first,
                second: *second,
            })
        }
        EqLine::EqCong { left, right, lines } => {
            let lines = copy_numbers(alloc, lines.as_slice())?;
            let sides = copy_sides(alloc, left, right)?;
            Ok(EqLine::EqCong {
                left: sides.left,
                right: sides.right,
                lines,
            })
        }
        EqLine::EqAc { left, right } => {
            let sides = copy_sides(alloc, left, right)?;
            Ok(EqLine::EqAc {
                left: sides.left,
                right: sides.right,
            })
        }
        EqLine::EqLin {
            left,
            right,
            times,
            parts,
        } => {
            let parts = copy_parts(alloc, parts.as_slice())?;
            let sides = copy_sides(alloc, left, right)?;
            Ok(EqLine::EqLin {
                left: sides.left,
                right: sides.right,
                times: *times,
                parts,
            })
        }
        EqLine::EqField { left, right } => {
            let sides = copy_sides(alloc, left, right)?;
            Ok(EqLine::EqField {
                left: sides.left,
                right: sides.right,
            })
        }
        EqLine::EqFields { left, right, lines } => {
            let lines = copy_numbers(alloc, lines.as_slice())?;
            let sides = copy_sides(alloc, left, right)?;
            Ok(EqLine::EqFields {
                left: sides.left,
                right: sides.right,
                lines,
            })
        }
        EqLine::LeHyp { left, right, hyp } => {
            let sides = copy_sides(alloc, left, right)?;
            Ok(EqLine::LeHyp {
                left: sides.left,
                right: sides.right,
                hyp: *hyp,
            })
        }
        EqLine::LtHyp { left, right, hyp } => {
            let sides = copy_sides(alloc, left, right)?;
            Ok(EqLine::LtHyp {
                left: sides.left,
                right: sides.right,
                hyp: *hyp,
            })
        }
        EqLine::LeSum {
            left,
            right,
            times,
            parts,
        } => {
            let parts = copy_parts(alloc, parts.as_slice())?;
            let sides = copy_sides(alloc, left, right)?;
            Ok(EqLine::LeSum {
                left: sides.left,
                right: sides.right,
                times: *times,
                parts,
            })
        }
        EqLine::LtSum {
            left,
            right,
            times,
            parts,
        } => {
            let parts = copy_parts(alloc, parts.as_slice())?;
            let sides = copy_sides(alloc, left, right)?;
            Ok(EqLine::LtSum {
                left: sides.left,
                right: sides.right,
                times: *times,
                parts,
            })
        }
        EqLine::LeRound { left, right, line } => {
            let sides = copy_sides(alloc, left, right)?;
            Ok(EqLine::LeRound {
                left: sides.left,
                right: sides.right,
                line: *line,
            })
        }
    }
}

/// Equal lines of a block.
fn copy_derived_lines(alloc: Global, lines: &[EqLine]) -> Result<List<EqLine>, AllocError>
    ensures { IfOk result (λ copies. copies ≡ lines.now) }
{
    let mut copies = List::new(alloc);
    for line in lines {
        copies.push(copy_derived(alloc, line)?)?;
    }
    Ok(copies)
}

/// An equal ending.
fn copy_ending(alloc: Global, ending: &Ending) -> Result<Ending, AllocError>
    ensures { IfOk result (λ copy. copy ≡ ending.now) }
{
    match ending {
        Ending::Neq { line, hyp } => Ok(Ending::Neq {
            line: *line,
            hyp: *hyp,
        }),
        Ending::Const { line } => Ok(Ending::Const { line: *line }),
        Ending::Clash { line } => Ok(Ending::Clash { line: *line }),
        Ending::Pred { yes, no, lines } => Ok(Ending::Pred {
            yes: *yes,
            no: *no,
            lines: copy_numbers(alloc, lines.as_slice())?,
        }),
        Ending::Zero { line } => Ok(Ending::Zero { line: *line }),
        Ending::Gcd { line } => Ok(Ending::Gcd { line: *line }),
    }
}

/// An equal block.
fn copy_block(alloc: Global, block: &Block) -> Result<Block, AllocError>
    ensures { IfOk result (λ copy. copy ≡ block.now) }
{
    let hyps = copy_clause(alloc, block.deriv.hyps.as_slice())?;
    let lines = copy_derived_lines(alloc, block.deriv.lines.as_slice())?;
    let ending = copy_ending(alloc, &block.ending)?;
    Ok(Block {
        deriv: Deriv { hyps, lines },
        ending,
    })
}

/// An equal line of a proof.
pub(crate) fn copy_line(alloc: Global, line: &ClauseLine) -> Result<ClauseLine, AllocError>
    ensures { IfOk result (λ copy. copy ≡ line.now) }
{
    match line {
        ClauseLine::Hyp { axiom, sorts } => Ok(ClauseLine::Hyp {
            axiom: *axiom,
            sorts: copy_sorts(alloc, sorts.as_slice())?,
        }),
        ClauseLine::Goal => Ok(ClauseLine::Goal),
        ClauseLine::Def { row, formula } => Ok(ClauseLine::Def {
            row: *row,
            formula: copy_formula(alloc, formula)?,
        }),
        ClauseLine::Inst { formula, terms } => {
            let terms = copy_terms(alloc, terms.as_slice())?;
            Ok(ClauseLine::Inst {
                formula: copy_formula(alloc, formula)?,
                terms,
            })
        }
        ClauseLine::Fresh { formula, first } => Ok(ClauseLine::Fresh {
            formula: copy_formula(alloc, formula)?,
            first: *first,
        }),
        ClauseLine::Exh { term } => Ok(ClauseLine::Exh {
            term: copy_term(alloc, term)?,
        }),
        ClauseLine::Tri { left, right } => Ok(ClauseLine::Tri {
            left: copy_term(alloc, left)?,
            right: copy_term(alloc, right)?,
        }),
        ClauseLine::Block(block) => Ok(ClauseLine::Block(copy_block(alloc, block)?)),
        ClauseLine::Rup { clause, hints } => Ok(ClauseLine::Rup {
            clause: copy_clause(alloc, clause.as_slice())?,
            hints: copy_numbers(alloc, hints.as_slice())?,
        }),
    }
}
