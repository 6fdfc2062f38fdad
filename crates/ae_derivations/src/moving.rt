//! Lines whose numbers of earlier lines and of hypotheses are moved up.
ghost use Rattle.std.specs.Prelude.{◌≡◌, ◌+◌, IfOk, map};
ghost use Rattle.ae_core.specs.declared.proofs.EqLine.TheVariants.{EqHyp, EqRefl, EqSym, EqTrans, EqCong, EqAc, EqLin, EqField, EqFields, LeHyp, LtHyp, LeSum, LtSum, LeRound};
ghost use Rattle.ae_derivations.specs.Inner.Moved as spec;

use ae_core::copies::copy_term;
use ae_core::lists::List;
use ae_core::proofs::{EqLine, Scaled};
use ae_core::terms::Term;
use std::alloc::{AllocError, Global};

/// How far the numbers of lines and of hypotheses are moved up.
#[derive(Clone, Copy)]
pub struct Move {
    pub lines: usize,
    pub hyps: usize,
}

/// A number moved up. One that is past all memory is refused as want of memory.
fn up(by: usize, number: usize) -> Result<usize, AllocError>
    ensures { IfOk result (λ sum. sum ≡ by + number) }
{
    match by.checked_add(number) {
        Some(sum) => Ok(sum),
        None => Err(AllocError),
    }
}

/// Numbers of lines moved up.
fn all_up(alloc: Global, by: usize, numbers: &[usize]) -> Result<List<usize>, AllocError>
    ensures { IfOk result (λ sums. sums ≡ map (λ k. by + k) numbers.now) }
{
    let mut sums = List::new(alloc);
    for number in numbers {
        sums.push(up(by, *number)?)?;
    }
    Ok(sums)
}

/// The parts of a sum, with the numbers of their lines moved up.
fn parts_up(alloc: Global, by: usize, parts: &[Scaled]) -> Result<List<Scaled>, AllocError>
    ensures { IfOk result (λ sums. sums ≡ map (spec.part_moved by) parts.now) }
{
    let mut sums = List::new(alloc);
    for part in parts {
        sums.push(Scaled {
            factor: part.factor,
            line: up(by, part.line)?,
        })?;
    }
    Ok(sums)
}

/// The terms of a line.
#[derive(Drop)]
struct Sides {
    left: Term,
    right: Term,
}

/// Equal terms.
fn copied(alloc: Global, left: &Term, right: &Term) -> Result<Sides, AllocError>
    ensures left { IfOk result (λ sides. sides.left ≡ left.now) }
    ensures right { IfOk result (λ sides. sides.right ≡ right.now) }
{
    let left = copy_term(alloc, left)?;
    let right = copy_term(alloc, right)?;
    Ok(Sides { left, right })
}

/// A hypothesis that is an equation.
fn equal_hyp(
    alloc: Global,
    left: &Term,
    right: &Term,
    hyp: usize,
    by: Move,
) -> Result<EqLine, AllocError>
    ensures { IfOk result (λ moved. moved ≡ EqHyp left.now right.now (by.hyps + hyp)) }
{
    let hyp = up(by.hyps, hyp)?;
    let Sides { left, right } = copied(alloc, left, right)?;
    Ok(EqLine::EqHyp { left, right, hyp })
}

/// A hypothesis that the left term is at most the right one.
fn at_most_hyp(
    alloc: Global,
    left: &Term,
    right: &Term,
    hyp: usize,
    by: Move,
) -> Result<EqLine, AllocError>
    ensures { IfOk result (λ moved. moved ≡ LeHyp left.now right.now (by.hyps + hyp)) }
{
    let hyp = up(by.hyps, hyp)?;
    let Sides { left, right } = copied(alloc, left, right)?;
    Ok(EqLine::LeHyp { left, right, hyp })
}

/// A hypothesis that the left term is below the right one.
fn below_hyp(
    alloc: Global,
    left: &Term,
    right: &Term,
    hyp: usize,
    by: Move,
) -> Result<EqLine, AllocError>
    ensures { IfOk result (λ moved. moved ≡ LtHyp left.now right.now (by.hyps + hyp)) }
{
    let hyp = up(by.hyps, hyp)?;
    let Sides { left, right } = copied(alloc, left, right)?;
    Ok(EqLine::LtHyp { left, right, hyp })
}

/// A term and itself.
fn same(alloc: Global, left: &Term, right: &Term) -> Result<EqLine, AllocError>
    ensures { IfOk result (λ line. line ≡ EqRefl left.now right.now) }
{
    let Sides { left, right } = copied(alloc, left, right)?;
    Ok(EqLine::EqRefl { left, right })
}

/// Two multisets under one symbol.
fn permuted(alloc: Global, left: &Term, right: &Term) -> Result<EqLine, AllocError>
    ensures { IfOk result (λ line. line ≡ EqAc left.now right.now) }
{
    let Sides { left, right } = copied(alloc, left, right)?;
    Ok(EqLine::EqAc { left, right })
}

/// A field of a written record.
fn field(alloc: Global, left: &Term, right: &Term) -> Result<EqLine, AllocError>
    ensures { IfOk result (λ line. line ≡ EqField left.now right.now) }
{
    let Sides { left, right } = copied(alloc, left, right)?;
    Ok(EqLine::EqField { left, right })
}

/// An equation turned.
fn turned(
    alloc: Global,
    left: &Term,
    right: &Term,
    line: usize,
    by: Move,
) -> Result<EqLine, AllocError>
    ensures { IfOk result (λ moved. moved ≡ EqSym left.now right.now (by.lines + line)) }
{
    let line = up(by.lines, line)?;
    let Sides { left, right } = copied(alloc, left, right)?;
    Ok(EqLine::EqSym { left, right, line })
}

/// An inequality rounded.
fn rounded(
    alloc: Global,
    left: &Term,
    right: &Term,
    line: usize,
    by: Move,
) -> Result<EqLine, AllocError>
    ensures { IfOk result (λ moved. moved ≡ LeRound left.now right.now (by.lines + line)) }
{
    let line = up(by.lines, line)?;
    let Sides { left, right } = copied(alloc, left, right)?;
    Ok(EqLine::LeRound { left, right, line })
}

/// Two equations one after the other.
fn chained(
    alloc: Global,
    left: &Term,
    right: &Term,
    first: usize,
    second: usize,
    by: Move,
) -> Result<EqLine, AllocError>
    ensures { IfOk result (λ moved. moved ≡ EqTrans left.now right.now (by.lines + first) (by.lines + second)) }
{
    let first = up(by.lines, first)?;
    let second = up(by.lines, second)?;
    let Sides { left, right } = copied(alloc, left, right)?;
    Ok(EqLine::EqTrans {
        left,
        right,
        first,
        second,
    })
}

/// Two applications of one head.
fn congruent(
    alloc: Global,
    left: &Term,
    right: &Term,
    lines: &[usize],
    by: Move,
) -> Result<EqLine, AllocError>
    ensures { IfOk result (λ moved. moved ≡ EqCong left.now right.now (map (λ k. by.lines + k) lines.now)) }
{
    let lines = all_up(alloc, by.lines, lines)?;
    let Sides { left, right } = copied(alloc, left, right)?;
    Ok(EqLine::EqCong { left, right, lines })
}

/// Two records with equal fields.
fn all_fields(
    alloc: Global,
    left: &Term,
    right: &Term,
    lines: &[usize],
    by: Move,
) -> Result<EqLine, AllocError>
    ensures { IfOk result (λ moved. moved ≡ EqFields left.now right.now (map (λ k. by.lines + k) lines.now)) }
{
    let lines = all_up(alloc, by.lines, lines)?;
    let Sides { left, right } = copied(alloc, left, right)?;
    Ok(EqLine::EqFields { left, right, lines })
}

/// A sum of equations.
fn sum_equal(
    alloc: Global,
    left: &Term,
    right: &Term,
    times: i128,
    parts: &[Scaled],
    by: Move,
) -> Result<EqLine, AllocError>
    ensures { IfOk result (λ moved. moved ≡ EqLin left.now right.now times (map (spec.part_moved by.lines) parts.now)) }
{
    let parts = parts_up(alloc, by.lines, parts)?;
    let Sides { left, right } = copied(alloc, left, right)?;
    Ok(EqLine::EqLin {
        left,
        right,
        times,
        parts,
    })
}

/// A sum of inequalities.
fn sum_at_most(
    alloc: Global,
    left: &Term,
    right: &Term,
    times: i128,
    parts: &[Scaled],
    by: Move,
) -> Result<EqLine, AllocError>
    ensures { IfOk result (λ moved. moved ≡ LeSum left.now right.now times (map (spec.part_moved by.lines) parts.now)) }
{
    let parts = parts_up(alloc, by.lines, parts)?;
    let Sides { left, right } = copied(alloc, left, right)?;
    Ok(EqLine::LeSum {
        left,
        right,
        times,
        parts,
    })
}

/// A sum of inequalities of which one is strict.
fn sum_below(
    alloc: Global,
    left: &Term,
    right: &Term,
    times: i128,
    parts: &[Scaled],
    by: Move,
) -> Result<EqLine, AllocError>
    ensures { IfOk result (λ moved. moved ≡ LtSum left.now right.now times (map (spec.part_moved by.lines) parts.now)) }
{
    let parts = parts_up(alloc, by.lines, parts)?;
    let Sides { left, right } = copied(alloc, left, right)?;
    Ok(EqLine::LtSum {
        left,
        right,
        times,
        parts,
    })
}

/// The line, with its numbers moved up.
pub fn moved(alloc: Global, line: &EqLine, by: Move) -> Result<EqLine, AllocError>
    ensures { IfOk result (λ copy. copy ≡ spec.moved by.lines by.hyps line.now) }
{
    match line {
        EqLine::EqHyp { left, right, hyp } => equal_hyp(alloc, left, right, *hyp, by),
        EqLine::EqRefl { left, right } => same(alloc, left, right),
        EqLine::EqSym { left, right, line } => turned(alloc, left, right, *line, by),
        EqLine::EqTrans {
            left,
            right,
            first,
            second,
        } => chained(alloc, left, right, *first, *second, by),
        EqLine::EqCong { left, right, lines } => {
            congruent(alloc, left, right, lines.as_slice(), by)
        }
        EqLine::EqAc { left, right } => permuted(alloc, left, right),
        EqLine::EqLin {
            left,
            right,
            times,
            parts,
        } => sum_equal(alloc, left, right, *times, parts.as_slice(), by),
        EqLine::EqField { left, right } => field(alloc, left, right),
        EqLine::EqFields { left, right, lines } => {
            all_fields(alloc, left, right, lines.as_slice(), by)
        }
        EqLine::LeHyp { left, right, hyp } => at_most_hyp(alloc, left, right, *hyp, by),
        EqLine::LtHyp { left, right, hyp } => below_hyp(alloc, left, right, *hyp, by),
        EqLine::LeSum {
            left,
            right,
            times,
            parts,
        } => sum_at_most(alloc, left, right, *times, parts.as_slice(), by),
        EqLine::LtSum {
            left,
            right,
            times,
            parts,
        } => sum_below(alloc, left, right, *times, parts.as_slice(), by),
        EqLine::LeRound { left, right, line } => rounded(alloc, left, right, *line, by),
    }
}
