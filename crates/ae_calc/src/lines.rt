//! The derived lines of a block, and a block as a whole.
ghost use Rattle.std.specs.Prelude.{◌≡◌, ◌↔◌, [], true, false, IfOk, OnOk, IfErr, IsTrue, Some, None};
ghost use Rattle.ae_num.specs.Forms.{first_wide, IfWide};
ghost use Rattle.ae_rules.specs.Lines.{Allowed, AllAllowed, fact_ok};
ghost use Rattle.ae_rules.specs.Derivations.{Ends, IsContradictory};
ghost use Rattle.ae_numeric.specs.Stated.{line_steps};
ghost use Rattle.ae_calc.specs.Reached.{Fit, FirstWide, BlockReaches, IsLineAllowed};

use crate::endings::ends;
use crate::equations::{
    assumes, assumes_at_most, assumes_below, congruent, equates, fact_is_ok, fields_allowed,
    is_written_field, joined,
};
use crate::flattening::ac_allowed;
use ae_core::equality::same_term;
use ae_core::formulas::Lit;
use ae_core::problems::Signature;
use ae_core::proofs::{Block, Ending, EqLine};
use ae_num::numbers::NumFail;
use ae_numeric::combinations::{le_sum_allowed, lin_allowed, lt_sum_allowed};
use ae_numeric::rounding::round_allowed;
use ae_rules::facts::stated;
use std::alloc::Global;

/// Whether the rule of a derived line allows it after earlier ones; its terms' sorts are looked at elsewhere.
pub fn rule_allows(
    alloc: Global,
    signature: &Signature,
    hyps: &[Lit],
    earlier: &[EqLine],
    line: &EqLine,
) -> Result<bool, NumFail>
    ensures exact { IfOk result (λ b. IsTrue b ↔ Allowed signature.now hyps.now earlier.now line.now) }
    ensures fits { OnOk result (first_wide (line_steps signature.now earlier.now line.now) ≡ None) }
    ensures wide { IfErr result (λ fail. IfWide fail (λ w. first_wide (line_steps signature.now earlier.now line.now) ≡ Some w)) }
{
    match line {
        EqLine::EqHyp { left, right, hyp } => Ok(assumes(hyps, *hyp, true, left, right)),
        EqLine::EqRefl { left, right } => Ok(same_term(left, right)),
        EqLine::EqSym { left, right, line } => Ok(equates(earlier, *line, right, left)),
        EqLine::EqTrans {
            left,
            right,
            first,
            second,
        } => Ok(joined(earlier, left, right, *first, *second)),
        EqLine::EqCong { left, right, lines } => {
            Ok(congruent(earlier, left, right, lines.as_slice()))
        }
        EqLine::EqAc { left, right } => Ok(ac_allowed(alloc, signature, left, right)?),
        EqLine::EqLin {
            left,
            right,
            times,
            parts,
        } => lin_allowed(
            alloc,
            signature,
            earlier,
            left,
            right,
            *times,
            parts.as_slice(),
        ),
        EqLine::EqField { left, right } => Ok(is_written_field(left, right)),
        EqLine::EqFields { left, right, lines } => {
            Ok(fields_allowed(alloc, signature, earlier, left, right, lines.as_slice())?)
        }
        EqLine::LeHyp { left, right, hyp } => Ok(assumes_at_most(hyps, *hyp, left, right)),
        EqLine::LtHyp { left, right, hyp } => Ok(assumes_below(hyps, *hyp, left, right)),
        EqLine::LeSum {
            left,
            right,
            times,
            parts,
        } => le_sum_allowed(
            alloc,
            signature,
            earlier,
            left,
            right,
            *times,
            parts.as_slice(),
        ),
        EqLine::LtSum {
            left,
            right,
            times,
            parts,
        } => lt_sum_allowed(
            alloc,
            signature,
            earlier,
            left,
            right,
            *times,
            parts.as_slice(),
        ),
        EqLine::LeRound { left, right, line } => {
            round_allowed(alloc, signature, earlier, left, right, *line)
        }
    }
}

/// Whether a derived line is allowed after earlier ones: its terms are closed and well sorted, and its rule allows it.
pub fn line_allowed(
    alloc: Global,
    signature: &Signature,
    hyps: &[Lit],
    earlier: &[EqLine],
    line: &EqLine,
) -> Result<bool, NumFail>
    ensures exact { IfOk result (λ b. IsTrue b ↔ IsLineAllowed signature.now hyps.now earlier.now line.now) }
    ensures fits { OnOk result (first_wide (line_steps signature.now earlier.now line.now) ≡ None) }
    ensures wide { IfErr result (λ fail. IfWide fail (λ w. first_wide (line_steps signature.now earlier.now line.now) ≡ Some w)) }
{
    let (relation, left, right) = stated(line);
    if !fact_is_ok(alloc, signature, relation, left, right)? {
        return Ok(false);
    }
    rule_allows(alloc, signature, hyps, earlier, line)
}

/// Whether each derived line is allowed after those before it, and the ending after all of them.
pub fn lines_allowed(
    alloc: Global,
    signature: &Signature,
    hyps: &[Lit],
    lines: &[EqLine],
    ending: &Ending,
) -> Result<bool, NumFail>
    ensures exact { IfOk result (λ b. IsTrue b ↔ (AllAllowed signature.now (fact_ok signature.now) hyps.now [] lines.now × Ends signature.now hyps.now lines.now ending.now)) }
    ensures fits { OnOk result (Fit (BlockReaches signature.now hyps.now ending.now [] lines.now)) }
    ensures wide { IfErr result (λ fail. IfWide fail (FirstWide (BlockReaches signature.now hyps.now ending.now [] lines.now))) }
{
    for i in 0..lines.len() {
        if !line_allowed(alloc, signature, hyps, &lines[..i], &lines[i])? {
            return Ok(false);
        }
    }
    ends(alloc, signature, hyps, lines, ending)
}

/// Whether a block is allowed: each line after those before it, and the ending after all of them.
pub fn block_allowed(alloc: Global, signature: &Signature, block: &Block) -> Result<bool, NumFail>
    ensures exact { IfOk result (λ b. IsTrue b ↔ IsContradictory signature.now block.now) }
    ensures fits { OnOk result (Fit (BlockReaches signature.now block.now.deriv.hyps block.now.ending [] block.now.deriv.lines)) }
    ensures wide { IfErr result (λ fail. IfWide fail (FirstWide (BlockReaches signature.now block.now.deriv.hyps block.now.ending [] block.now.deriv.lines))) }
{
    let hyps = block.deriv.hyps.as_slice();
    let lines = block.deriv.lines.as_slice();
    lines_allowed(alloc, signature, hyps, lines, &block.ending)
}
