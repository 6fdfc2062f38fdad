//! Which block is opened next.
ghost use Rattle.std.specs.Prelude.{◌≡◌, ◌↔◌, IsTrue, MatchBool, MatchOption};
ghost use Rattle.ae_core.specs.declared.formulas.Formula.{out-Formula};
ghost use Rattle.ae_opening.specs.Asking.{asks_by, AllServed, IsNextUnopened, IsOpened, IsServed, IsUnopened};

use ae_block_constants::Opened;
use ae_core::equality::same_formula;
use ae_core::formulas::{Formula, Lit};
use ae_explain::Trail;

/// Whether a block was opened, by a comparison with each of those that were.
pub fn is_opened(opened: &[Opened], formula: &Formula) -> bool
    ensures { IsTrue result ↔ IsOpened opened.now formula.now }
{
    for block in opened {
        if same_formula(&block.formula, formula) {
            return true;
        }
    }
    false
}

/// Whether a literal with this sign and formula asks for terms.
fn asks_for_terms(positive: bool, formula: &Formula) -> bool
    ensures { result ≡ asks_by positive (out-Formula formula.now) }
{
    match formula {
        Formula::All(_) => !positive,
        Formula::Ex(_) => positive,
        _ => false,
    }
}

/// Whether a literal asks for terms and its block isn't opened.
fn is_unopened(opened: &[Opened], lit: &Lit) -> bool
    ensures { MatchBool result (IsUnopened opened.now lit.now) (IsServed opened.now lit.now) }
{
    if !asks_for_terms(lit.positive, &lit.formula) {
        return false;
    }
    !is_opened(opened, &lit.formula)
}

/// The first place of a trail at which a literal asks for terms and its block isn't opened; none where each such block is.
pub fn next_unopened(trail: &Trail, opened: &[Opened]) -> Option<usize>
    ensures { MatchOption result (AllServed trail.now.assigned opened.now) (λ place. IsNextUnopened trail.now.assigned opened.now place) }
{
    for place in 0..trail.len() {
        if is_unopened(opened, trail.lit_at(place)) {
            return Some(place);
        }
    }
    None
}
