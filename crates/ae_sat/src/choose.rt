//! Which literal to decide.
ghost use Rattle.std.specs.Prelude.{◌≡◌, ◌<◌, ℕ, ◌&&◌, is_none, true, length, slice_index_or, None, IfOk, IfSome, IfNone};
ghost use Rattle.std.specs.List.{Contains};
ghost use Rattle.ae_core.specs.declared.formulas.Lit.{Lit as LitValue};
ghost use Rattle.ae_explain.specs.Trail.{place_in, AreFalse};
ghost use Rattle.ae_propagation.specs.Settled.{HasTrue};
ghost use Rattle.ae_sat.specs.Strict.{is_below, is_strict};

use ae_core::copies::copy_lit;
use ae_core::formulas::{Formula, Lit};
use ae_core::lists::Boxed;
use ae_explain::Trail;
use ae_propagation::settle::is_false;
use ae_search_options::picks::Pick;
use std::alloc::{AllocError, Global};

// Whether a formula says that one number is below another.
#[tactic(auto, using(crate::proofs::Below::below_rules))]
fn is_below(formula: &Formula) -> bool
    ensures { result ≡ is_below formula.now }
{
    match formula {
        Formula::Lt { .. } => true,
        Formula::Eq { .. } => false,
        Formula::Le { .. } => false,
        Formula::Pred { .. } => false,
        Formula::True => false,
        Formula::False => false,
        Formula::Not(_) => false,
        Formula::And(_, _) => false,
        Formula::Or(_, _) => false,
        Formula::Xor(_, _) => false,
        Formula::Iff(_, _) => false,
        Formula::All(_) => false,
        Formula::Ex(_) => false,
    }
}

// Whether a literal says that one number is below another, and has no value.
fn is_open_strict(trail: &Trail, literal: &Lit) -> bool
    ensures { result ≡ (is_strict literal.now && is_none (place_in trail.now.assigned literal.now.formula)) }
{
    literal.positive && is_below(&literal.formula) && trail.place_of(&literal.formula).is_none()
}

// The place of the first literal without a value that says that one number is below another.
fn strict_place(trail: &Trail, clause: &[Lit]) -> Option<usize>
    ensures within { IfSome result (λ i. i < length clause.now) }
    ensures no_value { IfSome result (λ i. (d : LitValue) → place_in trail.now.assigned (slice_index_or clause.now i d).formula ≡ None) }
    ensures strict { IfSome result (λ i. (d : LitValue) → is_strict (slice_index_or clause.now i d) ≡ true) }
    ensures none { IfNone result ((m : LitValue) → Contains clause.now m → is_strict m ≡ true → place_in trail.now.assigned m.formula ≡ None → ⊥) }
{
    for i in 0..clause.len() {
        if is_open_strict(trail, &clause[i]) {
            return Some(i);
        }
    }
    None
}

// A literal without a value of a clause that is neither true nor false, picked among all such.
fn choose_any(
    alloc: Global,
    trail: &Trail,
    clause: &[Lit],
    pick: &Pick,
    turn: usize,
) -> Result<Boxed<Lit>, AllocError>
    requires untrue { ¬ HasTrue trail.now.assigned clause.now }
    requires not_false { ¬ AreFalse trail.now.assigned clause.now }
    ensures has { IfOk result (λ l. Contains clause.now l) }
    ensures no_value { IfOk result (λ l. place_in trail.now.assigned l.formula ≡ None) }
{
    let mut places = Vec::new(alloc);
    for i in 0..clause.len() {
        if !is_false(trail, &clause[i]) {
            places.push(i)?;
        }
    }
    let number = pick.ask(places.len(), turn);
    let lit = copy_lit(alloc, &clause[places[number]])?;
    Boxed::new(alloc, lit)
}

/// A literal without a value of a clause that is neither true nor false. One that says that one number is below another comes first: it contradicts other
/// inequalities as they are, where an equation would first change what they say.
pub fn choose(
    alloc: Global,
    trail: &Trail,
    clause: &[Lit],
    pick: &Pick,
    turn: usize,
) -> Result<Boxed<Lit>, AllocError>
    requires untrue { ¬ HasTrue trail.now.assigned clause.now }
    requires not_false { ¬ AreFalse trail.now.assigned clause.now }
    ensures has { IfOk result (λ l. Contains clause.now l) }
    ensures no_value { IfOk result (λ l. place_in trail.now.assigned l.formula ≡ None) }
    // Where a literal without a value says that one number is below another, the one chosen says so.
    ensures strict { (m : LitValue) → Contains clause.now m → is_strict m ≡ true → place_in trail.now.assigned m.formula ≡ None → IfOk result (λ l. is_strict l ≡ true) }
{
    match strict_place(trail, clause) {
        Some(place) => {
            let lit = copy_lit(alloc, &clause[place])?;
            Boxed::new(alloc, lit)
        }
        None => choose_any(alloc, trail, clause, pick, turn),
    }
}
