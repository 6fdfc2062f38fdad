//! Saturated states, told by running.
ghost use Rattle.std.specs.Prelude.{◌≡◌, IfOk};
ghost use Rattle.ae_journal.specs.Systems.{IsCompleted};
ghost use Rattle.ae_saturated.specs.Means.{Means};
ghost use Rattle.ae_saturated.specs.State.{state_fits};

use crate::firsts::{firsts_stand, none_generic};
use crate::literals::{are_closed, literals_fit};
use crate::names::names_fit;
use crate::order::inequalities_hold;
use ae_completed::completed::is_completed;
use ae_core::problems::Problem;
use ae_journal::systems::Saturated;
use std::alloc::{AllocError, Global};

/// What is told of a state.
#[derive(Clone, Copy)]
pub enum Told {
    /// It is saturated.
    Yes,
    /// It isn't.
    No,
    /// A literal that stands is quantified, or an axiom before the goal has type variables.
    Open,
}

/// Whether a state whose system is completed meets each other clause of a saturated state, where nothing is open.
#[tactic(auto, using(crate::proofs::StateTests::leaves_of))]
fn fits(
    alloc: Global,
    problem: &Problem,
    goal: usize,
    state: &Saturated,
) -> Result<bool, AllocError>
    requires completed { IsCompleted problem.now.signature state.now.system }
    ensures { IfOk result (λ b. b ≡ state_fits problem.now goal state.now) }
{
    let literals = state.literals.as_slice();
    let started = firsts_stand(alloc, problem, goal, literals)?;
    if !started {
        return Ok(false);
    }
    let said = literals_fit(alloc, &problem.signature, &state.system, literals)?;
    if !said {
        return Ok(false);
    }
    let named = names_fit(alloc, &problem.signature, &state.system)?;
    if !named {
        return Ok(false);
    }
    inequalities_hold(alloc, &state.system, state.point.as_slice(), literals)
}

/// Whether a state is saturated for a problem, the goal at this place, and every bound on generations. `Open` comes exactly where a literal
/// that stands is quantified, or where an axiom before the goal has type variables. An error comes for want of memory alone.
pub fn is_saturated(
    alloc: Global,
    problem: &Problem,
    goal: usize,
    state: &Saturated,
) -> Result<Told, AllocError>
    ensures { IfOk result (λ told. Means problem.now goal state.now told) }
{
    let closed = are_closed(state.literals.as_slice());
    if !closed {
        return Ok(Told::Open);
    }
    let plain = none_generic(problem, goal);
    if !plain {
        return Ok(Told::Open);
    }
    let completed = is_completed(alloc, &problem.signature, &state.system)?;
    if !completed {
        return Ok(Told::No);
    }
    let fitting = fits(alloc, problem, goal, state)?;
    if !fitting {
        return Ok(Told::No);
    }
    Ok(Told::Yes)
}
