//! The state that is shown.
ghost use Rattle.std.specs.Prelude.{◌≡◌, IfOk};
ghost use Rattle.ae_open_states.specs.Shown.{shown, trail_literals};

use ae_core::copies::copy_lit;
use ae_core::formulas::Lit;
use ae_core::lists::List;
use ae_explain::Trail;
use ae_journal::systems::{Saturated, System};
use std::alloc::{AllocError, Global};

/// Copies of the literals of a trail.
fn shown_literals(alloc: Global, trail: &Trail) -> Result<List<Lit>, AllocError>
    ensures { IfOk result (λ ls. ls ≡ trail_literals trail.now.assigned) }
{
    let mut literals = List::new(alloc);
    for assigned in trail.as_slice() {
        literals.push(copy_lit(alloc, &assigned.lit)?)?;
    }
    Ok(literals)
}

/// The literals of a trail with a system, as a state without a point; `Err` where there is no memory for the literals.
pub fn open_state(alloc: Global, trail: &Trail, system: System) -> Result<Saturated, AllocError>
    ensures { IfOk result (λ state. state ≡ shown trail.now.assigned system) }
{
    Ok(Saturated {
        literals: shown_literals(alloc, trail)?,
        system,
        point: List::new(alloc),
    })
}
