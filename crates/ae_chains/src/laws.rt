//! Laws of the definitions. This function does nothing: its contract is a theorem.
ghost use Rattle.ae_chains.specs.Soundness.{IsSound};

/// What is derived of a chain follows: whatever values the constants have, where each hypothesis holds between these, so does
/// the last equation.
pub fn derivations_are_sound()
    ensures { IsSound }
{}
