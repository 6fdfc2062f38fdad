//! Laws of settled states. These functions do nothing: each one's contract is a theorem.
ghost use Rattle.ae_journal.specs.Systems.{IsCompleted};
ghost use Rattle.ae_settled.specs.Held.{Held, system_of};
ghost use Rattle.ae_settled.specs.Settled.{IsSettled};
ghost use Rattle.ae_settled.specs.Met.{AreMet, Satisfies};
ghost use Rattle.ae_core.specs.declared.formulas.Lit.{Lit};
ghost use Rattle.std.specs.Prelude.{List};

/// Where a sweep over what a state holds finds nothing to do, the system that the state shows is completed.
pub fn a_settled_state_is_completed()
    ensures { (x : Held) → IsSettled x → IsCompleted x.signature (system_of x) }
{}

/// Where such a sweep finds no literal contradicted or left out, the literals hold of the values of their terms, different constructors have
/// different values, and the values of integers are whole.
pub fn a_settled_state_satisfies_its_literals()
    ensures { (x : Held) → IsSettled x → (ls : List Lit) → AreMet x ls → Satisfies x.signature (system_of x) ls }
{}
