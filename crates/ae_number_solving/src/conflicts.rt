//! Conflicts of numbers.
ghost use Rattle.std.specs.Prelude.{◌≡◌, ◌++◌, ◌∷◌, [], length, Err, OnOk, OnErr, IfOk};
ghost use Rattle.ae_conflicts.specs.declared.conflicts.Conflict.TheVariants as conflict;
ghost use Rattle.ae_journal.specs.declared.answers.WideAt.{WideAt};
ghost use Rattle.ae_theory.specs.declared.theory.Fail.TheVariants.{Steps as OutOfSteps, Number};
ghost use Rattle.ae_turns.specs.declared.found.Found.TheVariants as found_as;

use ae_conflicts::Conflict;
use ae_state::Holding;
use ae_theory::theory::Fail;
use ae_turns::Found;

/// Keeps the conflict of a step that states of two numbers that they are equal, which differ by a number.
pub(crate) fn keep_constant(held: &mut Holding, step: usize) -> Result<Found, Fail>
    ensures kept { OnOk result (held.new ≡ record held.old { conflicts = held.old.conflicts ++ conflict.Constant step ∷ [] }) }
    ensures found { IfOk result (λ found. found ≡ found_as.Conflict (length held.old.conflicts)) }
    ensures err { OnErr result (held.new ≡ held.old) }
    ensures steps { result ≡ Err OutOfSteps → ⊥ }
    ensures number { (wide : WideAt) → result ≡ Err (Number wide) → ⊥ }
{
    let number = held.conflicts.len();
    held.conflicts.push(Conflict::Constant { step })?;
    Ok(Found::Conflict(number))
}
