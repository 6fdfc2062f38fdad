//! Rules whose left sides have names that are no representatives.
ghost use Rattle.std.specs.Prelude.{◌≡◌, IfOk};
ghost use Rattle.ae_monoid.specs.Rules.{rule_at};
ghost use Rattle.ae_monoid.specs.Changes.{AreTakenOut};
ghost use Rattle.ae_monoid.specs.Versions.{Lasts as RulesLast};
ghost use Rattle.ae_equations.specs.Stale.{IsStale};

use ae_core::lists::List;
use ae_monoid::{PendingPair, Rules};
use ae_num::forms::Name;
use std::alloc::{AllocError, Global};

/// Takes out each rule with a stale name in its left side, and answers their equations. A refusal leaves some of it done.
pub(crate) fn stale_out(
    alloc: Global,
    rules: &mut Rules,
    reps: &[Name],
) -> Result<List<PendingPair>, AllocError>
    ensures pairs { IfOk result (λ pairs. AreTakenOut (λ n. rule_at rules.old n) (λ n. rule_at rules.new n) (λ n. IsStale reps.now (rule_at rules.old n)) pairs) }
    ensures len { rules.new.next ≡ rules.old.next }
    ensures lasts { RulesLast rules.old rules.new }
{
    let mut pairs = List::new(alloc);
    for name in 0..reps.len() {
        if reps[name] == name {
            continue;
        }
        let more = rules.release(name)?;
        pairs.append(more)?;
    }
    Ok(pairs)
}
