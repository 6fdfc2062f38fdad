//! Whether one choice of sorts and names is a match.
ghost use Rattle.std.specs.Prelude.{◌≡◌, IfOk, MatchBool};
ghost use Rattle.ae_known.specs.Index.{HasHeads};
ghost use Rattle.ae_matches.specs.Answers.{HasClosedConstants, IsMatchOf};

use crate::testing::is_match;
use ae_core::problems::Signature;
use ae_known::known::Known;
use ae_store::store::Store;
use ae_theory::theory::Equalities;
use ae_trigger::patterns::{Pattern, Subst};
use std::alloc::{AllocError, Global};

/// Whether these sorts and names are themselves a match of a pattern among the names of generation below a number. Others that are the same
/// don't count: a variable inside a numeral or another term that its linear form computes is given its very name.
pub fn is_match_of<E: Equalities>(
    alloc: Global,
    signature: &Signature,
    store: &Store,
    equalities: &E,
    pattern: &Pattern,
    below: u32,
    known: &Known,
    subst: &Subst,
) -> Result<bool, AllocError>
    requires same { signature.now ≡ store.now.signature }
    requires fits { E.fits equalities.now store.now }
    requires entered { HasHeads store.now.nodes known.now }
    requires constants { HasClosedConstants pattern.now }
    ensures exact { IfOk result (λ b. MatchBool b (IsMatchOf store.now (E.alike equalities.now) below pattern.now subst.now) (¬ IsMatchOf store.now (E.alike equalities.now) below pattern.now subst.now)) }
{
    let _names = store.len();
    is_match(
        alloc, signature, store, equalities, known, below, pattern, subst,
    )
}
