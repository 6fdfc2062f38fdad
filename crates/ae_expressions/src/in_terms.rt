//! Formulas in terms' places.

ghost use Rattle.std.specs.Prelude.{◌≡◌};
ghost use Rattle.ae_elab.specs.declared.faults.TypeFault.TheVariants as fault;
ghost use Rattle.ae_elab.specs.declared.typings.Context as declared;
ghost use Rattle.ae_elab.specs.declared.typings.Typing as typing;
ghost use Rattle.ae_elab.specs.Expressions.{formula_in_term};
ghost use Rattle.ae_elab.specs.Rules.{Rule};
ghost use Rattle.ae_elab.specs.Scope.{Scope};
ghost use Rattle.ae_elab.specs.Trees.{Claim};
ghost use Rattle.ae_elab.specs.Typings.{TermAnswer, ClaimAnswer};

use ae_elab::faults::TypeFault;
use ae_elab::typings::TypedTerm;
use ae_syntax::spans::Span;

/// The fault of a formula in a term's place.
pub fn prop_in_term(place: Span) -> TypeFault
    ensures { result ≡ fault.PropInTerm place.from place.to }
{
    TypeFault::PropInTerm {
        from: place.from as usize,
        to: place.to as usize,
    }
}

/// A formula that was typed in a term's place: it is none, unless it has a fault of its own.
pub fn in_term(place: Span, claim: Result<usize, TypeFault>) -> Result<TypedTerm, TypeFault>
    ensures { (c : declared.Context) (r : Scope → Rule Claim) (old new : typing.Typing) → ClaimAnswer c r old new claim
        → TermAnswer c (λ sc. formula_in_term place (r sc)) old new result }
{
    match claim {
        Ok(_claim) => Err(prop_in_term(place)),
        Err(fault) => Err(fault),
    }
}
