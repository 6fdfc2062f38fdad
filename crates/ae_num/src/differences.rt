//! The difference of two linear forms, and a form without one of its names.
ghost use Rattle.std.specs.Prelude.{◌≡◌, None, Some, IfOk, OnOk, IfErr};
ghost use Rattle.ae_math.specs.Forms.{minus, number, substitute};
ghost use Rattle.ae_math.specs.Fractions.{zero_ℚ};
ghost use Rattle.ae_num.specs.Forms.{meaning, SameMeaning, IsNormal, first_wide, IfWide, difference_of, difference_steps};
ghost use native.Mathlib.Decide.{ℕ_discrete};

use crate::forms::{Lin, Name, plus, scale, subst, zero};
use crate::numbers::NumFail;
use std::alloc::Global;

/// The difference of two forms in the normal form, in the normal form.
///
/// `Wide` comes exactly where a stated product or sum leaves the limits, with the first such pair.
/// Stated are those of the multiple of `right` by -1 (`scale`), and then those of its sum with
/// `left` (`plus`).
pub fn difference(alloc: Global, left: &Lin, right: &Lin) -> Result<Lin, NumFail>
    requires left { IsNormal left.now }
    requires right { IsNormal right.now }
    ensures exact { IfOk result (λ d. SameMeaning (meaning d) (minus (meaning left.now) (meaning right.now))) }
    ensures form { IfOk result (λ d. d ≡ difference_of left.now right.now) }
    ensures normal { IfOk result (λ d. IsNormal d) }
    ensures fits { OnOk result (first_wide (difference_steps left.now right.now) ≡ None) }
    ensures wide { IfErr result (λ fail. IfWide fail (λ wide. first_wide (difference_steps left.now right.now) ≡ Some wide)) }
{
    let negated = scale(alloc, -1, 1, right)?;
    plus(alloc, left, &negated)
}

/// The form without a name, in the normal form. It states nothing that leaves the limits.
pub fn rest_of(alloc: Global, form: &Lin, name: Name) -> Result<Lin, NumFail>
    requires { IsNormal form.now }
    ensures exact { IfOk result (λ rest. SameMeaning (meaning rest) (substitute ℕ_discrete (meaning form.now) name (number zero_ℚ))) }
    ensures normal { IfOk result (λ rest. IsNormal rest) }
    ensures never { IfErr result (λ fail. IfWide fail (λ wide. ⊥)) }
{
    let nothing = zero(alloc);
    subst(alloc, form, name, &nothing)
}
