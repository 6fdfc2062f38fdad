//! One combination of two forms on the largest name of both.

ghost use Rattle.std.specs.Prelude.{◌≡◌, ◌<ℤ◌, pos, IfOk, OnOk, IfSome, IfNone, None, Err};
ghost use Rattle.ae_num.specs.Forms.{IsNormal, meaning, SameMeaning, first_wide, combine_steps};
ghost use Rattle.ae_rows.specs.Rows.{combination};
ghost use Rattle.ae_journal.specs.declared.answers.WideAt.{WideAt};
ghost use Rattle.ae_theory.specs.declared.theory.Fail.TheVariants.{Steps, Number};
ghost use Rattle.ae_bounds.specs.Inner.Pairs.{HaveLast, IsCombineWide};

use ae_ineq::combining::combine;
use ae_ineq::rows::last;
use ae_journal::answers::{NumStep, WideAt};
use ae_num::copies::copied;
use ae_num::forms::{Lin, Name, Part};
use ae_num::numbers::NumFail;
use ae_theory::theory::Fail;
use std::alloc::Global;

/// A name with its factors in two forms.
#[derive(Clone, Copy)]
pub struct Opposed {
    pub name: Name,
    pub rising: i128,
    pub falling: i128,
}

/// The factors of a name that has this part in one form and that one in another, where the first is positive and the second negative.
fn opposed_parts(rising: Part, falling: Part) -> Option<Opposed>
    ensures some { IfSome result (λ o. (rising ≡ record { key = o.name; factor = o.rising }) × (falling ≡ record { key = o.name; factor = o.falling }) × (pos 0 <ℤ o.rising) × (o.falling <ℤ pos 0)) }
    ensures none { IfNone result (rising.key ≡ falling.key → pos 0 <ℤ rising.factor → falling.factor <ℤ pos 0 → ⊥) }
{
    if rising.key == falling.key && rising.factor > 0 && falling.factor < 0 {
        return Some(Opposed {
            name: rising.key,
            rising: rising.factor,
            falling: falling.factor,
        });
    }
    None
}

/// The largest name of two forms, where it is one name, has a positive factor in the first and a negative one in the second.
pub fn opposed_at(lower: &Lin, upper: &Lin) -> Option<Opposed>
    ensures some { IfSome result (λ o. HaveLast lower.now upper.now o) }
    ensures none { IfNone result ((o : _) → ¬ HaveLast lower.now upper.now o) }
{
    match last(lower.parts.as_slice()) {
        Some(rising) => match last(upper.parts.as_slice()) {
            Some(falling) => opposed_parts(rising, falling),
            None => None,
        },
        None => None,
    }
}

/// The combination of two forms on the largest name of both; `Number` exactly where a stated product or sum leaves the limits.
pub fn combined(alloc: Global, at: Opposed, lower: &Lin, upper: &Lin) -> Result<Lin, Fail>
    requires lower { IsNormal lower.now }
    requires upper { IsNormal upper.now }
    requires opposed { HaveLast lower.now upper.now at }
    ensures exact { IfOk result (λ form. SameMeaning (meaning form) (combination at.name (meaning lower.now) (meaning upper.now))) }
    ensures normal { IfOk result (λ form. IsNormal form) }
    ensures fits { OnOk result (first_wide (combine_steps lower.now at.name upper.now) ≡ None) }
    ensures number { (wide : WideAt) → result ≡ Err (Number wide) → IsCombineWide lower.now upper.now at.name wide }
    ensures steps { result ≡ Err Steps → ⊥ }
{
    match combine(alloc, at.name, lower, at.rising, upper, at.falling) {
        Ok(form) => Ok(form),
        Err(NumFail::Memory(failed)) => Err(Fail::Memory(failed)),
        Err(NumFail::Wide(wide)) => {
            let left = copied(alloc, lower)?;
            let right = copied(alloc, upper)?;
            Err(Fail::Number(WideAt {
                step: NumStep::Combine,
                left,
                key: Some(at.name),
                right,
                wide,
            }))
        }
    }
}
