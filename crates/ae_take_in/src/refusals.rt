//! Why a step on the numbers of names is refused.
ghost use Rattle.std.specs.Prelude.{◌≡◌, Some, None};
ghost use Rattle.ae_num.specs.Forms.{IsNormal, IfWide, first_wide};
ghost use Rattle.ae_journal.specs.Licences.{stated_steps};
ghost use Rattle.ae_value_fitting.specs.Refusals.{IfNumber};
ghost use Rattle.ae_take_in.specs.Widths.{IsStepWide};

use ae_journal::answers::{NumStep, WideAt};
use ae_num::forms::Lin;
use ae_num::numbers::NumFail;
use ae_value_fitting::Refused;

/// Why a step on two forms is refused, by why its arithmetic is.
pub(crate) fn refused(step: NumStep, left: Lin, right: Lin, fail: NumFail) -> Refused
    requires left { IsNormal left }
    requires right { IsNormal right }
    requires wide { IfWide fail (λ wide. first_wide (stated_steps step left None right) ≡ Some wide) }
    ensures { IfNumber result (λ width. IsStepWide step left right width) }
{
    match fail {
        NumFail::Memory(refused) => Refused::Memory(refused),
        NumFail::Wide(wide) => Refused::Number(WideAt {
            step,
            left,
            key: None,
            right,
            wide,
        }),
    }
}
