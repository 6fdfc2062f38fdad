//! Why a change of values is refused.
use ae_journal::answers::WideAt;
use std::alloc::AllocError;

/// Why a change of values is refused.
#[derive(Debug, Drop, thiserror::Error)]
pub enum Refused {
    /// A product or a sum of this step leaves the limits.
    #[error("a number leaves the limits")]
    Number(WideAt),
    /// There was no memory.
    #[error("no memory")]
    Memory(AllocError),
}

impl From<AllocError> for Refused {
    ghost use Rattle.std.specs.Prelude.{◌≡◌};
    ghost use Rattle.ae_value_fitting.specs.declared.refusals.Refused.TheVariants.{Memory};

    ghost from_gives = { λ e r. r ≡ Memory e };

    fn from(refused: AllocError) -> Refused {
        Refused::Memory(refused)
    }
}
