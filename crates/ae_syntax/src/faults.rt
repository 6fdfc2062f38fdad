//! Why a list of tokens is no file.

ghost use Rattle.std.specs.Prelude.{◌≡◌};
ghost use Rattle.ae_syntax.specs.declared.faults.Refusal.TheVariants.{Memory};

use std::alloc::{AllocError, AllocFailed};
use thiserror::Error;

/// Why tokens are no file, and at which byte: the first token for which one of these is true.
#[derive(Clone, Copy, Debug, PartialEq, Eq, Error)]
pub enum SyntaxFault {
    /// No file continues the tokens so far with this one, or the tokens end before a file does; then
    /// the place is the text's length.
    #[error("unexpected at {at}")]
    Unexpected { at: usize },
    /// The depth there is 1,001.
    #[error("too deep at {at}")]
    TooDeep { at: usize },
    /// No file continues the tokens so far with this one, and it is a word of the language that the
    /// profile leaves out.
    #[error("outside profile at {at}")]
    OutsideProfile { at: usize },
    /// There was no memory for the tree.
    #[error("out of memory")]
    Memory,
}

/// Why reading stops, at which of the tokens.
#[derive(Clone, Copy)]
pub enum Refusal {
    Wrong { at: usize },
    Deep { at: usize },
    Memory,
}

impl From<AllocError> for Refusal {
    ghost from_gives = { λ _ e. e ≡ Memory };

    fn from(_error: AllocError) -> Refusal {
        Refusal::Memory
    }
}

impl<T: Drop> From<AllocFailed<T>> for Refusal {
    ghost from_gives = { λ _ e. e ≡ Memory };

    fn from(_error: AllocFailed<T>) -> Refusal {
        Refusal::Memory
    }
}
