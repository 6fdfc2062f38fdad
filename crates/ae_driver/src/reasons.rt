//! Why texts are refused.

ghost use Rattle.std.specs.Prelude.{IfOk};
ghost use Rattle.ae_driver.specs.Inner.Endings.{PlacesStand};
ghost use Rattle.ae_driver.specs.Problems.{IsReasonLine};

use ae_elab::TypeFault;
use ae_fault_lines::fault_text;
use ae_report::{Refusal, refusal_text};
use ae_syntax::decls::File;
use std::alloc::{AllocError, Global};

/// Why a text is refused.
#[derive(Drop)]
pub enum Reason {
    /// By its bytes or its tokens, or as a whole.
    Plain(Refusal),
    /// It is this file, which has this fault of typing.
    Untyped(File, TypeFault),
}

/// The line by which a text is refused; `Err` where there is no memory for it.
pub fn reason_text(alloc: Global, text: &[u8], why: &Reason) -> Result<Vec<u8>, AllocError>
    requires { PlacesStand text.now why.now }
    ensures { IfOk result (λ line. IsReasonLine text.now why.now line.items) }
{
    match why {
        Reason::Plain(refusal) => refusal_text(alloc, text, refusal),
        Reason::Untyped(file, fault) => fault_text(alloc, text, file, fault),
    }
}
