//! Answers of which each may be an error.

ghost use Rattle.std.specs.Prelude.{IfOk};
ghost use Rattle.ae_lifting.specs.Inner.Answered.{AreOk};

use std::alloc::AllocError;

/// Both answers, or the first error.
pub fn both<A: Drop, B: Drop>(
    first: Result<A, AllocError>,
    second: Result<B, AllocError>,
) -> Result<(A, B), AllocError>
    ensures { IfOk result (λ values. AreOk first second values.0 values.1) }
{
    let first = first?;
    let second = second?;
    Ok((first, second))
}
