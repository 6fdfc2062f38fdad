//! The law of numbers that are their own values. This function does nothing: its contract is a theorem.
ghost use Rattle.ae_opaque_numbers.specs.Opaque.{OpaqueNumbersAreLeaves};

/// A name that stands in the value of a number, by the lines of a legal journal, is that of an opaque term: nothing computes it of others.
pub fn opaque_numbers_are_leaves()
    ensures { OpaqueNumbersAreLeaves }
{}
