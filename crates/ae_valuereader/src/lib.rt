//! Reads linear forms and values: each exactly from its text, or the first byte that no text continues.
#![tactic(auto)]

mod divisors;
mod forms;
mod multisets;
mod parts;
mod signs;
mod spans;
mod values;

pub use forms::read_form;
pub use multisets::read_multiset;
pub use signs::read_sign;
pub use spans::{Span, read_within};
pub use values::read_value;
