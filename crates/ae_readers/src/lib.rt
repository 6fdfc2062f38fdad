//! Readers of bytes, numbers, words and names. Each begins at a place of a text and answers what it read with the place behind it, or why it read nothing.
#![tactic(auto)]

mod bytes;
mod closing;
mod denominators;
mod fault;
mod integers;
mod laws;
mod names;
mod numbers;
mod words;

pub use bytes::{byte_at, is_figure, read_closing};
pub use closing::Closing;
pub use denominators::read_below;
pub use fault::Fault;
pub use integers::{read_integer, read_long, signed};
pub use laws::{name_texts, number_texts};
pub use names::{Form, may_stand, read_name};
pub use numbers::{is_wide, read_size};
pub use words::{farther, place, read_fixed};
