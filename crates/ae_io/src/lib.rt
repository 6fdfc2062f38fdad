//! Sources and sinks of bytes, whose faults are counted.
//!
//! A program reads its whole input by [`read_all`] and writes its output by [`write_all`]. What
//! fails shows in a count of faults, so that no caller has to take a refusal on trust: it comes
//! only where the count of the object that was handed in rose in that call.
#![tactic(auto)]

mod faultless;
mod memory;
mod streams;
mod traits;
mod whole;

pub use faultless::{FaultlessSink, FaultlessSource};
pub use memory::{MemSink, MemSource};
pub use streams::{StdSink, StdSource};
pub use traits::{Failed, Sink, Source};
pub use whole::{ReadEnd, WriteEnd, read_all, write_all};
