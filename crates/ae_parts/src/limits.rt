//! The number of steps in a goal's line.
ghost use Rattle.std.specs.Prelude.{◌≡◌, ◌≤◌, ◌<◌, ◌+◌, drop};
ghost use Rattle.ae_codes.specs.Closers.{by_line};
ghost use Rattle.ae_codes.specs.Numbers.{number};
ghost use Rattle.ae_parts.specs.Codes.{limits};
ghost use Rattle.ae_parts.specs.Reading.{limit_span};
ghost use Rattle.ae_readers.specs.Readers.{Reads, Ahead};
ghost use Rattle.ae_valuereader.specs.Spans.{span_read};

use ae_readers::Fault;
use ae_valuereader::{Span, read_within};

// From 1 to 1,000,000; the end of the line closes each.
fn limit_span() -> Span
    ensures { result ≡ limit_span }
{
    Span {
        low: 1,
        high: 1000000,
        last: b'\n',
        may_end: true,
        greatest: 0,
    }
}

fn read_spanned(text: &[u8], at: usize) -> Result<((usize, u8), usize), Fault>
    ensures read { Reads text.now result (span_read limit_span (drop at text.now)) }
    ensures ahead { Ahead text.now at result }
{
    read_within(text, at, limit_span())
}

/// The number of steps that begins at a place, and the place behind the end of its line. One beyond 127 bits is told at its first digit, any other that is too large at
/// the first digit with which none goes on.
pub fn read_limit(text: &[u8], at: usize) -> Result<((usize, u8), usize), Fault>
    ensures read { Reads text.now result ((number (limits by_line)).read (drop at text.now)) }
    ensures ahead { Ahead text.now at result }
{
    read_spanned(text, at)
}
