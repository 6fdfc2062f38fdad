//! Multisets of names.
ghost use Rattle.std.specs.Prelude.{◌≡◌, ◌≤◌, ◌<◌, ◌+◌, true, drop, length, IfOk};
ghost use Rattle.ae_codes.specs.Rising.{rising};
ghost use Rattle.ae_readers.specs.Readers.{Reads, ReadsExactly, Ahead};
ghost use Rattle.ae_valuereader.specs.Multisets.{multiset_read, rising_span, rising_read};
ghost use Rattle.ae_valuereader.specs.Spans.{may_close, span_read};

use crate::spans::{Span, read_within};
use ae_base::lists::List;
use ae_readers::{Fault, byte_at};
use std::alloc::Global;

/// The greatest number of 64 bits.
const TOP: usize = 18446744073709551615;

// Which numbers may stand from `low` on: a blank or `]` closes each.
fn numbers_from(low: usize) -> Span
    ensures { result ≡ rising_span low }
{
    Span {
        low,
        high: TOP,
        last: 93,
        may_end: true,
        greatest: TOP,
    }
}

fn read_number(text: &[u8], at: usize, low: usize) -> Result<((usize, u8), usize), Fault>
    ensures read { Reads text.now result (span_read (rising_span low) (drop at text.now)) }
    ensures closed { IfOk result (λ v. may_close (rising_span low) v.0.0 v.0.1 ≡ true) }
    ensures ahead { Ahead text.now at result }
{
    read_within(text, at, numbers_from(low))
}

/// Numbers of 64 bits that rise, where one may stand again, behind `[` and up to `]`.
pub fn read_multiset(alloc: Global, text: &[u8], at: usize) -> Result<(List<usize>, usize), Fault>
    ensures read { Reads text.now result ((rising (λ n. n)).read (drop at text.now)) }
    ensures exact { ReadsExactly (rising (λ n. n)) text.now at result }
    ensures ahead { Ahead text.now at result }
{
    read_by_byte(alloc, text, at)
}

fn read_by_byte(alloc: Global, text: &[u8], at: usize) -> Result<(List<usize>, usize), Fault>
    ensures read { Reads text.now result (multiset_read (drop at text.now)) }
    ensures ahead { Ahead text.now at result }
{
    match byte_at(text, at) {
        None => Err(Fault::At(at)),
        Some(byte) => {
            if byte == b']' {
                return Ok((List::new(alloc), at + 1));
            }
            read_numbers(alloc, text, at)
        }
    }
}

fn read_numbers(alloc: Global, text: &[u8], from: usize) -> Result<(List<usize>, usize), Fault>
    ensures read { Reads text.now result (rising_read (drop from text.now)) }
    ensures ahead { Ahead text.now from result }
{
    let mut numbers = List::new(alloc);
    let mut at = from;
    let mut low = 0;
    'numbers: loop {
        let ((number, close), next) = match read_number(text, at, low) {
            Ok(found) => found,
            Err(fault) => return Err(fault),
        };
        if let Err(_) = numbers.push(number) {
            return Err(Fault::Memory);
        }
        at = next;
        if close != 32 {
            return Ok((numbers, at));
        }
        low = number;
    }
}
