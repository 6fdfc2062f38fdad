//! The places of the axioms that a proof rests on.
ghost use Rattle.std.specs.Prelude.{◌≡◌, ◌≤◌, ◌<◌, ◌+◌, true, drop, length, suc, IfOk};
ghost use Rattle.ae_codes.specs.Rising.{rising};
ghost use Rattle.ae_proofreader.specs.Places.{place_span, place_row_read, places_read};
ghost use Rattle.ae_readers.specs.Readers.{Reads, Ahead};
ghost use Rattle.ae_valuereader.specs.Spans.{may_close, span_read};

use ae_base::lists::List;
use ae_readers::{Fault, byte_at};
use ae_valuereader::{Span, read_within};
use std::alloc::Global;

/// The greatest number of 64 bits.
const TOP: usize = 18446744073709551615;

// Which places may stand from `low` on: `]` closes each, and a blank each but the last of all.
fn places_from(low: usize) -> Span
    ensures { result ≡ place_span low }
{
    Span {
        low,
        high: TOP,
        last: 93,
        may_end: true,
        greatest: TOP - 1,
    }
}

fn read_place(text: &[u8], at: usize, low: usize) -> Result<((usize, u8), usize), Fault>
    ensures read { Reads text.now result (span_read (place_span low) (drop at text.now)) }
    ensures below { IfOk result (λ v. v.0.1 ≡ 32 → v.0.0 ≤ 18446744073709551614) }
    ensures ahead { Ahead text.now at result }
{
    read_within(text, at, places_from(low))
}

// One place or more, up to `]`.
fn read_place_row(alloc: Global, text: &[u8], from: usize) -> Result<(List<usize>, usize), Fault>
    ensures read { Reads text.now result (place_row_read (drop from text.now)) }
    ensures ahead { Ahead text.now from result }
{
    let mut places = List::new(alloc);
    let mut at = from;
    let mut low = 0;
    'places: loop {
        let ((place, close), next) = match read_place(text, at, low) {
            Ok(found) => found,
            Err(fault) => return Err(fault),
        };
        if let Err(_) = places.push(place) {
            return Err(Fault::Memory);
        }
        at = next;
        if close != 32 {
            return Ok((places, at));
        }
        low = place + 1;
    }
}

fn read_listed(alloc: Global, text: &[u8], at: usize) -> Result<(List<usize>, usize), Fault>
    ensures read { Reads text.now result (places_read (drop at text.now)) }
    ensures ahead { Ahead text.now at result }
{
    match byte_at(text, at) {
        None => Err(Fault::At(at)),
        Some(byte) => {
            if byte == b']' {
                return Ok((List::new(alloc), at + 1));
            }
            read_place_row(alloc, text, at)
        }
    }
}

/// Numbers of 64 bits that rise, each once, behind `[` and up to `]`.
pub fn read_places(alloc: Global, text: &[u8], at: usize) -> Result<(List<usize>, usize), Fault>
    ensures read { Reads text.now result ((rising suc).read (drop at text.now)) }
    ensures ahead { Ahead text.now at result }
{
    read_listed(alloc, text, at)
}
