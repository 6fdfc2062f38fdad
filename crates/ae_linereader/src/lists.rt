//! Numbers, and factors with the numbers of lines, to the end of a line.
ghost use Rattle.std.specs.Prelude.{◌≡◌, ◌<◌, ◌≤◌, ◌+◌, length, drop};
ghost use Rattle.ae_prooftext.specs.Rules.{scaled};
ghost use Rattle.ae_linereader.specs.Rules.{number_rows, numbers_read, number_and_more_read, scaled_read, scaled_rows, sum_read};
ghost use Rattle.ae_readers.specs.Readers.{Reads, Ahead, row_read};

use ae_base::lists::List;
use ae_core::proofs::Scaled;
use ae_readers::{Closing, Fault, byte_at, read_fixed, read_integer, read_size};
use std::alloc::Global;

// Numbers parted by blanks.
fn read_number_row(alloc: Global, text: &[u8], from: usize) -> Result<(List<usize>, usize), Fault>
    ensures read { Reads text.now result (row_read number_rows (drop from text.now)) }
    ensures ahead { Ahead text.now from result }
{
    let mut numbers = List::new(alloc);
    let mut at = from;
    'values: loop {
        let ((number, close), next) = match read_size(text, at, Closing::InLine) {
            Ok(found) => found,
            Err(fault) => return Err(fault),
        };
        if let Err(_) = numbers.push(number) {
            return Err(Fault::Memory);
        }
        at = next;
        if close != 32 {
            return Ok((numbers, at));
        }
    }
}

/// Numbers, a blank before each.
pub fn read_numbers(alloc: Global, text: &[u8], at: usize) -> Result<(List<usize>, usize), Fault>
    ensures read { Reads text.now result (numbers_read (drop at text.now)) }
    ensures ahead { Ahead text.now at result }
{
    match byte_at(text, at) {
        None => Err(Fault::At(at)),
        Some(byte) => {
            if byte == b'\n' {
                return Ok((List::new(alloc), at + 1));
            }
            let (_, behind) = read_fixed(text, at, b" ")?;
            let (numbers, next) = read_number_row(alloc, text, behind)?;
            Ok((numbers, next))
        }
    }
}

/// A number, and any more of them.
pub fn read_number_and_more(
    alloc: Global,
    text: &[u8],
    at: usize,
) -> Result<((usize, List<usize>), usize), Fault>
    ensures read { Reads text.now result (number_and_more_read (drop at text.now)) }
    ensures ahead { Ahead text.now at result }
{
    let ((number, close), behind) = read_size(text, at, Closing::InLine)?;
    if close == 32 {
        let (numbers, next) = read_number_row(alloc, text, behind)?;
        return Ok(((number, numbers), next));
    }
    Ok(((number, List::new(alloc)), behind))
}

fn read_factor_and_line(text: &[u8], at: usize) -> Result<((Scaled, u8), usize), Fault>
    ensures read { Reads text.now result (scaled_read (drop at text.now)) }
    ensures ahead { Ahead text.now at result }
{
    let ((factor, _), behind) = read_integer(text, at, Closing::Blank)?;
    let ((line, close), next) = read_size(text, behind, Closing::InLine)?;
    Ok(((Scaled { factor, line }, close), next))
}

fn read_scaled(text: &[u8], at: usize) -> Result<((Scaled, u8), usize), Fault>
    ensures read { Reads text.now result (scaled.read (drop at text.now)) }
    ensures ahead { Ahead text.now at result }
{
    read_factor_and_line(text, at)
}

fn read_scaled_row(alloc: Global, text: &[u8], from: usize) -> Result<(List<Scaled>, usize), Fault>
    ensures read { Reads text.now result (row_read scaled_rows (drop from text.now)) }
    ensures ahead { Ahead text.now from result }
{
    let mut parts = List::new(alloc);
    let mut at = from;
    'values: loop {
        let ((part, close), next) = match read_scaled(text, at) {
            Ok(found) => found,
            Err(fault) => return Err(fault),
        };
        if let Err(_) = parts.push(part) {
            return Err(Fault::Memory);
        }
        at = next;
        if close != 32 {
            return Ok((parts, at));
        }
    }
}

/// A factor, and any scaled lines.
pub fn read_sum(
    alloc: Global,
    text: &[u8],
    at: usize,
) -> Result<((i128, List<Scaled>), usize), Fault>
    ensures read { Reads text.now result (sum_read (drop at text.now)) }
    ensures ahead { Ahead text.now at result }
{
    let ((times, close), behind) = read_integer(text, at, Closing::InLine)?;
    if close == 32 {
        let (parts, next) = read_scaled_row(alloc, text, behind)?;
        return Ok(((times, parts), next));
    }
    Ok(((times, List::new(alloc)), behind))
}
