//! Bytes and numbers, put at the end of a buffer.
ghost use Rattle.std.specs.Prelude.{◌≡◌, ◌++◌, decimal, OnOk};
ghost use Rattle.std.specs.Fmt.{signed_decimal};
ghost use Rattle.ae_prooftext.specs.Texts.{numbers_text, scaled_text, parts_text, sum_text, number_line, number_blank};
ghost use Rattle.ae_prooftext.specs.Inner.Pieces.{numbers_bytes, spaced_numbers, spaced_scaled};

use ae_core::proofs::Scaled;
use itoa::Buffer;
use std::alloc::AllocError;

/// Puts bytes at the end; `Err` where there is no memory for them, as in every writer here.
pub fn put(out: &mut Vec<u8>, bytes: &[u8]) -> Result<(), AllocError>
    ensures { OnOk result (out.new.items ≡ out.old.items ++ bytes.now) }
{
    out.extend_from_slice(bytes)
}

/// Puts a number's decimal digits at the end.
pub fn put_number(out: &mut Vec<u8>, n: usize) -> Result<(), AllocError>
    ensures { OnOk result (out.new.items ≡ out.old.items ++ decimal n) }
{
    let mut buffer = Buffer::new();
    put(out, buffer.format(n).as_bytes())
}

/// Puts an integer at the end, with `-` before a negative one.
pub fn put_integer(out: &mut Vec<u8>, n: i128) -> Result<(), AllocError>
    ensures { OnOk result (out.new.items ≡ out.old.items ++ signed_decimal n) }
{
    let mut buffer = Buffer::new();
    put(out, buffer.format(n).as_bytes())
}

/// Puts the size of an integer.
pub fn put_size(out: &mut Vec<u8>, n: u128) -> Result<(), AllocError>
    ensures { OnOk result (out.new.items ≡ out.old.items ++ decimal n) }
{
    let mut buffer = Buffer::new();
    put(out, buffer.format(n).as_bytes())
}

/// Puts a number and the end of its line.
pub fn put_number_line(out: &mut Vec<u8>, n: usize) -> Result<(), AllocError>
    ensures { OnOk result (out.new.items ≡ out.old.items ++ number_line n) }
{
    put_number(out, n)?;
    put(out, b"\n")
}

/// Puts a number and a blank.
pub fn put_number_blank(out: &mut Vec<u8>, n: usize) -> Result<(), AllocError>
    ensures { OnOk result (out.new.items ≡ out.old.items ++ number_blank n) }
{
    put_number(out, n)?;
    put(out, b" ")
}

/// Puts numbers, with a blank before each.
pub fn put_spaced_numbers(out: &mut Vec<u8>, numbers: &[usize]) -> Result<(), AllocError>
    ensures { OnOk result (out.new.items ≡ out.old.items ++ spaced_numbers numbers.now) }
{
    for n in numbers {
        put(out, b" ")?;
        put_number(out, *n)?;
    }
    Ok(())
}

/// Puts numbers, with a blank before each, and the end of their line.
pub fn put_numbers(out: &mut Vec<u8>, numbers: &[usize]) -> Result<(), AllocError>
    ensures { OnOk result (out.new.items ≡ out.old.items ++ numbers_text numbers.now) }
{
    put_spaced_numbers(out, numbers)?;
    put(out, b"\n")
}

/// Puts a factor and the number of a line.
fn put_scaled(out: &mut Vec<u8>, part: Scaled) -> Result<(), AllocError>
    ensures { OnOk result (out.new.items ≡ out.old.items ++ scaled_text part) }
{
    put_integer(out, part.factor)?;
    put(out, b" ")?;
    put_number(out, part.line)
}

fn put_spaced_scaled(out: &mut Vec<u8>, parts: &[Scaled]) -> Result<(), AllocError>
    ensures { OnOk result (out.new.items ≡ out.old.items ++ spaced_scaled parts.now) }
{
    for part in parts {
        put(out, b" ")?;
        put_scaled(out, *part)?;
    }
    Ok(())
}

/// Puts factors and lines, with a blank before each, and the end of their line.
fn put_parts(out: &mut Vec<u8>, parts: &[Scaled]) -> Result<(), AllocError>
    ensures { OnOk result (out.new.items ≡ out.old.items ++ parts_text parts.now) }
{
    put_spaced_scaled(out, parts)?;
    put(out, b"\n")
}

/// Puts a factor, the factors and lines of a sum, and the end of their line.
pub fn put_sum(out: &mut Vec<u8>, times: i128, parts: &[Scaled]) -> Result<(), AllocError>
    ensures { OnOk result (out.new.items ≡ out.old.items ++ sum_text times parts.now) }
{
    put_integer(out, times)?;
    put_parts(out, parts)
}

/// Puts numbers with a blank between two, and the square bracket that closes them.
pub fn put_number_list(out: &mut Vec<u8>, numbers: &[usize]) -> Result<(), AllocError>
    ensures { OnOk result (out.new.items ≡ out.old.items ++ numbers_bytes numbers.now) }
{
    match numbers.split_first() {
        None => put(out, b"]"),
        Some((first, rest)) => {
            put_number(out, *first)?;
            put_spaced_numbers(out, rest)?;
            put(out, b"]")
        }
    }
}
