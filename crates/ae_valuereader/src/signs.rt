//! The sign of a whole number.
ghost use Rattle.std.specs.Prelude.{◌≡◌, drop};
ghost use Rattle.ae_readers.specs.Readers.{Reads, AsksNoMemory};
ghost use Rattle.ae_valuereader.specs.Signs.{sign_read, NotBehind};

use ae_readers::{Fault, byte_at, is_wide};

/// Whether `-` stands at a place, and where the digits begin. A number beyond 127 bits is told at its first byte, the sign.
pub fn read_sign(text: &[u8], at: usize) -> Result<(bool, usize), Fault>
    ensures read { Reads text.now result (sign_read (drop at text.now)) }
    ensures behind { NotBehind text.now at result }
    ensures memory { AsksNoMemory result }
{
    match byte_at(text, at) {
        None => Err(Fault::At(at)),
        Some(byte) => {
            if byte == b'-' {
                if is_wide(text, at + 1) {
                    return Err(Fault::WideNumber(at));
                }
                return Ok((true, at + 1));
            }
            if is_wide(text, at) {
                return Err(Fault::WideNumber(at));
            }
            Ok((false, at))
        }
    }
}
