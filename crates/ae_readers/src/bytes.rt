//! Bytes.
ghost use Rattle.std.specs.Prelude.{◌≡◌, ◌<◌, ◌+◌, ◌∷◌, [], length, drop, IfSome, IfNone};
ghost use Rattle.ae_codes.specs.Codes.{is_digit};
ghost use Rattle.ae_readers.specs.Readers.{Reads, ReadsExactly, Ahead, AsksNoMemory, closing_at, closing_read, close_of};

use crate::closing::Closing;
use crate::fault::Fault;

/// The byte at a place, or none at the end.
pub fn byte_at(text: &[u8], at: usize) -> Option<u8>
    ensures some { IfSome result (λ b. drop at text.now ≡ b ∷ drop (at + 1) text.now) }
    ensures within { IfSome result (λ b. at < length text.now) }
    ensures none { IfNone result (drop at text.now ≡ []) }
{
    if at < text.len() {
        Some(text[at])
    } else {
        None
    }
}

/// Whether a byte is a digit.
pub fn is_figure(byte: u8) -> bool
    ensures { result ≡ is_digit byte }
{
    48 <= byte && byte <= 57
}

/// A byte that closes a text.
#[tactic(auto, using(crate::proofs::Exactness::closing_exactly))]
pub fn read_closing(text: &[u8], at: usize, closing: Closing) -> Result<(u8, usize), Fault>
    ensures read { Reads text.now result (closing_read (close_of closing) (drop at text.now)) }
    ensures exact { ReadsExactly (closing_at closing) text.now at result }
    ensures ahead { Ahead text.now at result }
    ensures memory { AsksNoMemory result }
{
    match byte_at(text, at) {
        Some(found) => {
            if closing.closes(found) {
                Ok((found, at + 1))
            } else {
                Err(Fault::At(at))
            }
        }
        None => Err(Fault::At(at)),
    }
}
