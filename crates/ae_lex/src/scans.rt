//! Reading on from a place of the text.

ghost use Rattle.std.specs.Prelude.{◌≡◌, ◌∷◌, [], ◌<◌, ◌≤◌, ◌+◌, ◌^◌, ◌-◌, length, drop, IfSome, IfNone, IsTrue, IsFalse};
ghost use Rattle.ae_lex.specs.Lexis.{is_blank, is_digit, is_letter, is_inner, is_point};
ghost use Rattle.ae_lex.specs.Inner.Pieces.{HasByte, HasRun, IsCommentEnd, StopsAt};

/// A blank: a tab, a line feed, a form feed, a carriage return or a space.
pub fn is_blank(byte: u8) -> bool
    ensures { result ≡ is_blank byte }
{
    matches!(byte, b'\t' | b'\n' | b'\x0C' | b'\r' | b' ')
}

/// A digit.
pub fn is_digit(byte: u8) -> bool
    ensures { result ≡ is_digit byte }
{
    byte.is_ascii_digit()
}

/// A letter or `_`.
pub fn is_letter(byte: u8) -> bool
    ensures { result ≡ is_letter byte }
{
    byte.is_ascii_alphabetic() || byte == b'_'
}

/// What may follow in a word.
pub fn is_inner(byte: u8) -> bool
    ensures { result ≡ is_inner byte }
{
    is_letter(byte) || is_digit(byte) || byte == b'?'
}

/// The byte at a place, or none at the text's end.
pub fn next(text: &[u8], at: usize) -> Option<u8>
    requires { at ≤ length text.now }
    ensures some { IfSome result (λ b. HasByte text.now at b) }
    ensures none { IfNone result (drop at text.now ≡ []) }
{
    if at < text.len() {
        Some(text[at])
    } else {
        None
    }
}

/// Whether a point stands at a place.
pub fn has_point(text: &[u8], at: usize) -> bool
    requires { at ≤ length text.now }
    ensures yes { IsTrue result → HasByte text.now at 46 }
    ensures no { IsFalse result → StopsAt is_point (drop at text.now) }
{
    match next(text, at) {
        Some(byte) => byte == b'.',
        None => false,
    }
}

/// Where the bytes that may stand in a word end.
pub fn word_end(text: &[u8], from: usize) -> usize
    requires { from ≤ length text.now }
    ensures { HasRun is_inner text.now from result }
{
    let mut at = from;
    while let Some(byte) = next(text, at) {
        if !is_inner(byte) {
            return at;
        }
        at += 1;
    }
    at
}

/// Where the open comment, in which `from` stands, ends.
pub fn comment_end(text: &[u8], from: usize) -> Option<usize>
    requires { from ≤ length text.now }
    ensures { IsCommentEnd result from text.now }
{
    let mut depth: usize = 1;
    let mut at = from;
    while depth > 0 {
        let byte = next(text, at)?;
        let after = next(text, at + 1)?;
        if byte == b'(' && after == b'*' {
            depth += 1;
            at += 2;
        } else if byte == b'*' && after == b')' {
            depth -= 1;
            at += 2;
        } else {
            at += 1;
        }
    }
    Some(at)
}
