//! Names of a table and the byte that closes them.
ghost use Rattle.std.specs.Prelude.{◌≡◌, ◌≤◌, ◌<◌, ◌+◌, ◌&&◌, true, false, nat_lt, length, drop, IfSome, IfNone};
ghost use Rattle.std.specs.Str.{bytes_eq};
ghost use Rattle.ae_readers.specs.Names.{form_of, may_stand, names_at, word_at, SomeName};
ghost use Rattle.ae_readers.specs.Readers.{Reads, ReadsExactly, Ahead, AsksNoMemory, closes, word_part, place_of, no_end, most_of, named_read, name_wrong};

use crate::closing::Closing;
use crate::fault::Fault;
use crate::words::{farther, place};
use ae_base::lists::List;

/// Which words may be names: none is empty, and the first byte tells.
#[derive(Clone, Copy, PartialEq, Eq)]
pub enum Form {
    /// Of a sort, or of a symbol that stands alone in a term.
    Lone,
    /// Of what stands first in a term's brackets.
    Head,
    /// Of what stands first in a formula's brackets.
    Word,
    /// Of what stands alone in a formula.
    Leaf,
}

impl Form {
    /// Whether a word has the form.
    pub fn is_fine(self, word: &[u8]) -> bool
        ensures { result ≡ form_of self word.now }
    {
        match word.split_first() {
            None => false,
            Some((first, _)) => match self {
                Form::Lone => 64 < *first && *first != 93,
                Form::Head => 34 <= *first,
                Form::Word => true,
                Form::Leaf => 64 <= *first,
            },
        }
    }
}

fn same(left: &[u8], right: &[u8]) -> bool
    ensures { result ≡ bytes_eq left.now right.now }
{
    left == right
}

// The first place of a word among others; their number where it isn't one of them.
fn find(words: &[List<u8>], word: &[u8]) -> usize
    ensures { result ≡ place_of words.now word.now }
{
    let mut place = 0;
    for entry in words {
        if same(entry.as_slice(), word) {
            return place;
        }
        place += 1;
    }
    place
}

fn has_no_end(closing: Closing, word: &[u8]) -> bool
    ensures { result ≡ no_end (closes closing) word.now }
{
    for byte in word {
        if closing.closes(*byte) {
            return false;
        }
    }
    true
}

/// Whether a word may be a name before these closing bytes.
pub fn may_stand(form: Form, closing: Closing, word: &[u8]) -> bool
    ensures { result ≡ may_stand form closing word.now }
{
    form.is_fine(word) && has_no_end(closing, word)
}

// The most that one of the words has in common with the bytes from a place on.
fn farthest(text: &[u8], at: usize, words: &[List<u8>], form: Form, closing: Closing) -> usize
    ensures { result ≡ most_of 0 (may_stand form closing) words.now (drop at text.now) }
{
    let mut far = 0;
    for word in words {
        let bytes = word.as_slice();
        if may_stand(form, closing, bytes) {
            far = farther(text, at, bytes, far);
        }
    }
    far
}

// How many bytes stand before the first that closes.
fn part_length(text: &[u8], at: usize, closing: Closing) -> usize
    ensures count { result ≡ length (word_part (closes closing) (drop at text.now)) }
    ensures within { at < length text.now → at + result ≤ length text.now }
{
    let mut end = at;
    let mut count = 0;
    while end < text.len() && !closing.closes(text[end]) {
        end += 1;
        count += 1;
    }
    count
}

/// The name of a table that begins at a place, by its first place in the table, and the byte that closes it.
pub fn read_name(
    text: &[u8],
    at: usize,
    words: &[List<u8>],
    form: Form,
    closing: Closing,
) -> Result<((usize, u8), usize), Fault>
    ensures read { Reads text.now result (named_read (form_of form) (closes closing) words.now (drop at text.now)) }
    ensures exact { (some : SomeName form closing words.now) → ReadsExactly (names_at form closing words.now some) text.now at (word_at words.now result) }
    ensures ahead { Ahead text.now at result }
    ensures memory { AsksNoMemory result }
{
    read_word(text, at, words, form, closing)
}

// The first place of a word that may be a name among others.
fn find_name(words: &[List<u8>], form: Form, word: &[u8]) -> Option<usize>
    ensures some { IfSome result (λ n. (form_of form word.now && nat_lt (place_of words.now word.now) (length words.now)) ≡ true) }
    ensures place { IfSome result (λ n. n ≡ place_of words.now word.now) }
    ensures none { IfNone result ((form_of form word.now && nat_lt (place_of words.now word.now) (length words.now)) ≡ false) }
{
    let found = find(words, word);
    if form.is_fine(word) && found < words.len() {
        Some(found)
    } else {
        None
    }
}

// The first place that no name of the table goes on to.
fn wrong_place(text: &[u8], at: usize, words: &[List<u8>], form: Form, closing: Closing) -> usize
    ensures behind { drop result text.now ≡ name_wrong (form_of form) (closes closing) words.now (drop at text.now) }
    ensures within { result ≤ length text.now }
{
    place(text, at, farthest(text, at, words, form, closing))
}

fn read_word(
    text: &[u8],
    at: usize,
    words: &[List<u8>],
    form: Form,
    closing: Closing,
) -> Result<((usize, u8), usize), Fault>
    ensures read { Reads text.now result (named_read (form_of form) (closes closing) words.now (drop at text.now)) }
    ensures ahead { Ahead text.now at result }
    ensures memory { AsksNoMemory result }
{
    let count = part_length(text, at, closing);
    if at >= text.len() || count >= text.len() - at {
        return Err(Fault::At(wrong_place(text, at, words, form, closing)));
    }
    match find_name(words, form, &text[at..at + count]) {
        Some(found) => Ok(((found, text[at + count]), at + count + 1)),
        None => Err(Fault::At(wrong_place(text, at, words, form, closing))),
    }
}
