//! Names of sorts, terms and formulas, each in the form that the grammar gives it.
ghost use Rattle.std.specs.Prelude.{◌≡◌, ◌≤◌, ◌<◌, ◌+◌, ◌&&◌, true, nat_lt, length, drop, IfOk, IfSome};
ghost use Rattle.ae_prooftext.specs.SortTexts.{fine};
ghost use Rattle.ae_prooftext.specs.TermTexts.{head_fine};
ghost use Rattle.ae_codes.specs.Codes.{got};
ghost use Rattle.ae_termreader.specs.Inner.Lookup.{Finds};
ghost use Rattle.ae_readers.specs.Names.{form_of};
ghost use Rattle.ae_readers.specs.Readers.{Reads, Ahead, AsksNoMemory, closes, named_read, no_end, place_of, word_part};

use crate::index::{find, index_of};
use ae_base::lists::List;
use ae_readers::{Closing, Fault, Form, may_stand, read_name};
use std::alloc::{AllocError, Global};

/// A table of words, as readers look them up.
#[derive(Drop)]
pub struct Names {
    pub words: List<List<u8>>,
    // The places of the words by their hashes.
    buckets: List<List<usize>>,
    ghost some: { 0 < length buckets },
    ghost finds: { Finds words buckets },
}

impl Names {
    /// The table of these words; `Err` where there is no memory for it.
    pub fn new(alloc: Global, words: List<List<u8>>) -> Result<Names, AllocError>
        ensures { IfOk result (λ names. names.words ≡ words) }
    {
        let buckets = index_of(alloc, words.as_slice())?;
        Ok(Names { words, buckets })
    }

    /// The first place of a word; the number of the words where it isn't one of them.
    pub fn place(&self, word: &[u8]) -> usize
        ensures { result ≡ place_of self.now.words word.now }
    {
        find(self.words.as_slice(), self.buckets.as_slice(), word)
    }
}

// How many bytes stand before the first that closes.
fn part_length(text: &[u8], at: usize, closing: Closing) -> usize
    ensures count { result ≡ length (word_part (closes closing) (drop at text.now)) }
    ensures within { at < length text.now → at + result ≤ length text.now }
{
    let mut end = at;
    let mut count = 0;
    while end < text.len() && !closing.closes(text[end]) {
        end += 1;
        count += 1;
    }
    count
}

// The place of a word that may be a name.
fn find_name(names: &Names, form: Form, word: &[u8]) -> Option<usize>
    ensures some { IfSome result (λ n. (form_of form word.now && nat_lt (place_of names.now.words word.now) (length names.now.words)) ≡ true) }
    ensures place { IfSome result (λ n. n ≡ place_of names.now.words word.now) }
{
    let found = names.place(word);
    if form.is_fine(word) && found < names.words.len() {
        Some(found)
    } else {
        None
    }
}

// The name that begins at a place, where one does: found by its hash.
fn find_named(
    text: &[u8],
    at: usize,
    names: &Names,
    form: Form,
    closing: Closing,
) -> Option<((usize, u8), usize)>
    ensures read { IfSome result (λ v. named_read (form_of form) (closes closing) names.now.words (drop at text.now) ≡ got v.0 (drop v.1 text.now)) }
    ensures ahead { IfSome result (λ v. at < v.1) }
    ensures within { IfSome result (λ v. v.1 ≤ length text.now) }
{
    let count = part_length(text, at, closing);
    if at >= text.len() || count >= text.len() - at {
        return None;
    }
    match find_name(names, form, &text[at..at + count]) {
        Some(found) => Some(((found, text[at + count]), at + count + 1)),
        None => None,
    }
}

/// The name of a table that begins at a place, by its first place in the table, and the byte that closes it.
pub fn read_named(
    text: &[u8],
    at: usize,
    names: &Names,
    form: Form,
    closing: Closing,
) -> Result<((usize, u8), usize), Fault>
    ensures read { Reads text.now result (named_read (form_of form) (closes closing) names.now.words (drop at text.now)) }
    ensures ahead { Ahead text.now at result }
    ensures memory { AsksNoMemory result }
{
    match find_named(text, at, names, form, closing) {
        Some(found) => Ok(found),
        None => read_name(text, at, names.words.as_slice(), form, closing),
    }
}

/// The name that begins at a place and stands alone as a sort or in a term, by its first place in the table, and the byte that closes it.
pub fn read_lone(
    text: &[u8],
    at: usize,
    names: &Names,
    closing: Closing,
) -> Result<((usize, u8), usize), Fault>
    ensures read { Reads text.now result (named_read fine (closes closing) names.now.words (drop at text.now)) }
    ensures ahead { Ahead text.now at result }
{
    read_named(text, at, names, Form::Lone, closing)
}

/// The same of what stands first in a term's brackets.
pub fn read_head(
    text: &[u8],
    at: usize,
    names: &Names,
    closing: Closing,
) -> Result<((usize, u8), usize), Fault>
    ensures read { Reads text.now result (named_read head_fine (closes closing) names.now.words (drop at text.now)) }
    ensures ahead { Ahead text.now at result }
{
    read_named(text, at, names, Form::Head, closing)
}

/// Whether a word may stand alone as a name before these closing bytes.
pub fn may_be_lone(closing: Closing, word: &[u8]) -> bool
    ensures { result ≡ fine word.now && no_end (closes closing) word.now }
{
    may_stand(Form::Lone, closing, word)
}
