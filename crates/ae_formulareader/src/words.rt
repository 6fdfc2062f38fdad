//! The words of formulas.
ghost use Rattle.std.specs.Prelude.{◌≡◌, [], drop, get_or};
ghost use Rattle.std.specs.Str.{bytes_eq};
ghost use Rattle.ae_prooftext.specs.FormulaTexts.{word_fine, leaf_fine, kind_of, same};
ghost use Rattle.ae_prooftext.specs.Words.{symbol_of};
ghost use Rattle.ae_formulareader.specs.Formulas.{kind_is, leaf_at, words_at};
ghost use Rattle.ae_readers.specs.declared.closing.Closing.TheVariants as closing;
ghost use Rattle.ae_readers.specs.Readers.{Reads, Ahead, closes, named_read};

use ae_base::lists::List;
use ae_core::formulas::Formula;
use ae_readers::{Closing, Fault, Form};
use ae_termreader::{Names, Tables, read_named};
use std::alloc::Global;

/// What a word behind a formula's bracket says of what follows.
#[derive(Clone, Copy, PartialEq, Eq)]
pub enum Opening {
    Eq,
    Lt,
    Le,
    Not,
    And,
    Or,
    Xor,
    Iff,
    All,
    Ex,
    /// A symbol's name.
    Symbol,
}

fn same(left: &[u8], right: &[u8]) -> bool
    ensures { result ≡ bytes_eq left.now right.now }
{
    left == right
}

#[tactic(auto, using(crate::proofs::WordForms::same_straight))]
fn is_word(left: &[u8], right: &[u8]) -> bool
    ensures { result ≡ same left.now right.now }
{
    same(left, right)
}

// What a word says.
fn opening_of(word: &[u8]) -> Opening
    ensures { kind_is result ≡ kind_of word.now }
{
    if is_word(word, b"=") {
        return Opening::Eq;
    }
    if is_word(word, b"<") {
        return Opening::Lt;
    }
    if is_word(word, b"<=") {
        return Opening::Le;
    }
    if is_word(word, b"@and") {
        return Opening::And;
    }
    if is_word(word, b"@or") {
        return Opening::Or;
    }
    if is_word(word, b"@xor") {
        return Opening::Xor;
    }
    if is_word(word, b"@iff") {
        return Opening::Iff;
    }
    if is_word(word, b"@all") {
        return Opening::All;
    }
    if is_word(word, b"@ex") {
        return Opening::Ex;
    }
    if is_word(word, b"@not") {
        return Opening::Not;
    }
    Opening::Symbol
}

/// What the word says that stands at this place among those that may stand first in a formula's brackets: told by the place alone where it is no symbol's name.
pub fn opening_at(tables: &Tables<'_>, negations: bool, place: usize) -> Opening
    ensures { kind_is result ≡ kind_of (get_or (words_at tables.now.signature.now negations) place []) }
{
    match place {
        0 => Opening::Eq,
        1 => Opening::Lt,
        2 => Opening::Le,
        3 => Opening::And,
        4 => Opening::Or,
        5 => Opening::Xor,
        6 => Opening::Iff,
        7 => Opening::All,
        8 => Opening::Ex,
        _ => late_opening(tables, negations, place),
    }
}

fn late_opening(tables: &Tables<'_>, negations: bool, place: usize) -> Opening
    ensures { kind_is result ≡ kind_of (get_or (words_at tables.now.signature.now negations) place []) }
{
    if negations && place == 9 {
        return Opening::Not;
    }
    opening_of(word_among(opening_words(tables, negations).words.as_slice(), place))
}

/// The word at a place of a table; an empty one where it has none.
pub fn word_among(words: &[List<u8>], place: usize) -> &[u8]
    ensures { result.now ≡ get_or words.now place [] }
{
    if place < words.len() {
        words[place].as_slice()
    } else {
        b""
    }
}

/// The number of the first symbol of this name; 0 where there is none.
#[tactic(auto, using(crate::proofs::WordForms::symbol_below, crate::proofs::WordForms::symbol_above))]
pub fn symbol_named(tables: &Tables<'_>, word: &[u8]) -> usize
    ensures { result ≡ symbol_of tables.now.signature.now word.now }
{
    let place = tables.symbol_words.place(word);
    if place < tables.signature.symbols.len() {
        place
    } else {
        0
    }
}

/// The words that may stand first in a formula's brackets; `negations` says whether `@not` is one of them.
pub fn opening_words<'a>(tables: &'a Tables<'_>, negations: bool) -> &'a Names
    ensures { result.now.words ≡ words_at tables.now.signature.now negations }
{
    if negations {
        &tables.formula_words
    } else {
        &tables.positive_words
    }
}

/// The word that begins at a place and stands first in a formula's brackets, by its first place in the table, and the blank behind it.
pub fn read_opening(text: &[u8], at: usize, names: &Names) -> Result<((usize, u8), usize), Fault>
    ensures read { Reads text.now result (named_read word_fine (closes closing.Blank) names.now.words (drop at text.now)) }
    ensures ahead { Ahead text.now at result }
{
    read_named(text, at, names, Form::Word, Closing::Blank)
}

/// The word that begins at a place and stands alone as a formula, and the byte that closes it.
pub fn read_leaf_word(
    text: &[u8],
    at: usize,
    names: &Names,
    closing: Closing,
) -> Result<((usize, u8), usize), Fault>
    ensures read { Reads text.now result (named_read leaf_fine (closes closing) names.now.words (drop at text.now)) }
    ensures ahead { Ahead text.now at result }
{
    read_named(text, at, names, Form::Leaf, closing)
}

fn proposition(numbers: &[usize], place: usize) -> usize
    ensures { result ≡ get_or numbers.now place 0 }
{
    if place < numbers.len() {
        numbers[place]
    } else {
        0
    }
}

/// The formula of a word that stands alone, by its place.
pub fn leaf_at(alloc: Global, tables: &Tables<'_>, place: usize) -> Formula
    ensures { result ≡ leaf_at tables.now.signature.now place }
{
    match place {
        0 => Formula::True,
        1 => Formula::False,
        _ => Formula::Pred {
            symbol: proposition(tables.propositions.as_slice(), place - 2),
            sorts: List::new(alloc),
            args: List::new(alloc),
        },
    }
}
