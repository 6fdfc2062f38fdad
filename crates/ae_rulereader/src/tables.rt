//! The words of a signature's associative and commutative symbols.
ghost use Rattle.std.specs.Prelude.{◌≡◌, ◌++◌, ◌∷◌, [], not, map, Bool, IfOk, OnOk};
ghost use Rattle.std.specs.List.{filter, range_with_len};
ghost use Rattle.ae_prooftext.specs.Words.{has_variables, symbol_name, symbols};
ghost use Rattle.ae_rulereader.specs.Kinds.{may_name, of_kind, of_kind_all};
ghost use Rattle.ae_termreader.specs.Inner.Tables.{kept};
ghost use Rattle.ae_stategrammar.specs.Sides.{is_ac, plain_symbols, plain_table, sorted_symbols, sorted_table};
ghost use Rattle.ae_termreader.specs.Sorts.{has_name};

use ae_base::lists::List;
use ae_core::lists::at;
use ae_core::problems::{Nature, Signature};
use ae_prooftext::{has_variables, put_symbol_name};
use ae_readers::{Closing, Form, may_stand};
use ae_termreader::{Names, Tables};
use std::alloc::{AllocError, Global};

/// The words of a signature, with those of its associative and commutative symbols.
#[derive(Drop)]
pub struct AcTables<'a> {
    pub terms: Tables<'a>,
    /// The numbers of the symbols without type variables, and whether one of them has a name that can be read.
    pub plain: List<usize>,
    pub plain_words: Names,
    pub some_plain: bool,
    /// The same of those with type variables.
    pub sorted: List<usize>,
    pub sorted_words: Names,
    pub some_sorted: bool,
    ghost plain_are: { plain ≡ plain_symbols terms.signature.now },
    ghost plain_words_are: { plain_words.words ≡ plain_table terms.signature.now },
    ghost some_plain_is: { some_plain ≡ has_name (plain_table terms.signature.now) },
    ghost sorted_are: { sorted ≡ sorted_symbols terms.signature.now },
    ghost sorted_words_are: { sorted_words.words ≡ sorted_table terms.signature.now },
    ghost some_sorted_is: { some_sorted ≡ has_name (sorted_table terms.signature.now) },
}

impl<'a> AcTables<'a> {
    /// The words of a signature; `Err` where there is no memory for them.
    pub fn new(alloc: Global, signature: &'a Signature) -> Result<AcTables<'a>, AllocError>
        ensures { IfOk result (λ t. t.terms.signature.now ≡ signature.now) }
    {
        let plain = kind_of(alloc, signature, false)?;
        let sorted = kind_of(alloc, signature, true)?;
        let terms = Tables::new(alloc, signature)?;
        Ok(AcTables {
            terms,
            plain: plain.symbols,
            plain_words: plain.words,
            some_plain: plain.is_named,
            sorted: sorted.symbols,
            sorted_words: sorted.words,
            some_sorted: sorted.is_named,
        })
    }
}

/// The associative and commutative symbols with type variables, or those without.
#[derive(Drop)]
struct SymbolKind {
    symbols: List<usize>,
    words: Names,
    /// Whether one of them has a name that can be read.
    is_named: bool,
}

fn kind_of(alloc: Global, signature: &Signature, sorted: bool) -> Result<SymbolKind, AllocError>
    ensures symbols { IfOk result (λ k. k.symbols ≡ of_kind_all signature.now sorted) }
    ensures words { IfOk result (λ k. k.words.words ≡ map (symbol_name signature.now) (of_kind_all signature.now sorted)) }
    ensures named { IfOk result (λ k. k.is_named ≡ has_name (map (symbol_name signature.now) (of_kind_all signature.now sorted))) }
{
    let symbols = symbols_of(alloc, signature, sorted)?;
    let words = table_of(alloc, signature, sorted)?;
    let is_named = some_name(words.words.as_slice());
    Ok(SymbolKind {
        symbols,
        words,
        is_named,
    })
}

// The numbers below a count.
#[tactic(auto, using(ae_termreader::proofs::Ranges::range_more))]
fn numbers_below(alloc: Global, count: usize) -> Result<List<usize>, AllocError>
    ensures { IfOk result (λ ns. ns ≡ range_with_len 0 count) }
{
    let mut out = List::new(alloc);
    for n in 0..count {
        out.push(n)?;
    }
    Ok(out)
}

fn is_ac(signature: &Signature, number: usize) -> bool
    ensures { result ≡ is_ac signature.now number }
{
    match at(signature.symbols.as_slice(), number) {
        None => false,
        Some(entry) => match &entry.nature {
            Nature::Ac => true,
            Nature::Free => false,
            Nature::Choice { .. } => false,
        },
    }
}

// Whether a symbol is associative and commutative, and has type variables exactly where `sorted` says so.
fn is_of_kind(signature: &Signature, sorted: bool, number: usize) -> bool
    ensures { result ≡ of_kind signature.now sorted number }
{
    is_ac(signature, number) && has_variables(signature, number) == sorted
}

fn push_kept(
    out: &mut List<usize>,
    signature: &Signature,
    sorted: bool,
    number: usize,
) -> Result<(), AllocError>
    ensures { OnOk result (out.new ≡ out.old ++ kept (of_kind signature.now sorted number) number) }
{
    if is_of_kind(signature, sorted, number) {
        return out.push(number);
    }
    Ok(())
}

#[tactic(auto, using(ae_termreader::proofs::Ranges::keep_more))]
fn push_all(
    out: &mut List<usize>,
    signature: &Signature,
    sorted: bool,
    numbers: &[usize],
) -> Result<(), AllocError>
    ensures { OnOk result (out.new ≡ out.old ++ filter (of_kind signature.now sorted) numbers.now) }
{
    for n in numbers {
        push_kept(out, signature, sorted, *n)?;
    }
    Ok(())
}

#[tactic(auto, using(crate::proofs::SymbolLists::kind_symbols))]
fn symbols_of(alloc: Global, signature: &Signature, sorted: bool) -> Result<List<usize>, AllocError>
    ensures { IfOk result (λ ns. ns ≡ of_kind_all signature.now sorted) }
{
    let numbers = numbers_below(alloc, signature.symbols.len())?;
    let mut out = List::new(alloc);
    push_all(&mut out, signature, sorted, numbers.as_slice())?;
    Ok(out)
}

fn name_bytes(alloc: Global, signature: &Signature, number: usize) -> Result<List<u8>, AllocError>
    ensures { IfOk result (λ w. w ≡ symbol_name signature.now number) }
{
    let mut out = Vec::new(alloc);
    put_symbol_name(&mut out, signature, number)?;
    Ok(List::from_vec(out))
}

fn words_of(
    alloc: Global,
    signature: &Signature,
    numbers: &[usize],
) -> Result<List<List<u8>>, AllocError>
    ensures { IfOk result (λ ws. ws ≡ map (symbol_name signature.now) numbers.now) }
{
    let mut out = List::new(alloc);
    for n in numbers {
        out.push(name_bytes(alloc, signature, *n)?)?;
    }
    Ok(out)
}

fn table_of(alloc: Global, signature: &Signature, sorted: bool) -> Result<Names, AllocError>
    ensures { IfOk result (λ t. t.words ≡ map (symbol_name signature.now) (of_kind_all signature.now sorted)) }
{
    let numbers = symbols_of(alloc, signature, sorted)?;
    let words = words_of(alloc, signature, numbers.as_slice())?;
    Names::new(alloc, words)
}

#[tactic(auto, using(crate::proofs::SymbolLists::name_may))]
fn may_be_name(word: &[u8]) -> bool
    ensures { result ≡ may_name word.now }
{
    may_stand(Form::Lone, Closing::Blank, word)
}

// Whether one of the words can be read as a name.
fn some_name(words: &[List<u8>]) -> bool
    ensures { result ≡ has_name words.now }
{
    for word in words {
        if may_be_name(word.as_slice()) {
            return true;
        }
    }
    false
}
