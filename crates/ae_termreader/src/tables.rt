//! The words of a signature, as readers look them up.
ghost use Rattle.std.specs.Prelude.{◌≡◌, ◌++◌, map, IfOk, true, false};
ghost use Rattle.ae_prooftext.specs.SortTexts.{atoms};
ghost use Rattle.ae_prooftext.specs.TermTexts.{bracket_table, lone_table};
ghost use Rattle.ae_prooftext.specs.FormulaTexts.{bracket_words, leaf_words};
ghost use Rattle.ae_termreader.specs.Sorts.{has_name};
ghost use Rattle.ae_prooftext.specs.Words.{type_names, bracket_heads, lone_heads, lone_symbols, symbols, symbol_name};

use crate::heads::{
    atom_words, bracket_heads, formula_words, has_name, leaf_words, lone_heads, lone_symbols,
    numbers_below, push_symbol_names, type_words, words_of,
};
use crate::names::Names;
use ae_base::lists::List;
use ae_core::problems::Signature;
use ae_core::terms::Head;
use std::alloc::{AllocError, Global};

/// The words of a signature, and what they name.
#[derive(Drop)]
pub struct Tables<'a> {
    pub signature: &'a Signature,
    /// The names of types.
    pub type_words: Names,
    /// The names that may stand alone as sorts.
    pub sort_words: Names,
    /// Whether some type has a name that can be read.
    pub named: bool,
    /// What may stand first in a term's brackets.
    pub heads: List<Head>,
    pub head_words: Names,
    /// What may stand alone in a term.
    pub constants: List<Head>,
    pub constant_words: Names,
    /// The numbers of the symbols whose names may stand alone in a formula.
    pub propositions: List<usize>,
    pub proposition_words: Names,
    /// The names of symbols.
    pub symbol_words: Names,
    /// The words that may stand first in a formula's brackets.
    pub formula_words: Names,
    /// The same where no negation may stand.
    pub positive_words: Names,
    ghost types_are: { type_words.words ≡ type_names signature.now },
    ghost sorts_are: { sort_words.words ≡ atoms (type_names signature.now) },
    ghost named_is: { named ≡ has_name (type_names signature.now) },
    ghost heads_are: { heads ≡ bracket_heads signature.now },
    ghost head_words_are: { head_words.words ≡ bracket_table signature.now },
    ghost constants_are: { constants ≡ lone_heads signature.now },
    ghost constant_words_are: { constant_words.words ≡ lone_table signature.now },
    ghost propositions_are: { propositions ≡ lone_symbols signature.now },
    ghost proposition_words_are: { proposition_words.words ≡ leaf_words (map (symbol_name signature.now) (lone_symbols signature.now)) },
    ghost symbol_words_are: { symbol_words.words ≡ map (symbol_name signature.now) (symbols signature.now) },
    ghost formula_words_are: { formula_words.words ≡ bracket_words true (map (symbol_name signature.now) (symbols signature.now)) },
    ghost positive_words_are: { positive_words.words ≡ bracket_words false (map (symbol_name signature.now) (symbols signature.now)) },
}

impl<'a> Tables<'a> {
    /// The words of a signature; `Err` where there is no memory for them.
    pub fn new(alloc: Global, signature: &'a Signature) -> Result<Tables<'a>, AllocError>
        ensures { IfOk result (λ t. t.signature.now ≡ signature.now) }
    {
        let sorts = sort_tables(alloc, signature)?;
        let terms = term_tables(alloc, signature)?;
        let formulas = formula_tables(alloc, signature)?;
        Ok(Tables {
            signature,
            type_words: sorts.type_words,
            sort_words: sorts.sort_words,
            named: sorts.named,
            heads: terms.heads,
            head_words: terms.head_words,
            constants: terms.constants,
            constant_words: terms.constant_words,
            propositions: formulas.propositions,
            proposition_words: formulas.proposition_words,
            symbol_words: formulas.symbol_words,
            formula_words: formulas.formula_words,
            positive_words: formulas.positive_words,
        })
    }
}

/// What is looked up in sorts.
#[derive(Drop)]
struct SortTables {
    type_words: Names,
    sort_words: Names,
    named: bool,
}

fn sort_tables(alloc: Global, signature: &Signature) -> Result<SortTables, AllocError>
    ensures types { IfOk result (λ t. t.type_words.words ≡ type_names signature.now) }
    ensures sorts { IfOk result (λ t. t.sort_words.words ≡ atoms (type_names signature.now)) }
    ensures named { IfOk result (λ t. t.named ≡ has_name (type_names signature.now)) }
{
    let type_words = type_table(alloc, signature)?;
    let named = has_name(type_words.words.as_slice());
    let sort_words = sort_table(alloc, signature)?;
    Ok(SortTables {
        type_words,
        sort_words,
        named,
    })
}

/// What is looked up in terms.
#[derive(Drop)]
struct TermTables {
    heads: List<Head>,
    head_words: Names,
    constants: List<Head>,
    constant_words: Names,
}

fn term_tables(alloc: Global, signature: &Signature) -> Result<TermTables, AllocError>
    ensures heads { IfOk result (λ t. t.heads ≡ bracket_heads signature.now) }
    ensures head_words { IfOk result (λ t. t.head_words.words ≡ bracket_table signature.now) }
    ensures constants { IfOk result (λ t. t.constants ≡ lone_heads signature.now) }
    ensures constant_words { IfOk result (λ t. t.constant_words.words ≡ lone_table signature.now) }
{
    Ok(TermTables {
        heads: bracket_heads(alloc, signature)?,
        head_words: head_table(alloc, signature)?,
        constants: lone_heads(alloc, signature)?,
        constant_words: constant_table(alloc, signature)?,
    })
}

/// What is looked up in formulas.
#[derive(Drop)]
struct FormulaTables {
    propositions: List<usize>,
    proposition_words: Names,
    symbol_words: Names,
    formula_words: Names,
    positive_words: Names,
}

fn formula_tables(alloc: Global, signature: &Signature) -> Result<FormulaTables, AllocError>
    ensures propositions { IfOk result (λ t. t.propositions ≡ lone_symbols signature.now) }
    ensures proposition_words { IfOk result (λ t. t.proposition_words.words ≡ leaf_words (map (symbol_name signature.now) (lone_symbols signature.now))) }
    ensures symbol_words { IfOk result (λ t. t.symbol_words.words ≡ map (symbol_name signature.now) (symbols signature.now)) }
    ensures formula_words { IfOk result (λ t. t.formula_words.words ≡ bracket_words true (map (symbol_name signature.now) (symbols signature.now))) }
    ensures positive_words { IfOk result (λ t. t.positive_words.words ≡ bracket_words false (map (symbol_name signature.now) (symbols signature.now))) }
{
    Ok(FormulaTables {
        propositions: lone_symbols(alloc, signature)?,
        proposition_words: proposition_table(alloc, signature)?,
        symbol_words: symbol_table(alloc, signature)?,
        formula_words: formula_table(alloc, signature, true)?,
        positive_words: formula_table(alloc, signature, false)?,
    })
}

#[tactic(auto, unfolding(ae_prooftext::specs::Words::type_names))]
fn type_table(alloc: Global, signature: &Signature) -> Result<Names, AllocError>
    ensures { IfOk result (λ t. t.words ≡ type_names signature.now) }
{
    let words = type_words(alloc, signature.types.as_slice())?;
    Names::new(alloc, words)
}

#[tactic(auto, unfolding(ae_prooftext::specs::Words::type_names))]
fn sort_table(alloc: Global, signature: &Signature) -> Result<Names, AllocError>
    ensures { IfOk result (λ t. t.words ≡ atoms (type_names signature.now)) }
{
    let words = atom_words(alloc, signature.types.as_slice())?;
    Names::new(alloc, words)
}

fn head_table(alloc: Global, signature: &Signature) -> Result<Names, AllocError>
    ensures { IfOk result (λ t. t.words ≡ bracket_table signature.now) }
{
    let heads = bracket_heads(alloc, signature)?;
    let words = words_of(alloc, signature, heads.as_slice())?;
    Names::new(alloc, words)
}

fn constant_table(alloc: Global, signature: &Signature) -> Result<Names, AllocError>
    ensures { IfOk result (λ t. t.words ≡ lone_table signature.now) }
{
    let heads = lone_heads(alloc, signature)?;
    let words = words_of(alloc, signature, heads.as_slice())?;
    Names::new(alloc, words)
}

fn proposition_table(alloc: Global, signature: &Signature) -> Result<Names, AllocError>
    ensures { IfOk result (λ t. t.words ≡ leaf_words (map (symbol_name signature.now) (lone_symbols signature.now))) }
{
    let numbers = lone_symbols(alloc, signature)?;
    let words = leaf_words(alloc, signature, numbers.as_slice())?;
    Names::new(alloc, words)
}

fn symbol_table(alloc: Global, signature: &Signature) -> Result<Names, AllocError>
    ensures { IfOk result (λ t. t.words ≡ map (symbol_name signature.now) (symbols signature.now)) }
{
    let numbers = numbers_below(alloc, signature.symbols.len())?;
    let mut words = List::new(alloc);
    push_symbol_names(alloc, &mut words, signature, numbers.as_slice())?;
    Names::new(alloc, words)
}

fn formula_table(alloc: Global, signature: &Signature, negations: bool) -> Result<Names, AllocError>
    ensures { IfOk result (λ t. t.words ≡ bracket_words negations (map (symbol_name signature.now) (symbols signature.now))) }
{
    let words = formula_words(alloc, signature, negations)?;
    Names::new(alloc, words)
}
