//! What a signature's words name.
ghost use Rattle.std.specs.Prelude.{◌≡◌, ◌++◌, ◌∷◌, [], not, length, map, OnOk, IfOk};
ghost use Rattle.std.specs.List.{filter, flat_map, range_with_len};
ghost use Rattle.ae_core.specs.Signatures.{fields_of};
ghost use Rattle.ae_core.specs.declared.terms.Head.TheVariants as head;
ghost use Rattle.ae_prooftext.specs.Words.{bracket_heads, lone_heads, lone_symbols, type_heads, record_heads, head_word, symbol_name, symbols, takes_sorts, has_variables};
ghost use Rattle.ae_prooftext.specs.SortTexts.{atoms};
ghost use Rattle.ae_prooftext.specs.FormulaTexts.{bracket_words, leaf_words, not_word};
ghost use Rattle.ae_termreader.specs.Inner.Tables.{field_places, kept, sign_heads};
ghost use Rattle.ae_termreader.specs.Sorts.{has_name};

use crate::names::may_be_lone;
use ae_base::lists::List;
use ae_core::lists::at;
use ae_core::problems::{Kind, Signature, TypeEntry};
use ae_core::terms::{Head, Op};
use ae_prooftext::{has_variables, put_head, put_symbol_name};
use ae_readers::Closing;
use std::alloc::{AllocError, Global};

/// The numbers below a count.
#[tactic(auto, using(crate::proofs::Ranges::range_more))]
pub fn numbers_below(alloc: Global, count: usize) -> Result<List<usize>, AllocError>
    ensures { IfOk result (λ ns. ns ≡ range_with_len 0 count) }
{
    let mut out = List::new(alloc);
    for n in 0..count {
        out.push(n)?;
    }
    Ok(out)
}

fn push_symbols(out: &mut List<Head>, numbers: &[usize]) -> Result<(), AllocError>
    ensures { OnOk result (out.new ≡ out.old ++ map (λ n. head.Symbol n) numbers.now) }
{
    for n in numbers {
        out.push(Head::Symbol(*n))?;
    }
    Ok(())
}

fn push_fields(out: &mut List<Head>, of: usize, places: &[usize]) -> Result<(), AllocError>
    ensures { OnOk result (out.new ≡ out.old ++ map (λ place. head.Field of place) places.now) }
{
    for place in places {
        out.push(Head::Field { of, place: *place })?;
    }
    Ok(())
}

fn push_record(out: &mut List<Head>, of: usize, places: &[usize]) -> Result<(), AllocError>
    ensures { OnOk result (out.new ≡ out.old ++ record_heads of places.now) }
{
    if places.is_empty() {
        return Ok(());
    }
    out.push(Head::Build(of))?;
    push_fields(out, of, places)
}

fn field_count(entry: &TypeEntry) -> usize
    ensures { result ≡ length (fields_of entry.now) }
{
    match &entry.kind {
        Kind::Fields(fields) => fields.len(),
        Kind::Abstract => 0,
        Kind::Choices(_) => 0,
    }
}

// The places of the fields of the type of this number.
fn field_places(
    alloc: Global,
    signature: &Signature,
    number: usize,
) -> Result<List<usize>, AllocError>
    ensures { IfOk result (λ ps. ps ≡ field_places signature.now number) }
{
    match at(signature.types.as_slice(), number) {
        Some(entry) => numbers_below(alloc, field_count(entry)),
        None => Ok(List::new(alloc)),
    }
}

fn push_type(
    alloc: Global,
    out: &mut List<Head>,
    signature: &Signature,
    number: usize,
) -> Result<(), AllocError>
    ensures { OnOk result (out.new ≡ out.old ++ type_heads signature.now number) }
{
    let places = field_places(alloc, signature, number)?;
    push_record(out, number, places.as_slice())
}

#[tactic(auto, using(crate::proofs::Ranges::more_flat))]
fn push_types(
    alloc: Global,
    out: &mut List<Head>,
    signature: &Signature,
    numbers: &[usize],
) -> Result<(), AllocError>
    ensures { OnOk result (out.new ≡ out.old ++ flat_map (type_heads signature.now) numbers.now) }
{
    for n in numbers {
        push_type(alloc, out, signature, *n)?;
    }
    Ok(())
}

fn push_signs(out: &mut List<Head>) -> Result<(), AllocError>
    ensures { OnOk result (out.new ≡ out.old ++ sign_heads) }
{
    out.push(Head::Int(Op::Add))?;
    out.push(Head::Int(Op::Sub))?;
    out.push(Head::Int(Op::Neg))?;
    out.push(Head::Int(Op::Mul))?;
    out.push(Head::Int(Op::Div))?;
    out.push(Head::Int(Op::Mod))
}

/// What may stand first in a term's brackets.
#[tactic(auto, unfolding(ae_prooftext::specs::Words::bracket_heads))]
pub fn bracket_heads(alloc: Global, signature: &Signature) -> Result<List<Head>, AllocError>
    ensures { IfOk result (λ hs. hs ≡ bracket_heads signature.now) }
{
    let symbols = numbers_below(alloc, signature.symbols.len())?;
    let types = numbers_below(alloc, signature.types.len())?;
    let mut out = List::new(alloc);
    push_signs(&mut out)?;
    push_symbols(&mut out, symbols.as_slice())?;
    push_types(alloc, &mut out, signature, types.as_slice())?;
    Ok(out)
}

/// What may stand alone in a term.
#[tactic(auto, using(crate::proofs::Ranges::constants_are))]
pub fn lone_heads(alloc: Global, signature: &Signature) -> Result<List<Head>, AllocError>
    ensures { IfOk result (λ hs. hs ≡ lone_heads signature.now) }
{
    let symbols = lone_symbols(alloc, signature)?;
    let mut out = List::new(alloc);
    out.push(Head::True)?;
    out.push(Head::False)?;
    out.push(Head::Void)?;
    push_symbols(&mut out, symbols.as_slice())?;
    Ok(out)
}

fn push_lone(out: &mut List<usize>, signature: &Signature, number: usize) -> Result<(), AllocError>
    ensures { OnOk result (out.new ≡ out.old ++ kept (not (has_variables signature.now number)) number) }
{
    if has_variables(signature, number) {
        return Ok(());
    }
    out.push(number)
}

#[tactic(auto, using(crate::proofs::Ranges::keep_more))]
fn push_lone_ones(
    out: &mut List<usize>,
    signature: &Signature,
    numbers: &[usize],
) -> Result<(), AllocError>
    ensures { OnOk result (out.new ≡ out.old ++ filter (λ n. not (has_variables signature.now n)) numbers.now) }
{
    for n in numbers {
        push_lone(out, signature, *n)?;
    }
    Ok(())
}

/// The numbers of the symbols whose names may stand alone in a formula.
#[tactic(auto, unfolding(ae_prooftext::specs::Words::lone_symbols))]
pub fn lone_symbols(alloc: Global, signature: &Signature) -> Result<List<usize>, AllocError>
    ensures { IfOk result (λ ns. ns ≡ lone_symbols signature.now) }
{
    let symbols = numbers_below(alloc, signature.symbols.len())?;
    let mut out = List::new(alloc);
    push_lone_ones(&mut out, signature, symbols.as_slice())?;
    Ok(out)
}

/// The words of heads.
pub fn words_of(
    alloc: Global,
    signature: &Signature,
    heads: &[Head],
) -> Result<List<List<u8>>, AllocError>
    ensures { IfOk result (λ ws. ws ≡ map (head_word signature.now) heads.now) }
{
    let mut out = List::new(alloc);
    for head in heads {
        out.push(head_bytes(alloc, signature, *head)?)?;
    }
    Ok(out)
}

fn head_bytes(alloc: Global, signature: &Signature, head: Head) -> Result<List<u8>, AllocError>
    ensures { IfOk result (λ w. w ≡ head_word signature.now head) }
{
    let mut out = Vec::new(alloc);
    put_head(&mut out, signature, head)?;
    Ok(List::from_vec(out))
}

/// The names of symbols, behind other words.
pub fn push_symbol_names(
    alloc: Global,
    out: &mut List<List<u8>>,
    signature: &Signature,
    numbers: &[usize],
) -> Result<(), AllocError>
    ensures { OnOk result (out.new ≡ out.old ++ map (symbol_name signature.now) numbers.now) }
{
    for n in numbers {
        out.push(symbol_bytes(alloc, signature, *n)?)?;
    }
    Ok(())
}

fn symbol_bytes(alloc: Global, signature: &Signature, number: usize) -> Result<List<u8>, AllocError>
    ensures { IfOk result (λ w. w ≡ symbol_name signature.now number) }
{
    let mut out = Vec::new(alloc);
    put_symbol_name(&mut out, signature, number)?;
    Ok(List::from_vec(out))
}

/// The names of types.
pub fn type_words(alloc: Global, types: &[TypeEntry]) -> Result<List<List<u8>>, AllocError>
    ensures { IfOk result (λ ws. ws ≡ map (λ e. e.name) types.now) }
{
    let mut out = List::new(alloc);
    for entry in types {
        out.push(List::from_slice(alloc, entry.name.as_str().as_bytes())?)?;
    }
    Ok(out)
}

fn push_bytes(alloc: Global, out: &mut List<List<u8>>, bytes: &[u8]) -> Result<(), AllocError>
    ensures { OnOk result (out.new ≡ out.old ++ bytes.now ∷ []) }
{
    out.push(List::from_slice(alloc, bytes)?)?;
    Ok(())
}

/// The names that may stand alone as sorts.
pub fn atom_words(alloc: Global, types: &[TypeEntry]) -> Result<List<List<u8>>, AllocError>
    ensures { IfOk result (λ ws. ws ≡ atoms (map (λ e. e.name) types.now)) }
{
    let mut out = List::new(alloc);
    push_bytes(alloc, &mut out, b"int")?;
    push_bytes(alloc, &mut out, b"real")?;
    push_bytes(alloc, &mut out, b"bool")?;
    push_bytes(alloc, &mut out, b"unit")?;
    out.append(type_words(alloc, types)?)?;
    Ok(out)
}

/// Whether some type has a name that can be read.
pub fn has_name(types: &[List<u8>]) -> bool
    ensures { result ≡ has_name types.now }
{
    for word in types {
        if may_be_lone(Closing::Blank, word.as_slice()) {
            return true;
        }
    }
    false
}

/// The words that may stand first in a formula's brackets; an empty one for `@not` where no negation may stand.
#[tactic(auto, unfolding(ae_prooftext::specs::Words::symbols))]
pub fn formula_words(
    alloc: Global,
    signature: &Signature,
    negations: bool,
) -> Result<List<List<u8>>, AllocError>
    ensures { IfOk result (λ ws. ws ≡ bracket_words negations (map (symbol_name signature.now) (symbols signature.now))) }
{
    let mut out = List::new(alloc);
    push_bytes(alloc, &mut out, b"=")?;
    push_bytes(alloc, &mut out, b"<")?;
    push_bytes(alloc, &mut out, b"<=")?;
    push_bytes(alloc, &mut out, b"@and")?;
    push_bytes(alloc, &mut out, b"@or")?;
    push_bytes(alloc, &mut out, b"@xor")?;
    push_bytes(alloc, &mut out, b"@iff")?;
    push_bytes(alloc, &mut out, b"@all")?;
    push_bytes(alloc, &mut out, b"@ex")?;
    push_bytes(alloc, &mut out, negation_word(negations))?;
    let numbers = numbers_below(alloc, signature.symbols.len())?;
    push_symbol_names(alloc, &mut out, signature, numbers.as_slice())?;
    Ok(out)
}

fn negation_word(negations: bool) -> &'static [u8]
    ensures { result.now ≡ not_word negations }
{
    if negations { b"@not" } else { b"" }
}

/// The words that may stand alone in a formula.
pub fn leaf_words(
    alloc: Global,
    signature: &Signature,
    numbers: &[usize],
) -> Result<List<List<u8>>, AllocError>
    ensures { IfOk result (λ ws. ws ≡ leaf_words (map (symbol_name signature.now) numbers.now)) }
{
    let mut out = List::new(alloc);
    push_bytes(alloc, &mut out, b"@t")?;
    push_bytes(alloc, &mut out, b"@f")?;
    push_symbol_names(alloc, &mut out, signature, numbers)?;
    Ok(out)
}
