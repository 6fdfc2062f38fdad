//! Terms.
ghost use Rattle.std.specs.Prelude.{◌≡◌, ◌<◌, ◌≤◌, ◌+◌, length, drop, get_or, IfOk};
ghost use Rattle.ae_core.specs.declared.terms.Head.TheVariants as head;
ghost use Rattle.ae_prooftext.specs.Grammar.{term_code, is_real};
ghost use Rattle.ae_prooftext.specs.TermTexts.{first_real};
ghost use Rattle.ae_prooftext.specs.WordLaws.{at_real};
ghost use Rattle.ae_readers.specs.Readers.{Reads, ReadsExactly, Ahead, close_of, row_read, behind_read};
ghost use Rattle.ae_termreader.specs.Terms.{term_turn, bound_read, lone_read, fresh_read, arguments_read, applied_read, inner_read, bracket_read, round_terms, head_at};

use crate::names::{read_head, read_lone};
use crate::numerals::read_numeral;
use crate::sorts::{read_sort, read_sorts};
use crate::tables::Tables;
use ae_base::lists::{Boxed, List};
use ae_core::problems::Signature;
use ae_core::sorts::{is_sort, sort_in};
use ae_core::terms::{Head, Sort, Term};
use ae_prooftext::takes_sorts;
use ae_readers::{Closing, Fault, byte_at, is_figure, read_closing, read_fixed, read_size};
use std::alloc::{AllocError, Global};

/// The term that begins at a place, under variables of the sorts `env`, and the byte that closes it.
#[cycle(read_term)]
pub fn read_term(
    alloc: Global,
    tables: &Tables<'_>,
    env: &[Sort],
    text: &[u8],
    at: usize,
    closing: Closing,
) -> Result<((Term, u8), usize), Fault>
    ensures read { Reads text.now result ((term_code tables.now.signature.now env.now (close_of closing)).read (drop at text.now)) }
    ensures exact { ReadsExactly (term_code tables.now.signature.now env.now (close_of closing)) text.now at result }
    ensures ahead { Ahead text.now at result }
{
    read_by_byte(alloc, tables, env, text, at, closing)
}

#[cycle(read_term)]
fn read_by_byte(
    alloc: Global,
    tables: &Tables<'_>,
    env: &[Sort],
    text: &[u8],
    at: usize,
    closing: Closing,
) -> Result<((Term, u8), usize), Fault>
    ensures read { Reads text.now result (term_turn tables.now.signature.now env.now (close_of closing) (drop at text.now)) }
    ensures ahead { Ahead text.now at result }
{
    match byte_at(text, at) {
        None => Err(Fault::At(at)),
        Some(byte) => {
            if byte == b'(' {
                return read_bracket(alloc, tables, env, text, at + 1, closing);
            }
            if byte == b'#' {
                return read_bound(text, at + 1, closing);
            }
            if is_figure(byte) || byte == b'-' {
                return read_numeral(text, at, closing);
            }
            read_alone(alloc, tables, text, at, closing)
        }
    }
}

fn read_bound(text: &[u8], at: usize, closing: Closing) -> Result<((Term, u8), usize), Fault>
    ensures read { Reads text.now result (bound_read (close_of closing) (drop at text.now)) }
    ensures ahead { Ahead text.now at result }
{
    let ((distance, close), next) = read_size(text, at, closing)?;
    Ok(((Term::Bound(distance), close), next))
}

fn read_alone(
    alloc: Global,
    tables: &Tables<'_>,
    text: &[u8],
    at: usize,
    closing: Closing,
) -> Result<((Term, u8), usize), Fault>
    ensures read { Reads text.now result (lone_read tables.now.signature.now (close_of closing) (drop at text.now)) }
    ensures ahead { Ahead text.now at result }
{
    let ((place, close), next) = read_lone(text, at, &tables.constant_words, closing)?;
    let head = head_among(tables.constants.as_slice(), place);
    let term = Term::Apply {
        head,
        sorts: List::new(alloc),
        args: List::new(alloc),
    };
    Ok(((term, close), next))
}

fn head_among(heads: &[Head], place: usize) -> Head
    ensures { result ≡ get_or heads.now place head.Void }
{
    if place < heads.len() {
        heads[place]
    } else {
        Head::Void
    }
}

#[cycle(read_term)]
fn read_bracket(
    alloc: Global,
    tables: &Tables<'_>,
    env: &[Sort],
    text: &[u8],
    at: usize,
    closing: Closing,
) -> Result<((Term, u8), usize), Fault>
    ensures read { Reads text.now result (bracket_read tables.now.signature.now env.now (close_of closing) (drop at text.now)) }
    ensures ahead { Ahead text.now at result }
{
    let (term, end) = read_inner(alloc, tables, env, text, at)?;
    let (close, next) = read_closing(text, end, closing)?;
    Ok(((term, close), next))
}

#[cycle(read_term)]
fn read_inner(
    alloc: Global,
    tables: &Tables<'_>,
    env: &[Sort],
    text: &[u8],
    at: usize,
) -> Result<(Term, usize), Fault>
    ensures read { Reads text.now result (inner_read tables.now.signature.now env.now (drop at text.now)) }
    ensures ahead { Ahead text.now at result }
{
    match byte_at(text, at) {
        None => Err(Fault::At(at)),
        Some(byte) => {
            if byte == b'!' {
                return read_fresh(alloc, tables, text, at);
            }
            read_applied(alloc, tables, env, text, at)
        }
    }
}

fn read_fresh(
    alloc: Global,
    tables: &Tables<'_>,
    text: &[u8],
    at: usize,
) -> Result<(Term, usize), Fault>
    ensures read { Reads text.now result (fresh_read tables.now.signature.now (drop at text.now)) }
    ensures ahead { Ahead text.now at result }
{
    let (_, behind) = read_fixed(text, at, b"! ")?;
    let ((number, _), end) = read_size(text, behind, Closing::Blank)?;
    let ((sort, _), next) = read_sort(alloc, tables, text, end, Closing::Bracket)?;
    match Boxed::new(alloc, sort) {
        Ok(sort) => Ok((Term::Fresh { number, sort }, next)),
        Err(_) => Err(Fault::Memory),
    }
}

// A sign is the operation on `real` where its first argument is.
fn settled(
    alloc: Global,
    signature: &Signature,
    env: &[Sort],
    head: Head,
    args: &[Term],
) -> Result<Head, AllocError>
    ensures { IfOk result (λ h. h ≡ at_real (first_real signature.now (is_real signature.now env.now) args.now) head) }
{
    match head {
        Head::Int(op) => match args.split_first() {
            None => Ok(head),
            Some((first, _)) => {
                if is_real(alloc, signature, env, first)? {
                    Ok(Head::Real(op))
                } else {
                    Ok(head)
                }
            }
        },
        Head::Symbol(_) => Ok(head),
        Head::Build(_) => Ok(head),
        Head::Field { .. } => Ok(head),
        Head::Real(_) => Ok(head),
        Head::True => Ok(head),
        Head::False => Ok(head),
        Head::Void => Ok(head),
    }
}

fn is_real(
    alloc: Global,
    signature: &Signature,
    env: &[Sort],
    term: &Term,
) -> Result<bool, AllocError>
    ensures { IfOk result (λ b. b ≡ is_real signature.now env.now term.now) }
{
    match sort_in(alloc, signature, term, env)? {
        None => Ok(false),
        Some(sort) => Ok(is_sort(&sort, &Sort::Real)),
    }
}

#[cycle(read_term)]
fn read_applied(
    alloc: Global,
    tables: &Tables<'_>,
    env: &[Sort],
    text: &[u8],
    at: usize,
) -> Result<(Term, usize), Fault>
    ensures read { Reads text.now result (applied_read tables.now.signature.now env.now (drop at text.now)) }
    ensures ahead { Ahead text.now at result }
{
    let ((place, _), behind) = read_head(text, at, &tables.head_words, Closing::Blank)?;
    let head = head_among(tables.heads.as_slice(), place);
    let sorted = takes_sorts(tables.signature, head);
    let ((sorts, args), next) = read_arguments(alloc, tables, env, text, behind, sorted)?;
    match settled(alloc, tables.signature, env, head, args.as_slice()) {
        Ok(head) => Ok((Term::Apply { head, sorts, args }, next)),
        Err(_) => Err(Fault::Memory),
    }
}

/// Arguments up to `)`: behind sorts in square brackets, a blank before each, where `sorted` says so.
#[cycle(read_term)]
pub fn read_arguments(
    alloc: Global,
    tables: &Tables<'_>,
    env: &[Sort],
    text: &[u8],
    at: usize,
    sorted: bool,
) -> Result<((List<Sort>, List<Term>), usize), Fault>
    ensures read { Reads text.now result (arguments_read tables.now.signature.now env.now sorted (drop at text.now)) }
    ensures ahead { Ahead text.now at result }
{
    if sorted {
        let (_, open) = read_fixed(text, at, b"[")?;
        let (sorts, behind) = read_sorts(alloc, tables, text, open)?;
        let (args, next) = read_behind(alloc, tables, env, text, behind)?;
        return Ok(((sorts, args), next));
    }
    let (args, next) = read_term_row(alloc, tables, env, text, at)?;
    Ok(((List::new(alloc), args), next))
}

#[cycle(read_term)]
fn read_behind(
    alloc: Global,
    tables: &Tables<'_>,
    env: &[Sort],
    text: &[u8],
    at: usize,
) -> Result<(List<Term>, usize), Fault>
    ensures read { Reads text.now result (behind_read 41 (round_terms tables.now.signature.now env.now) (drop at text.now)) }
    ensures ahead { Ahead text.now at result }
{
    match byte_at(text, at) {
        None => Err(Fault::At(at)),
        Some(byte) => {
            if byte == b')' {
                return Ok((List::new(alloc), at + 1));
            }
            let (_, behind) = read_fixed(text, at, b" ")?;
            let (args, next) = read_term_row(alloc, tables, env, text, behind)?;
            Ok((args, next))
        }
    }
}

#[cycle(read_term)]
fn read_term_row(
    alloc: Global,
    tables: &Tables<'_>,
    env: &[Sort],
    text: &[u8],
    from: usize,
) -> Result<(List<Term>, usize), Fault>
    ensures read { Reads text.now result (row_read (round_terms tables.now.signature.now env.now) (drop from text.now)) }
    ensures ahead { Ahead text.now from result }
{
    let mut terms = List::new(alloc);
    let mut at = from;
    'values: loop {
        let ((term, close), next) = match read_term(alloc, tables, env, text, at, Closing::Round) {
            Ok(found) => found,
            Err(fault) => return Err(fault),
        };
        if let Err(_) = terms.push(term) {
            return Err(Fault::Memory);
        }
        at = next;
        if close != 32 {
            return Ok((terms, at));
        }
    }
}
