//! Terms.
ghost use Rattle.std.specs.Prelude.{◌≡◌, ◌++◌, decimal, OnOk};
ghost use Rattle.ae_prooftext.specs.Texts.{below_text, term_text, trigger_text};
ghost use Rattle.ae_prooftext.specs.Inner.Pieces.{bound_bytes, numeral_bytes, fresh_bytes, is_lone, opening_bytes, args_bytes, application_bytes, spaced_terms, terms_bytes, spaced_triggers, triggers_bytes};

use crate::bytes::{put, put_integer, put_number, put_size};
use crate::names::{put_head, takes_sorts};
use crate::sorts::{put_sort, put_sorts_part};
use ae_core::lists::List;
use ae_core::problems::Signature;
use ae_core::terms::{Head, Sort, Term};
use std::alloc::AllocError;

/// Puts a term at the end.
#[cycle(put_term)]
#[tactic(auto, using(crate::proofs::Rules::term_rules))]
pub fn put_term(out: &mut Vec<u8>, signature: &Signature, term: &Term) -> Result<(), AllocError>
    ensures { OnOk result (out.new.items ≡ out.old.items ++ term_text signature.now term.now) }
{
    match term {
        Term::Bound(number) => put_bound(out, *number),
        Term::Num { top, bottom, real } => put_numeral(out, *top, *bottom, *real),
        Term::Fresh { number, sort } => put_fresh(out, signature, *number, sort.get()),
        Term::Apply { head, sorts, args } => {
            if is_lone(signature, *head, args.as_slice()) {
                return put_head(out, signature, *head);
            }
            put_opening(out, signature, *head, sorts.as_slice())?;
            put_args(out, signature, args.as_slice())
        }
    }
}

fn put_bound(out: &mut Vec<u8>, number: usize) -> Result<(), AllocError>
    ensures { OnOk result (out.new.items ≡ out.old.items ++ bound_bytes number) }
{
    put(out, b"#")?;
    put_number(out, number)
}

fn put_numeral(out: &mut Vec<u8>, top: i128, bottom: i128, real: bool) -> Result<(), AllocError>
    ensures { OnOk result (out.new.items ≡ out.old.items ++ numeral_bytes top bottom real) }
{
    put_integer(out, top)?;
    put_below(out, bottom, real)
}

/// Puts the stroke and what stands below it, where the numeral is real.
fn put_below(out: &mut Vec<u8>, bottom: i128, real: bool) -> Result<(), AllocError>
    ensures { OnOk result (out.new.items ≡ out.old.items ++ below_text bottom real) }
{
    if real {
        put(out, b"/")?;
        return put_size(out, bottom.unsigned_abs());
    }
    Ok(())
}

fn put_fresh(
    out: &mut Vec<u8>,
    signature: &Signature,
    number: usize,
    sort: &Sort,
) -> Result<(), AllocError>
    ensures { OnOk result (out.new.items ≡ out.old.items ++ fresh_bytes signature.now number sort.now) }
{
    put(out, b"(! ")?;
    put_number(out, number)?;
    put(out, b" ")?;
    put_sort(out, signature, sort)?;
    put(out, b")")
}

/// Whether a head's word stands alone.
fn is_lone(signature: &Signature, head: Head, args: &[Term]) -> bool
    ensures { result ≡ is_lone signature.now head args.now }
{
    !takes_sorts(signature, head) && args.is_empty()
}

/// Puts the bracket, the word of a head and its sorts, where they stand.
#[tactic(auto, unfolding(crate::specs::Inner::Pieces::opening_bytes))]
fn put_opening(
    out: &mut Vec<u8>,
    signature: &Signature,
    head: Head,
    sorts: &[Sort],
) -> Result<(), AllocError>
    ensures { OnOk result (out.new.items ≡ out.old.items ++ opening_bytes signature.now head sorts.now) }
{
    put(out, b"(")?;
    put_head(out, signature, head)?;
    put_sorts_part(out, signature, takes_sorts(signature, head), sorts)
}

/// Puts arguments, with a blank before each, and the bracket that closes them.
#[cycle(put_term)]
fn put_args(out: &mut Vec<u8>, signature: &Signature, args: &[Term]) -> Result<(), AllocError>
    ensures { OnOk result (out.new.items ≡ out.old.items ++ args_bytes signature.now args.now) }
{
    put_spaced_terms(out, signature, args)?;
    put(out, b")")
}

/// Puts a head with its sorts and arguments: its word alone where there are none.
pub fn put_application(
    out: &mut Vec<u8>,
    signature: &Signature,
    head: Head,
    sorts: &[Sort],
    args: &[Term],
) -> Result<(), AllocError>
    ensures { OnOk result (out.new.items ≡ out.old.items ++ application_bytes signature.now head sorts.now args.now) }
{
    if is_lone(signature, head, args) {
        return put_head(out, signature, head);
    }
    put_opening(out, signature, head, sorts)?;
    put_args(out, signature, args)
}

/// Puts terms, with a blank before each.
#[cycle(put_term)]
fn put_spaced_terms(
    out: &mut Vec<u8>,
    signature: &Signature,
    terms: &[Term],
) -> Result<(), AllocError>
    ensures { OnOk result (out.new.items ≡ out.old.items ++ spaced_terms signature.now terms.now) }
{
    for term in terms {
        put(out, b" ")?;
        put_term(out, signature, term)?;
    }
    Ok(())
}

/// Puts terms with a blank between two, and the square bracket that closes them.
pub fn put_terms(out: &mut Vec<u8>, signature: &Signature, terms: &[Term]) -> Result<(), AllocError>
    ensures { OnOk result (out.new.items ≡ out.old.items ++ terms_bytes signature.now terms.now) }
{
    match terms.split_first() {
        None => put(out, b"]"),
        Some((first, rest)) => {
            put_term(out, signature, first)?;
            put_spaced_terms(out, signature, rest)?;
            put(out, b"]")
        }
    }
}

/// Puts a trigger, the list of its terms in square brackets.
fn put_trigger(
    out: &mut Vec<u8>,
    signature: &Signature,
    trigger: &List<Term>,
) -> Result<(), AllocError>
    ensures { OnOk result (out.new.items ≡ out.old.items ++ trigger_text signature.now trigger.now) }
{
    put(out, b"[")?;
    put_terms(out, signature, trigger.as_slice())
}

fn put_spaced_triggers(
    out: &mut Vec<u8>,
    signature: &Signature,
    triggers: &[List<Term>],
) -> Result<(), AllocError>
    ensures { OnOk result (out.new.items ≡ out.old.items ++ spaced_triggers signature.now triggers.now) }
{
    for trigger in triggers {
        put(out, b" ")?;
        put_trigger(out, signature, trigger)?;
    }
    Ok(())
}

/// Puts triggers with a blank between two, and the square bracket that closes them.
pub fn put_triggers(
    out: &mut Vec<u8>,
    signature: &Signature,
    triggers: &[List<Term>],
) -> Result<(), AllocError>
    ensures { OnOk result (out.new.items ≡ out.old.items ++ triggers_bytes signature.now triggers.now) }
{
    match triggers.split_first() {
        None => put(out, b"]"),
        Some((first, rest)) => {
            put_trigger(out, signature, first)?;
            put_spaced_triggers(out, signature, rest)?;
            put(out, b"]")
        }
    }
}
