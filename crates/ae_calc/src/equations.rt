//! The rules of derived lines that compare terms: equality, hypotheses, arguments and the fields of records.
ghost use Rattle.std.specs.Prelude.{◌≡◌, ◌↔◌, ◌⊎◌, ◌∷◌, [], true, false, IfOk, IsTrue, Some, slice_get};
ghost use Rattle.ae_rules.specs.Lines.{states, Stated, AllowedTrans, AllowedCong, AllowedField, AllowedFields, Equated, Given, equal, fact_ok, fields_from};
ghost use Rattle.ae_calc.specs.Inner.RecordFields.{count_of, IsWritten, AreRecordsEquated};
ghost use Rattle.ae_core.specs.declared.formulas.Formula.{Eq, Lt, Le};
ghost use Rattle.ae_core.specs.declared.terms.Term.{Apply};
ghost use Rattle.ae_core.specs.declared.terms.Head.TheVariants as head;

use ae_core::equality::{same_head, same_sorts, same_term};
use ae_core::formulas::{Formula, Lit};
use ae_core::problems::{Kind, Signature};
use ae_core::proofs::{EqLine, Relation};
use ae_core::sorts::{same_known, same_numeric, sort_of};
use ae_core::terms::{Head, Sort, Term};
use ae_rules::facts::stated;
use std::alloc::{AllocError, Global};

/// Whether the two terms of a fact are closed and have one sort, which is numeric where they are compared.
pub fn fact_is_ok(
    alloc: Global,
    signature: &Signature,
    relation: Relation,
    left: &Term,
    right: &Term,
) -> Result<bool, AllocError>
    ensures { IfOk result (λ b. b ≡ fact_ok signature.now (record { relation = relation; left = left.now; right = right.now })) }
{
    let from = sort_of(alloc, signature, left)?;
    let to = sort_of(alloc, signature, right)?;
    match relation {
        Relation::Equal => Ok(same_known(&from, &to)),
        Relation::AtMost => Ok(same_numeric(&from, &to)),
        Relation::Below => Ok(same_numeric(&from, &to)),
    }
}

/// Whether the earlier line of this number equates two terms.
pub fn equates(earlier: &[EqLine], line: usize, left: &Term, right: &Term) -> bool
    ensures { IsTrue result ↔ Stated earlier.now line (equal left.now right.now) }
{
    match earlier.get(line) {
        None => false,
        Some(found) => {
            let (relation, from, to) = stated(found);
            relation == Relation::Equal && same_term(from, left) && same_term(to, right)
        }
    }
}

/// Whether the hypothesis of this number says by this sign that two terms are equal, or that they are not.
pub fn assumes(hyps: &[Lit], hyp: usize, sign: bool, left: &Term, right: &Term) -> bool
    ensures { IsTrue result ↔ Given hyps.now hyp sign (Eq left.now right.now) }
{
    match hyps.get(hyp) {
        None => false,
        Some(found) => match &found.formula {
            Formula::Eq {
                left: from,
                right: to,
            } => { found.positive == sign && same_term(from, left) && same_term(to, right) }
            _ => false,
        },
    }
}

/// Whether two earlier lines, in this order, join two terms by a middle one.
pub fn joined(earlier: &[EqLine], left: &Term, right: &Term, first: usize, second: usize) -> bool
    ensures { IsTrue result ↔ AllowedTrans earlier.now left.now right.now first second }
{
    match earlier.get(first) {
        None => false,
        Some(found) => {
            let (relation, from, middle) = stated(found);
            relation == Relation::Equal
                && same_term(from, left)
                && equates(earlier, second, middle, right)
        }
    }
}

/// Whether the hypothesis of this number says that a term is at most another one: as it stands, or that the other one isn't below it.
pub fn assumes_at_most(hyps: &[Lit], hyp: usize, left: &Term, right: &Term) -> bool
    ensures { IsTrue result ↔ (Given hyps.now hyp true (Le left.now right.now) ⊎ Given hyps.now hyp false (Lt right.now left.now)) }
{
    match hyps.get(hyp) {
        None => false,
        Some(found) => match &found.formula {
            Formula::Le {
                left: from,
                right: to,
            } => { found.positive && same_term(from, left) && same_term(to, right) }
            Formula::Lt {
                left: from,
                right: to,
            } => { !found.positive && same_term(from, right) && same_term(to, left) }
            _ => false,
        },
    }
}

/// Whether the hypothesis of this number says that a term is below another one: as it stands, or that the other one isn't at most it.
pub fn assumes_below(hyps: &[Lit], hyp: usize, left: &Term, right: &Term) -> bool
    ensures { IsTrue result ↔ (Given hyps.now hyp true (Lt left.now right.now) ⊎ Given hyps.now hyp false (Le right.now left.now)) }
{
    match hyps.get(hyp) {
        None => false,
        Some(found) => match &found.formula {
            Formula::Lt {
                left: from,
                right: to,
            } => { found.positive && same_term(from, left) && same_term(to, right) }
            Formula::Le {
                left: from,
                right: to,
            } => { !found.positive && same_term(from, right) && same_term(to, left) }
            _ => false,
        },
    }
}

/// Whether the earlier lines of these numbers equate the terms of two lists, one by one.
#[tactic(auto, using(crate::proofs::Equating::equated_more, crate::proofs::Equating::equated_stop, crate::proofs::Equating::equated_lengths))]
pub fn equates_all(earlier: &[EqLine], lines: &[usize], left: &[Term], right: &[Term]) -> bool
    ensures { IsTrue result ↔ Equated earlier.now lines.now left.now right.now }
{
    if lines.len() != left.len() || lines.len() != right.len() {
        return false;
    }
    for i in 0..lines.len() {
        if !equates(earlier, lines[i], &left[i], &right[i]) {
            return false;
        }
    }
    true
}

/// Whether two terms are applications of one head with one list of sorts, whose arguments the lines equate.
pub fn congruent(earlier: &[EqLine], left: &Term, right: &Term, lines: &[usize]) -> bool
    ensures { IsTrue result ↔ AllowedCong earlier.now left.now right.now lines.now }
{
    match (left, right) {
        (
            Term::Apply {
                head: from,
                sorts: from_sorts,
                args: from_args,
            },
            Term::Apply {
                head: to,
                sorts: to_sorts,
                args: to_args,
            },
        ) => {
            same_head(*from, *to)
                && same_sorts(from_sorts.as_slice(), to_sorts.as_slice())
                && equates_all(earlier, lines, from_args.as_slice(), to_args.as_slice())
        }
        _ => false,
    }
}

/// Whether a term stands at this place of a list.
pub fn stands_at(terms: &[Term], place: usize, term: &Term) -> bool
    ensures { IsTrue result ↔ (slice_get terms.now place ≡ Some term.now) }
{
    match terms.get(place) {
        None => false,
        Some(found) => same_term(found, term),
    }
}

/// Whether a term is a written record of this type with these sorts, in which a value stands at this place.
pub fn is_written(owner: &Term, of: usize, place: usize, sorts: &[Sort], value: &Term) -> bool
    ensures { IsTrue result ↔ IsWritten owner.now of place sorts.now value.now }
{
    match owner {
        Term::Apply {
            head: Head::Build(built),
            sorts: own,
            args,
        } => {
            *built == of
                && same_sorts(own.as_slice(), sorts)
                && stands_at(args.as_slice(), place, value)
        }
        _ => false,
    }
}

/// Whether a term is a field of a written record, and another one what stands in that field.
pub fn is_written_field(left: &Term, right: &Term) -> bool
    ensures { IsTrue result ↔ AllowedField left.now right.now }
{
    match left {
        Term::Apply {
            head: Head::Field { of, place },
            sorts,
            args,
        } => match args.as_slice() {
            [owner] => is_written(owner, *of, *place, sorts.as_slice(), right),
            _ => false,
        },
        _ => false,
    }
}

/// Whether a term is the field at this place of a record of this type with these sorts.
pub fn is_field(term: &Term, of: usize, place: usize, sorts: &[Sort], owner: &Term) -> bool
    ensures { IsTrue result ↔ (term.now ≡ Apply (head.Field of place) sorts.now (owner.now ∷ [])) }
{
    match term {
        Term::Apply {
            head,
            sorts: own,
            args,
        } => match args.as_slice() {
            [found] => {
                same_head(*head, Head::Field { of, place })
                    && same_sorts(own.as_slice(), sorts)
                    && same_term(found, owner)
            }
            _ => false,
        },
        _ => false,
    }
}

/// Whether the earlier line of this number equates the fields at a place of two records.
pub fn equates_field(
    earlier: &[EqLine],
    line: usize,
    of: usize,
    place: usize,
    sorts: &[Sort],
    left: &Term,
    right: &Term,
) -> bool
    ensures { IsTrue result ↔ Stated earlier.now line (equal (Apply (head.Field of place) sorts.now (left.now ∷ [])) (Apply (head.Field of place) sorts.now (right.now ∷ []))) }
{
    match earlier.get(line) {
        None => false,
        Some(found) => {
            let (relation, from, to) = stated(found);
            relation == Relation::Equal
                && is_field(from, of, place, sorts, left)
                && is_field(to, of, place, sorts, right)
        }
    }
}

/// Whether the lines equate the fields of two records one by one, as many as the type has.
#[tactic(auto, using(crate::proofs::Equating::fields_more, crate::proofs::Equating::fields_stop, crate::proofs::Equating::fields_lengths))]
pub fn equates_fields(
    earlier: &[EqLine],
    lines: &[usize],
    of: usize,
    sorts: &[Sort],
    count: usize,
    left: &Term,
    right: &Term,
) -> bool
    ensures { IsTrue result ↔ Equated earlier.now lines.now (fields_from of sorts.now left.now 0 count) (fields_from of sorts.now right.now 0 count) }
{
    if lines.len() != count {
        return false;
    }
    for i in 0..lines.len() {
        if !equates_field(earlier, lines[i], of, i, sorts, left, right) {
            return false;
        }
    }
    true
}

/// The number of fields of a record type; none where no record type has this number.
pub fn field_count(signature: &Signature, of: usize) -> Option<usize>
    ensures { result ≡ count_of signature.now of }
{
    match signature.types.as_slice().get(of) {
        None => None,
        Some(entry) => match &entry.kind {
            Kind::Fields(fields) => Some(fields.len()),
            Kind::Abstract => None,
            Kind::Choices(_) => None,
        },
    }
}

/// Whether two sorts are one record sort, and the lines equate the fields of two terms of that sort one by one.
pub fn equates_records(
    signature: &Signature,
    earlier: &[EqLine],
    from: &Option<Sort>,
    to: &Option<Sort>,
    left: &Term,
    right: &Term,
    lines: &[usize],
) -> bool
    ensures { IsTrue result ↔ AreRecordsEquated signature.now earlier.now from.now to.now left.now right.now lines.now }
{
    if !same_known(from, to) {
        return false;
    }
    match from {
        Some(Sort::Named { head, args }) => match field_count(signature, *head) {
            None => false,
            Some(count) => {
                equates_fields(earlier, lines, *head, args.as_slice(), count, left, right)
            }
        },
        _ => false,
    }
}

/// Whether two terms are of one record sort, and the lines equate their fields one by one.
pub fn fields_allowed(
    alloc: Global,
    signature: &Signature,
    earlier: &[EqLine],
    left: &Term,
    right: &Term,
    lines: &[usize],
) -> Result<bool, AllocError>
    ensures { IfOk result (λ b. IsTrue b ↔ AllowedFields signature.now earlier.now left.now right.now lines.now) }
{
    let from = sort_of(alloc, signature, left)?;
    let to = sort_of(alloc, signature, right)?;
    Ok(equates_records(signature, earlier, &from, &to, left, right, lines))
}
