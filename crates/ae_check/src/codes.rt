//! Literals by the numbers of their formulas. Each formula is compared with others once, where it gets its number.
ghost use Rattle.std.specs.Prelude.{◌≡◌, ℕ, [], Some, None, IfOk, OnOk};
ghost use Rattle.ae_check.specs.Inner.Coding.{number_in, IsTable, AreKept, IsCode, AreCodes, stamp_at, stamped, same_code, turned};
ghost use Rattle.ae_check.specs.Inner.Coding as spec;

use ae_core::copies::copy_formula;
use ae_core::formulas::{Formula, Lit};
use ae_core::lists::List;
use std::alloc::{AllocError, Global};
use std::collections::BTreeMap;

/// A literal by its formula's number.
#[derive(Clone, Copy)]
pub(crate) struct Code {
    pub(crate) number: usize,
    pub(crate) positive: bool,
}

/// When each of a formula's two literals was false for the last time.
#[derive(Clone, Copy)]
pub(crate) struct Stamp {
    pub(crate) positive: usize,
    pub(crate) negative: usize,
}

/// The numbers of formulas, and by each number when its literals were false.
#[derive(Drop)]
pub(crate) struct Table {
    pub(crate) numbers: BTreeMap<Formula, usize>,
    pub(crate) stamps: Vec<Stamp>,
}

/// No formula has a number.
pub(crate) fn empty_table(alloc: Global) -> Table
    ensures table { IsTable (number_in result.numbers.entries) result.stamps.items }
    ensures stamps { result.stamps.items ≡ [] }
{
    Table {
        numbers: BTreeMap::new(alloc),
        stamps: Vec::new(alloc),
    }
}

/// Gives a formula without a number the next one.
fn give_number(alloc: Global, table: &mut Table, formula: &Formula) -> Result<usize, AllocError>
    requires table { IsTable (number_in table.old.numbers.entries) table.old.stamps.items }
    requires new { number_in table.old.numbers.entries formula.now ≡ None }
    ensures number { IfOk result (λ n. number_in table.new.numbers.entries formula.now ≡ Some n) }
    ensures table { OnOk result (IsTable (number_in table.new.numbers.entries) table.new.stamps.items) }
    ensures kept { OnOk result (AreKept (number_in table.old.numbers.entries) (number_in table.new.numbers.entries)) }
    ensures stamps { OnOk result ((n : ℕ) → stamp_at table.new.stamps.items n ≡ stamp_at table.old.stamps.items n) }
{
    let number = table.stamps.len();
    table.stamps.push(Stamp {
        positive: 0,
        negative: 0,
    })?;
    let copy = copy_formula(alloc, formula)?;
    match table.numbers.insert(copy, number) {
        Ok(_) => Ok(number),
        Err(failed) => Err(AllocError::from(failed)),
    }
}

/// A formula's number; the next one where it has none yet.
fn number_of(alloc: Global, table: &mut Table, formula: &Formula) -> Result<usize, AllocError>
    requires table { IsTable (number_in table.old.numbers.entries) table.old.stamps.items }
    ensures number { IfOk result (λ n. number_in table.new.numbers.entries formula.now ≡ Some n) }
    ensures table { OnOk result (IsTable (number_in table.new.numbers.entries) table.new.stamps.items) }
    ensures kept { OnOk result (AreKept (number_in table.old.numbers.entries) (number_in table.new.numbers.entries)) }
    ensures stamps { OnOk result ((n : ℕ) → stamp_at table.new.stamps.items n ≡ stamp_at table.old.stamps.items n) }
{
    if let Some(number) = table.numbers.get(formula).copied() {
        return Ok(number);
    }
    give_number(alloc, table, formula)
}

/// A literal's code.
fn code_of(alloc: Global, table: &mut Table, lit: &Lit) -> Result<Code, AllocError>
    requires table { IsTable (number_in table.old.numbers.entries) table.old.stamps.items }
    ensures code { IfOk result (λ k. IsCode (number_in table.new.numbers.entries) lit.now k) }
    ensures table { OnOk result (IsTable (number_in table.new.numbers.entries) table.new.stamps.items) }
    ensures kept { OnOk result (AreKept (number_in table.old.numbers.entries) (number_in table.new.numbers.entries)) }
    ensures stamps { OnOk result ((n : ℕ) → stamp_at table.new.stamps.items n ≡ stamp_at table.old.stamps.items n) }
{
    let number = number_of(alloc, table, &lit.formula)?;
    let positive = lit.positive;
    Ok(Code { number, positive })
}

/// The codes of a clause's literals, in their order.
pub(crate) fn codes_of(
    alloc: Global,
    table: &mut Table,
    clause: &[Lit],
) -> Result<List<Code>, AllocError>
    requires table { IsTable (number_in table.old.numbers.entries) table.old.stamps.items }
    ensures codes { IfOk result (λ ks. AreCodes (number_in table.new.numbers.entries) clause.now ks) }
    ensures table { OnOk result (IsTable (number_in table.new.numbers.entries) table.new.stamps.items) }
    ensures kept { OnOk result (AreKept (number_in table.old.numbers.entries) (number_in table.new.numbers.entries)) }
    ensures stamps { OnOk result ((n : ℕ) → stamp_at table.new.stamps.items n ≡ stamp_at table.old.stamps.items n) }
{
    let mut codes = List::new(alloc);
    for i in 0..clause.len() {
        let code = code_of(alloc, table, &clause[i])?;
        codes.push(code)?;
    }
    Ok(codes)
}

/// The stamps of a number's literals.
fn stamp_of(stamps: &[Stamp], number: usize) -> Stamp
    ensures { result ≡ stamp_at stamps.now number }
{
    if number < stamps.len() {
        stamps[number]
    } else {
        Stamp {
            positive: 0,
            negative: 0,
        }
    }
}

/// Whether a literal is false now.
pub(crate) fn is_false(stamps: &[Stamp], now: usize, code: Code) -> bool
    ensures { result ≡ spec.is_false now stamps.now code }
{
    let stamp = stamp_of(stamps, code.number);
    if code.positive {
        stamp.positive == now
    } else {
        stamp.negative == now
    }
}

/// The stamps where one of a number's literals is false now.
fn with_side(stamp: Stamp, positive: bool, now: usize) -> Stamp
    ensures { result ≡ spec.with_side positive now stamp }
{
    if positive {
        Stamp {
            positive: now,
            negative: stamp.negative,
        }
    } else {
        Stamp {
            positive: stamp.positive,
            negative: now,
        }
    }
}

/// Makes a literal false now.
pub(crate) fn set_false(stamps: &mut Vec<Stamp>, now: usize, code: Code)
    ensures { stamps.new.items ≡ stamped now stamps.old.items code }
{
    let number = code.number;
    if number < stamps.len() {
        stamps[number] = with_side(stamps[number], code.positive, now);
    }
}

/// The opposite literal.
pub(crate) fn opposite(code: Code) -> Code
    ensures { result ≡ turned code }
{
    Code {
        number: code.number,
        positive: !code.positive,
    }
}

/// Whether two literals are the same.
pub(crate) fn is_code(left: Code, right: Code) -> bool
    ensures { result ≡ same_code left right }
{
    left.number == right.number && left.positive == right.positive
}
