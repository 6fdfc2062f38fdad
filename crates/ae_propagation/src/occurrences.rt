//! Which clauses have a literal: lists of their numbers, found by the literal's formula.
ghost use Rattle.std.specs.Prelude.{◌≡◌, ◌≢◌, ◌∷◌, ◌++◌, ◌<◌, ◌≤◌, [], ℕ, List, length, not, slice_index_or, MatchBool, Option, Some, IfOk, OnOk, OnErr};
ghost use Rattle.ae_core.specs.declared.formulas.Lit.{Lit};
ghost use Rattle.ae_rules.specs.Clauses.{Clause};
ghost use Rattle.ae_core.specs.declared.formulas.Formula.{Formula};
ghost use Rattle.ae_explain.specs.Assignments.{AreKept, number_in};
ghost use Rattle.ae_propagation.specs.declared.codes.Code.{Code};
ghost use Rattle.ae_propagation.specs.Inner.Coding.{IsCode, AreCodes};
ghost use Rattle.ae_propagation.specs.Inner.Finding.{EndsIn, IsPut, IsTaken, none_listed, side, listed, IsTable, IsWidened, AreListed, AreLeft};

use crate::codes::Code;
use ae_core::formulas::{Formula, Lit};
use ae_core::lists::List;
use ae_explain::Trail;
use std::alloc::{AllocError, Global};

/// The numbers of the clauses that have a formula's two literals, rising.
#[derive(Drop)]
pub(crate) struct Occurrences {
    pub(crate) positive: List<usize>,
    pub(crate) negative: List<usize>,
}

/// Whether a number is the last one.
fn ends_in(numbers: &[usize], number: usize) -> bool
    ensures { MatchBool result (EndsIn number numbers.now) (EndsIn number numbers.now → ⊥) }
{
    let size = numbers.len();
    if size == 0 {
        return false;
    }
    numbers[size - 1] == number
}

/// Drops the last number.
fn drop_last(numbers: &mut List<usize>)
    ensures { (kept : List ℕ) (last : ℕ) → numbers.old ≡ kept ++ last ∷ [] → numbers.new ≡ kept }
{
    match numbers.pop() {
        Some(_last) => {}
        None => {}
    }
}

/// Adds a number, unless it is the last one.
fn push_once(numbers: &mut List<usize>, number: usize) -> Result<(), AllocError>
    ensures put { OnOk result (IsPut number numbers.old numbers.new) }
    ensures err { OnErr result (numbers.new ≡ numbers.old) }
{
    if ends_in(numbers.as_slice(), number) {
        return Ok(());
    }
    numbers.push(number)
}

/// Drops the last number if it is this one.
fn take_out(numbers: &mut List<usize>, number: usize)
    ensures { IsTaken number numbers.old numbers.new }
{
    if !ends_in(numbers.as_slice(), number) {
        return;
    }
    drop_last(numbers);
}

/// Adds a number to the list of one of a formula's literals, unless it is the last one there.
fn push_side(o: &mut Occurrences, positive: bool, number: usize) -> Result<(), AllocError>
    ensures put { OnOk result (IsPut number (side positive o.old) (side positive o.new)) }
    ensures other { side (not positive) o.new ≡ side (not positive) o.old }
    ensures err { OnErr result (side positive o.new ≡ side positive o.old) }
{
    if positive {
        push_once(&mut o.positive, number)
    } else {
        push_once(&mut o.negative, number)
    }
}

/// Drops the last number of the list of one of a formula's literals if it is this one.
fn take_side(o: &mut Occurrences, positive: bool, number: usize)
    ensures taken { IsTaken number (side positive o.old) (side positive o.new) }
    ensures other { side (not positive) o.new ≡ side (not positive) o.old }
{
    if positive {
        take_out(&mut o.positive, number)
    } else {
        take_out(&mut o.negative, number)
    }
}

/// No clauses.
fn no_occurrences(alloc: Global) -> Occurrences
    ensures { result ≡ none_listed }
{
    Occurrences {
        positive: List::new(alloc),
        negative: List::new(alloc),
    }
}

/// A formula's number; the next one where it has none yet.
pub(crate) fn number_of(
    alloc: Global,
    trail: &mut Trail,
    table: &mut Vec<Occurrences>,
    formula: &Formula,
) -> Result<usize, AllocError>
    requires { IsTable (number_in trail.old.numbers) table.old.items }
    ensures is_table { IsTable (number_in trail.new.numbers) table.new.items }
    ensures same { (l : Lit) → listed (number_in trail.new.numbers) table.new.items l ≡ listed (number_in trail.old.numbers) table.old.items l }
    ensures kept { AreKept (number_in trail.old.numbers) (number_in trail.new.numbers) }
    ensures trail { trail.new.assigned ≡ trail.old.assigned }
    ensures number { IfOk result (λ n. number_in trail.new.numbers formula.now ≡ Some n) }
{
    if let Some(number) = trail.number_of(formula) {
        return Ok(number);
    }
    let number = table.len();
    table.push(no_occurrences(alloc))?;
    trail.give_number(alloc, formula, number)?;
    Ok(number)
}

/// A literal's code.
fn code_of(
    alloc: Global,
    trail: &mut Trail,
    table: &mut Vec<Occurrences>,
    lit: &Lit,
) -> Result<Code, AllocError>
    requires { IsTable (number_in trail.old.numbers) table.old.items }
    ensures wide { IsWidened (number_in trail.old.numbers) table.old.items (number_in trail.new.numbers) table.new.items }
    ensures trail { trail.new.assigned ≡ trail.old.assigned }
    ensures code { IfOk result (λ k. IsCode (number_in trail.new.numbers) lit.now k) }
{
    let number = number_of(alloc, trail, table, &lit.formula)?;
    let positive = lit.positive;
    Ok(Code { number, positive })
}

/// The codes of a clause's literals.
pub(crate) fn codes_of(
    alloc: Global,
    trail: &mut Trail,
    table: &mut Vec<Occurrences>,
    lits: &[Lit],
) -> Result<List<Code>, AllocError>
    requires { IsTable (number_in trail.old.numbers) table.old.items }
    ensures wide { IsWidened (number_in trail.old.numbers) table.old.items (number_in trail.new.numbers) table.new.items }
    ensures trail { trail.new.assigned ≡ trail.old.assigned }
    ensures codes { IfOk result (λ ks. AreCodes (number_in trail.new.numbers) lits.now ks) }
{
    let mut codes = List::new(alloc);
    for i in 0..lits.len() {
        let code = code_of(alloc, trail, table, &lits[i])?;
        codes.push(code)?;
    }
    Ok(codes)
}

/// Adds a clause's number to the list of a literal, unless it is the last one there.
fn put(table: &mut Vec<Occurrences>, code: &Code, clause: usize) -> Result<(), AllocError>
    requires within { code.now.number < length table.old.items }
    ensures size { length table.new.items ≡ length table.old.items }
    ensures own { OnOk result ((numbers : Formula → Option ℕ) (l : Lit) → IsCode numbers l code.now → IsPut clause (listed numbers table.old.items l) (listed numbers table.new.items l)) }
    ensures others { (numbers : Formula → Option ℕ) (l m : Lit) → IsTable numbers table.old.items → IsCode numbers l code.now → m ≢ l → listed numbers table.new.items m ≡ listed numbers table.old.items m }
    ensures err { OnErr result ((numbers : Formula → Option ℕ) (l m : Lit) → IsTable numbers table.old.items → IsCode numbers l code.now → listed numbers table.new.items m ≡ listed numbers table.old.items m) }
{
    push_side(&mut table[code.number], code.positive, clause)
}

/// Drops the last number of a literal's list if it is this one.
fn take(table: &mut Vec<Occurrences>, code: &Code, clause: usize)
    requires within { code.now.number < length table.old.items }
    ensures size { length table.new.items ≡ length table.old.items }
    ensures own { (numbers : Formula → Option ℕ) (l : Lit) → IsCode numbers l code.now → IsTaken clause (listed numbers table.old.items l) (listed numbers table.new.items l) }
    ensures others { (numbers : Formula → Option ℕ) (l m : Lit) → IsTable numbers table.old.items → IsCode numbers l code.now → m ≢ l → listed numbers table.new.items m ≡ listed numbers table.old.items m }
{
    take_side(&mut table[code.number], code.positive, clause);
}

/// Takes a clause out of the lists, whose number stands last there if at all. It takes no memory.
pub(crate) fn forget(table: &mut Vec<Occurrences>, codes: &[Code], clause: usize)
    requires within { (i : ℕ) (k : Code) → i < length codes.now → (slice_index_or codes.now i k).number < length table.old.items }
    ensures size { length table.new.items ≡ length table.old.items }
    ensures each { (numbers : Formula → Option ℕ) (c : Clause) (cs : List Clause) → IsTable numbers table.old.items → AreCodes numbers c codes.now → length cs ≡ clause
        → AreLeft (listed numbers table.old.items) cs c 0 → AreListed (listed numbers table.new.items) cs }
{
    for i in 0..codes.len() {
        take(table, &codes[i], clause);
    }
}

/// Puts a clause, which gets the number behind all others, into the lists of its literals. Refused memory leaves the
/// lists as they were.
pub(crate) fn enter(
    table: &mut Vec<Occurrences>,
    codes: &[Code],
    clause: usize,
) -> Result<(), AllocError>
    requires within { (i : ℕ) (k : Code) → i < length codes.now → (slice_index_or codes.now i k).number < length table.old.items }
    ensures size { length table.new.items ≡ length table.old.items }
    ensures ok { (numbers : Formula → Option ℕ) (c : Clause) (cs : List Clause) → IsTable numbers table.old.items → AreCodes numbers c codes.now → length cs ≡ clause
        → AreListed (listed numbers table.old.items) cs → OnOk result (AreListed (listed numbers table.new.items) (cs ++ c ∷ [])) }
    ensures err { (numbers : Formula → Option ℕ) (c : Clause) (cs : List Clause) → IsTable numbers table.old.items → AreCodes numbers c codes.now → length cs ≡ clause
        → AreListed (listed numbers table.old.items) cs → OnErr result (AreListed (listed numbers table.new.items) cs) }
{
    for i in 0..codes.len() {
        if let Err(failed) = put(table, &codes[i], clause) {
            forget(table, codes, clause);
            return Err(failed);
        }
    }
    Ok(())
}
