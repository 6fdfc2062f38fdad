//! Clauses with the codes of their literals, and the lists by which they are found.
ghost use Rattle.std.specs.Prelude.{◌≡◌, ◌++◌, ◌∷◌, [], ◌<◌, ℕ, List, length, slice_index_or, Option, Some, None, IfOk, OnOk, OnErr};
ghost use Rattle.ae_rules.specs.Clauses.{Clause};
ghost use Rattle.ae_propagation.specs.declared.codes.Code.{Code};
ghost use Rattle.ae_core.specs.declared.formulas.Formula.{Formula};
ghost use Rattle.ae_explain.specs.Assignments.{number_in};
ghost use Rattle.ae_propagation.specs.Inner.Finding.{listed, IsTable, AreListed, AreLeft};
ghost use Rattle.ae_propagation.specs.Inner.Coding.{AreCodes, IsCoded};

use crate::codes::Code;
use crate::occurrences::{Occurrences, codes_of, enter, forget, number_of};
use ae_core::formulas::{Clause, Formula};
use ae_core::lists::List;
use ae_explain::Trail;
use std::alloc::{AllocError, Global};

/// Clauses, the codes of each one's literals, and where they are found: a formula's number is its place in the table.
#[derive(Drop)]
pub(crate) struct Coded {
    pub(crate) table: Vec<Occurrences>,
    pub(crate) clauses: List<Clause>,
    pub(crate) codes: List<List<Code>>,
}

/// No clauses.
pub(crate) fn no_clauses(alloc: Global) -> Coded
    ensures coded { (numbers : Formula → Option ℕ) → ((f : Formula) → numbers f ≡ None) → IsCoded numbers result }
    ensures clauses { result.clauses ≡ [] }
{
    Coded {
        table: Vec::new(alloc),
        clauses: List::new(alloc),
        codes: List::new(alloc),
    }
}

/// The codes of a clause.
pub(crate) fn codes_at(codes: &List<List<Code>>, number: usize) -> &[Code]
    requires within { number < length codes.now }
    ensures { result.now ≡ slice_index_or codes.now number [] }
{
    codes.as_slice()[number].as_slice()
}

/// A formula's number; the next one where it has none yet.
pub(crate) fn number_for(
    alloc: Global,
    coded: &mut Coded,
    trail: &mut Trail,
    formula: &Formula,
) -> Result<usize, AllocError>
    requires { IsCoded (number_in trail.old.numbers) coded.old }
    ensures coded { IsCoded (number_in trail.new.numbers) coded.new }
    ensures clauses { coded.new.clauses ≡ coded.old.clauses }
    ensures trail { trail.new.assigned ≡ trail.old.assigned }
    ensures number { IfOk result (λ n. number_in trail.new.numbers formula.now ≡ Some n) }
{
    number_of(alloc, trail, &mut coded.table, formula)
}

/// Drops the last clause.
fn drop_clause(clauses: &mut List<Clause>)
    ensures { (kept : List Clause) (last : Clause) → clauses.old ≡ kept ++ last ∷ [] → clauses.new ≡ kept }
{
    match clauses.pop() {
        Some(_last) => {}
        None => {}
    }
}

/// Drops the last clause's codes.
fn drop_codes(codes: &mut List<List<Code>>)
    ensures { (kept : List (List Code)) (last : List Code) → codes.old ≡ kept ++ last ∷ [] → codes.new ≡ kept }
{
    match codes.pop() {
        Some(_last) => {}
        None => {}
    }
}

/// Puts a clause and its codes behind the others.
fn push_both(
    clauses: &mut List<Clause>,
    codes: &mut List<List<Code>>,
    clause: Clause,
    own: List<Code>,
) -> Result<(), AllocError>
    ensures ok { OnOk result (clauses.new ≡ clauses.old ++ clause ∷ []) }
    ensures ok_codes { OnOk result (codes.new ≡ codes.old ++ own ∷ []) }
    ensures err { OnErr result (clauses.new ≡ clauses.old) }
    ensures err_codes { OnErr result (codes.new ≡ codes.old) }
{
    clauses.push(clause)?;
    if let Err(failed) = codes.push(own) {
        drop_clause(clauses);
        return Err(failed);
    }
    Ok(())
}

/// Takes in a clause behind the others. Refused memory leaves the clauses as they were.
pub(crate) fn take_in(
    alloc: Global,
    coded: &mut Coded,
    trail: &mut Trail,
    clause: Clause,
) -> Result<(), AllocError>
    requires { IsCoded (number_in trail.old.numbers) coded.old }
    ensures coded { IsCoded (number_in trail.new.numbers) coded.new }
    ensures trail { trail.new.assigned ≡ trail.old.assigned }
    ensures ok { OnOk result (coded.new.clauses ≡ coded.old.clauses ++ clause ∷ []) }
    ensures err { OnErr result (coded.new.clauses ≡ coded.old.clauses) }
{
    let number = coded.clauses.len();
    let own = codes_of(alloc, trail, &mut coded.table, clause.as_slice())?;
    push_both(&mut coded.clauses, &mut coded.codes, clause, own)?;
    if let Err(failed) = enter(&mut coded.table, codes_at(&coded.codes, number), number) {
        drop_clause(&mut coded.clauses);
        drop_codes(&mut coded.codes);
        return Err(failed);
    }
    Ok(())
}

/// Drops the last clause's codes, and takes the clause, which has this number, out of the lists.
fn forget_last(table: &mut Vec<Occurrences>, codes: &mut List<List<Code>>, number: usize)
    requires within { (kept : List (List Code)) (last : List Code) (i : ℕ) (k : Code) → codes.old ≡ kept ++ last ∷ [] → i < length last → (slice_index_or last i k).number < length table.old.items }
    ensures size { length table.new.items ≡ length table.old.items }
    ensures codes { (kept : List (List Code)) (last : List Code) → codes.old ≡ kept ++ last ∷ [] → codes.new ≡ kept }
    ensures each { (kept : List (List Code)) (last : List Code) (numbers : Formula → Option ℕ) (c : Clause) (cs : List Clause) → codes.old ≡ kept ++ last ∷ [] → IsTable numbers table.old.items
        → AreCodes numbers c last → length cs ≡ number → AreLeft (listed numbers table.old.items) cs c 0 → AreListed (listed numbers table.new.items) cs }
{
    match codes.pop() {
        Some(own) => forget(table, own.as_slice(), number),
        None => {}
    }
}

/// Gives up the last clause, if there is one. It takes no memory.
pub(crate) fn give_up(coded: &mut Coded)
    requires { (numbers : Formula → Option ℕ) × IsCoded numbers coded.old }
    ensures coded { (numbers : Formula → Option ℕ) → IsCoded numbers coded.old → IsCoded numbers coded.new }
    ensures last { (kept : List Clause) (last : Clause) → coded.old.clauses ≡ kept ++ last ∷ [] → coded.new.clauses ≡ kept }
    ensures none { coded.old.clauses ≡ [] → coded.new.clauses ≡ [] }
{
    match coded.clauses.pop() {
        Some(_last) => {
            let number = coded.clauses.len();
            forget_last(&mut coded.table, &mut coded.codes, number);
        }
        None => {}
    }
}
