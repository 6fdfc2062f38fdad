//! What is learnt from small trails. What is expected was found by hand, on the graph of the reasons.
ghost use Rattle.std.specs.Prelude.{◌≡◌, ◌<◌, length};
ghost use Rattle.ae_explain.specs.Trail.{clause};

use ae_core::equality::same_lit;
use ae_core::formulas::{Clause, Formula, Lit};
use ae_core::lists::List;
use ae_explain::{Assigned, Learnt, Trail, are_false, conflict_clause, is_lawful};
use std::alloc::{AllocError, Global};

/// A true literal: the number of its atom, negative where the atom is false; its level; and the place of its reason.
type Row = (i32, usize, Option<usize>);

/// A trail with the clauses behind it, one of which is false.
#[derive(Clone, Copy)]
struct Conflict<'a> {
    rows: &'a [Row],
    clauses: &'a [&'a [i32]],
    falsified: usize,
}

/// What is to be learnt from it.
#[derive(Clone, Copy)]
struct Expected<'a> {
    clause: &'a [i32],
    hints: &'a [usize],
    level: usize,
}

fn lit_of(alloc: Global, number: i32) -> Lit {
    Lit {
        positive: 0 < number,
        formula: Formula::Pred {
            symbol: number.unsigned_abs() as usize,
            sorts: List::new(alloc),
            args: List::new(alloc),
        },
    }
}

fn clause_of(alloc: Global, numbers: &[i32]) -> Result<Clause, AllocError> {
    let mut clause = List::new(alloc);
    for number in numbers {
        clause.push(lit_of(alloc, *number))?;
    }
    Ok(clause)
}

fn clauses_of(alloc: Global, rows: &[&[i32]]) -> Result<List<Clause>, AllocError> {
    let mut clauses = List::new(alloc);
    for row in rows {
        clauses.push(clause_of(alloc, row)?)?;
    }
    Ok(clauses)
}

/// Puts the literal of a row at the end of a trail, and says whether its formula was new.
fn put_row(alloc: Global, trail: &mut Trail, row: &Row) -> Result<bool, AllocError> {
    let (number, level, by) = *row;
    let lit = lit_of(alloc, number);
    if trail.place_of(&lit.formula).is_some() {
        return Ok(false);
    }
    trail.assign(alloc, Assigned { lit, level, by })?;
    Ok(true)
}

/// The trail of these rows; where a formula would stand twice, those before it.
fn trail_of(alloc: Global, rows: &[Row]) -> Result<Trail, AllocError> {
    let mut trail = Trail::new(alloc);
    for row in rows {
        if !put_row(alloc, &mut trail, row)? {
            break;
        }
    }
    Ok(trail)
}

/// The literals of the clause at a place.
fn clause_at(clauses: &[Clause], number: usize) -> &[Lit]
    requires within { number < length clauses.now }
    ensures { result.now ≡ clause clauses.now number }
{
    clauses[number].as_slice()
}

/// What is learnt, where the trail is lawful and the clause is false in it.
fn learnt_of(
    alloc: Global,
    trail: &Trail,
    clauses: &[Clause],
    falsified: usize,
) -> Result<Option<Learnt>, AllocError> {
    if clauses.len() <= falsified || !is_lawful(trail, clauses) {
        return Ok(None);
    }
    if !are_false(trail, clause_at(clauses, falsified)) {
        return Ok(None);
    }
    Ok(Some(conflict_clause(alloc, trail, clauses, falsified)?))
}

fn learnt_from(alloc: Global, conflict: &Conflict) -> Result<Option<Learnt>, AllocError> {
    let list = clauses_of(alloc, conflict.clauses)?;
    let trail = trail_of(alloc, conflict.rows)?;
    learnt_of(alloc, &trail, list.as_slice(), conflict.falsified)
}

fn same_clause(left: &[Lit], right: &[Lit]) -> bool {
    left.len() == right.len() && left.iter().zip(right).all(|(l, r)| same_lit(l, r))
}

/// Whether exactly this is learnt.
fn teaches(alloc: Global, conflict: &Conflict, expected: &Expected) -> Result<bool, AllocError> {
    let Some(learnt) = learnt_from(alloc, conflict)? else {
        return Ok(false);
    };
    let clause = clause_of(alloc, expected.clause)?;
    Ok(
        same_clause(learnt.clause.as_slice(), clause.as_slice())
            && learnt.hints.as_slice() == expected.hints
            && learnt.level == expected.level,
    )
}

#[test]
fn first_unique_implication_points(rt: HostRuntime) -> Result<(), AllocError> {
    let alloc = rt.alloc();
    // 3 stands on the decision 2, and the conflict's 4 and 5 both stand on 3; 5 stands on the earlier decision 1, too
    let behind_a_chain = Conflict {
        rows: &[
            (1, 1, None),
            (2, 2, None),
            (3, 2, Some(0)),
            (4, 2, Some(1)),
            (5, 2, Some(2)),
        ],
        clauses: &[&[-2, 3], &[-3, 4], &[-3, -1, 5], &[-4, -5]],
        falsified: 3,
    };
    let expected = Expected {
        clause: &[-3, -1],
        hints: &[1, 2, 3],
        level: 1,
    };
    assert!(rt; teaches(alloc, &behind_a_chain, &expected)?);
    // the decision itself, below a later level that has no part in it
    let a_decision = Conflict {
        rows: &[(-1, 1, None), (2, 1, Some(0)), (3, 2, None)],
        clauses: &[&[1, 2], &[-2, 1]],
        falsified: 1,
    };
    let expected = Expected {
        clause: &[1],
        hints: &[0, 1],
        level: 0,
    };
    assert!(rt; teaches(alloc, &a_decision, &expected)?);
    // the false clause has one literal of its greatest level already
    let at_once = Conflict {
        rows: &[(1, 1, None), (2, 2, None), (3, 3, None), (4, 3, Some(0))],
        clauses: &[&[-3, -1, 4], &[-2, -4]],
        falsified: 1,
    };
    let expected = Expected {
        clause: &[-4, -2],
        hints: &[1],
        level: 2,
    };
    assert!(rt; teaches(alloc, &at_once, &expected)?);
    Ok(())
}

#[test]
fn level_zero(rt: HostRuntime) -> Result<(), AllocError> {
    let alloc = rt.alloc();
    let without_decisions = Conflict {
        rows: &[(1, 0, Some(0)), (2, 0, Some(1))],
        clauses: &[&[1], &[-1, 2], &[-1, -2]],
        falsified: 2,
    };
    let expected = Expected {
        clause: &[],
        hints: &[0, 1, 2],
        level: 0,
    };
    assert!(rt; teaches(alloc, &without_decisions, &expected)?);
    let below_a_decision = Conflict {
        rows: &[(1, 0, Some(0)), (2, 1, None), (3, 1, Some(1))],
        clauses: &[&[1], &[-1, -2, 3], &[-3, -2, -1]],
        falsified: 2,
    };
    let expected = Expected {
        clause: &[-2],
        hints: &[0, 1, 2],
        level: 0,
    };
    assert!(rt; teaches(alloc, &below_a_decision, &expected)?);
    Ok(())
}

#[test]
fn repeated_and_opposite_literals(rt: HostRuntime) -> Result<(), AllocError> {
    let alloc = rt.alloc();
    let twice = Conflict {
        rows: &[(1, 1, None), (2, 1, Some(1))],
        clauses: &[&[2, -2], &[-1, 2, -1, 2], &[-2, -1, -2]],
        falsified: 2,
    };
    let expected = Expected {
        clause: &[-1],
        hints: &[1, 2],
        level: 0,
    };
    assert!(rt; teaches(alloc, &twice, &expected)?);
    // A tautological clause is no reason: a literal and its opposite are never both false, so that one of the two
    // would be the literal that the clause makes true, and it would stand in the trail before itself.
    let tautology = Conflict {
        rows: &[(2, 0, Some(0))],
        clauses: &[&[2, -2], &[-2]],
        falsified: 1,
    };
    assert!(rt; learnt_from(alloc, &tautology)?.is_none());
    Ok(())
}
