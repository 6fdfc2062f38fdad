//! Which literals of a trail surely stand.
ghost use Rattle.std.specs.Prelude.{◌≡◌, map, IfOk};
ghost use Rattle.ae_core.specs.declared.formulas.Lit.{Lit};
ghost use Rattle.ae_journal.specs.Journals.{decisions, live};
ghost use Rattle.ae_journal.specs.Standing.{Setting, SurelyStands};
ghost use Rattle.ae_propagation.specs.Settled.{Holds};
ghost use Rattle.ae_sat.specs.Standing.{decided_lits};
ghost use Rattle.ae_sure_literals.specs.Inner.Closing.{Closes, is_decision};
ghost use Rattle.ae_sure_literals.specs.Sure.{AreSure};

use crate::closing::close;
use crate::given::given_clauses;
use ae_core::formulas::Clause;
use ae_core::lists::List;
use ae_core::problems::Problem;
use ae_explain::{Assigned, Trail};
use ae_journal::lines::Line;
use std::alloc::{AllocError, Global};

/// Whether a literal is a decision.
fn decides(assigned: &Assigned) -> bool
    ensures { result ≡ is_decision assigned.now }
{
    match assigned.by {
        None => true,
        Some(_) => false,
    }
}

/// Which literals of a trail are decisions.
fn decided(alloc: Global, trail: &[Assigned]) -> Result<List<bool>, AllocError>
    ensures { IfOk result (λ flags. flags ≡ map is_decision trail.now) }
{
    let mut flags = List::new(alloc);
    for assigned in trail {
        flags.push(decides(assigned))?;
    }
    Ok(flags)
}

/// The flags of the decisions, and of what follows from them.
fn closed_flags(alloc: Global, trail: &Trail, clauses: &[Clause]) -> Result<List<bool>, AllocError>
    ensures { IfOk result (λ flags. Closes trail.now.assigned clauses.now (map is_decision trail.now.assigned) flags) }
{
    let mut flags = decided(alloc, trail.as_slice())?;
    close(alloc, trail, clauses, &mut flags)?;
    Ok(flags)
}

/// Which literals of a trail surely stand, beside the lines of a journal, for a problem and the place of its goal. The decisions of the trail are to be those that
/// stand in the journal, and what surely stands is to be among its literals.
pub fn sure_literals(
    alloc: Global,
    problem: &Problem,
    goal: usize,
    trail: &Trail,
    lines: &[Line],
) -> Result<List<bool>, AllocError>
    ensures { (x : Setting) → x.problem ≡ problem.now → x.goal ≡ goal → decisions (live lines.now) ≡ decided_lits trail.now.assigned →
        ((l : Lit) → SurelyStands x lines.now l → Holds trail.now.assigned l) → IfOk result (AreSure x lines.now trail.now.assigned) }
{
    let _apart = trail.as_slice();
    let given = given_clauses(alloc, problem, goal, lines)?;
    closed_flags(alloc, trail, given.as_slice())
}
