//! The rows of all inequalities that are true, and what they come to.
ghost use Rattle.std.specs.Prelude.{◌≡◌, ◌++◌, List, length, Some, Ok, Err, IfOk};
ghost use Rattle.std.specs.List.{AllByRecursion};
ghost use Rattle.ae_kept_orders.specs.Searches.{IsBetweenRounds, IsOpenSearch, IsPointOf};
ghost use Rattle.ae_bound_blocks.specs.Said.{AreBuilt};
ghost use Rattle.ae_filled_trails.specs.Ordered.{AreOrdered};
ghost use Rattle.ae_inequalities.specs.Points.{IsPointNumber};
ghost use Rattle.ae_inequalities.specs.Tight.{AreTightRows};
ghost use Rattle.ae_inequalities.specs.declared.answer.Ineq.TheVariants.{Point, Contradiction, Tight};
ghost use Rattle.ae_inequalities.specs.declared.rows.Row.{Row};
ghost use Rattle.ae_journal.specs.Journals.{counted_in, OnlyCombines};
ghost use Rattle.ae_journal.specs.Licences.{IsLicensed};
ghost use Rattle.ae_journal.specs.Standing.{Setting};
ghost use Rattle.ae_journal.specs.declared.answers.WideAt.{WideAt};
ghost use Rattle.ae_journal.specs.declared.lines.Line.{Line};
ghost use Rattle.ae_journal.specs.declared.systems.PointAt.{PointAt};
ghost use Rattle.ae_kept_orders.specs.Orders.{AreOrdersOf};
ghost use Rattle.ae_opening.specs.Asking.{AllServed};
ghost use Rattle.ae_rules.specs.Derivations.{IsContradictory};
ghost use Rattle.ae_sat.specs.Marked.{atoms};
ghost use Rattle.ae_searching.specs.Told.{IsToldIn};
ghost use Rattle.ae_solved_orders.specs.Same.{IsSameButJournal};
ghost use Rattle.ae_theory.specs.Names.{terms_in};
ghost use Rattle.ae_theory.specs.Noting.{IsBlockOf};
ghost use Rattle.ae_theory.specs.declared.theory.Explained.{Explained};
ghost use Rattle.ae_theory.specs.declared.theory.Fail.TheVariants.{Steps, Number};

use ae_filled_trails::laws::open_trails_are_filled;
use ae_kept_orders::{KeptRows, Search, Solved, Task, solve_rows};
use ae_opaque_numbers::laws::opaque_numbers_are_leaves;
use ae_searching::growing::combinations_grow;
use ae_searching::standing::trail_stands;
use ae_sure_literals::sure_in_search;
use ae_theory::theory::Fail;

/// What the inequalities come to that are true in a search which has nothing left to do, whose blocks are opened and which leaves no order open: a point, a
/// contradiction, or rows that hold with equality alone. The rows are kept.
///
/// Only combinations are noted, each of them legal, whatever it comes to. `Steps` comes only where the journal is full; `Number` is licensed.
pub fn solve_orders(
    task: Task<'_>,
    search: &mut Search,
    kept: Option<KeptRows>,
) -> Result<Solved, Fail>
    requires between { IsBetweenRounds task.problem.now task.goal task.generations search.old }
    requires is_open { IsOpenSearch search.old }
    requires served { AllServed search.old.solver.propagation.trail search.old.blocks.opened }
    requires ordered { AreOrdered search.old.solver.propagation.trail }
    requires orders { AreOrdersOf task.problem.now task.goal search.old kept }
    ensures between { IsBetweenRounds task.entry.problem.now task.entry.goal task.entry.generations search.new }
    ensures is_open { IsOpenSearch search.new }
    ensures same { IsSameButJournal search.old search.new }
    ensures combines { (added : List Line) × (search.new.journal.lines ≡ search.old.journal.lines ++ added) × OnlyCombines added }
    ensures limit { search.new.journal.limit ≡ search.old.journal.limit }
    // The rows can be gone on with at the lines that the journal has then.
    ensures lines { IfOk result (λ r. r.kept.lines ≡ length search.new.journal.lines) }
    ensures orders { IfOk result (λ r. AreOrdersOf task.entry.problem.now task.entry.goal search.new (Some r.kept)) }
    ensures point { (r : _) (made : List PointAt) → result ≡ Ok r → r.found ≡ Point made → IsPointOf search.new made }
    ensures stand { (r : _) (made : List PointAt) → result ≡ Ok r → r.found ≡ Point made → AllByRecursion IsPointNumber made }
    // The block of a contradiction is right, its hypotheses are literals of the trail, and its lines are between terms that are built of the names.
    ensures contradiction { (r : _) (e : Explained) → result ≡ Ok r → r.found ≡ Contradiction e →
        IsContradictory search.old.store.signature e.block × IsBlockOf (atoms search.old.solver.propagation.trail) e.block.deriv.hyps e.tags }
    ensures built { (r : _) (e : Explained) → result ≡ Ok r → r.found ≡ Contradiction e → AreBuilt search.old.store.signature (terms_in search.old.store) e.block.deriv.lines }
    ensures tight { (r : _) (tight : List Row) → result ≡ Ok r → r.found ≡ Tight tight →
        AreTightRows search.old.store r.kept.bounds tight × AllByRecursion (λ row. IsBlockOf (atoms search.old.solver.propagation.trail) row.from.deriv.hyps row.from.tags) tight }
    ensures steps { result ≡ Err Steps → counted_in search.new.journal.lines ≡ search.new.journal.limit }
    ensures number { (wide : WideAt) → result ≡ Err (Number wide) → (x : Setting) → IsToldIn task.entry.problem.now task.entry.goal search.new.store search.new.blocks.opened x →
        IsLicensed x search.new.journal.lines wide }
{
    trail_stands(&search.solver);
    combinations_grow(&search.solver);
    opaque_numbers_are_leaves();
    open_trails_are_filled();
    let _names = search.store.len();
    let marks = sure_in_search(
        task.alloc,
        task.problem,
        task.goal,
        &search.solver,
        &search.journal,
    )?;
    solve_rows(
        task.alloc,
        &search.store,
        search.solver.theory(),
        search.solver.trail().as_slice(),
        marks.as_slice(),
        &mut search.journal,
        kept,
    )
}
