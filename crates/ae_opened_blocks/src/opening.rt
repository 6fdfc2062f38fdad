//! Opening the blocks that ask for terms.
ghost use Rattle.std.specs.Prelude.{◌<◌, ◌≡◌, true, false, length, Ok, IfOk, OnOk};
ghost use Rattle.ae_between_rounds.specs.Between.{IsBetweenRounds};
ghost use Rattle.ae_between_rounds.specs.Passing.{Passes};
ghost use Rattle.ae_block_counts.specs.Counts.{quantifiers_left};
ghost use Rattle.ae_explain.specs.Trail as trails;
ghost use Rattle.ae_opening.specs.Asking.{AllServed, IsNextUnopened};

use ae_between_rounds::search::{Search, Task};
use ae_brought_blocks::add_block;
use ae_core::copies::copy_formula;
use ae_core::formulas::Formula;
use ae_core::lists::Boxed;
use ae_entered_names::enter_names;
use ae_explain::Trail;
use ae_opening::next_unopened;
use std::alloc::{AllocError, Global};

/// A copy of the formula of the literal at a place of a trail.
fn formula_at(alloc: Global, trail: &Trail, place: usize) -> Result<Boxed<Formula>, AllocError>
    requires within { place < length trail.now.assigned }
    ensures { IfOk result (λ formula. formula ≡ (trails.at trail.now.assigned place).lit.formula) }
{
    let formula = copy_formula(alloc, &trail.lit_at(place).formula)?;
    Boxed::new(alloc, formula)
}

/// Opens the block of the literal at a place of the trail.
fn open_place(task: Task<'_>, search: &mut Search, place: usize) -> Result<(), AllocError>
    requires between { IsBetweenRounds task.problem.now task.goal task.generations search.old }
    requires next { IsNextUnopened search.old.solver.propagation.trail search.old.blocks.opened place }
    ensures between { OnOk result (IsBetweenRounds task.entry.problem.now task.entry.goal task.entry.generations search.new) }
    ensures lines { OnOk result (length search.old.lines.items < length search.new.lines.items) }
    ensures journal { search.new.journal ≡ search.old.journal }
    ensures passes { OnOk result (Passes search.old search.new) }
    ensures falls { OnOk result (quantifiers_left search.new.blocks.opened search.new.solver.propagation.clauses < quantifiers_left search.old.blocks.opened search.old.solver.propagation.clauses) }
{
    let formula = formula_at(task.alloc, search.solver.trail(), place)?;
    add_block(
        task.alloc,
        &task.problem.signature,
        &mut search.blocks,
        &mut search.store,
        &mut search.ages,
        &mut search.solver,
        &mut search.lines,
        formula.get(),
        task.generations,
    )?;
    enter_names(task, search)?;
    Ok(())
}

/// Opens each block of the trail that asks for terms and isn't opened; `true` where there was one.
pub fn open_blocks(task: Task<'_>, search: &mut Search) -> Result<bool, AllocError>
    requires between { IsBetweenRounds task.problem.now task.goal task.generations search.old }
    ensures between { OnOk result (IsBetweenRounds task.entry.problem.now task.entry.goal task.entry.generations search.new) }
    // Where there was none, all that ask for terms are opened.
    ensures none { result ≡ Ok false → search.new ≡ search.old }
    ensures served { result ≡ Ok false → AllServed search.old.solver.propagation.trail search.old.blocks.opened }
    ensures lines { result ≡ Ok true → length search.old.lines.items < length search.new.lines.items }
    ensures journal { search.new.journal ≡ search.old.journal }
    // The trail stays, and the names and the blocks only grow.
    ensures passes { OnOk result (Passes search.old search.new) }
    // Fewer quantifiers are left to open, where one was opened.
    ensures falls { result ≡ Ok true → quantifiers_left search.new.blocks.opened search.new.solver.propagation.clauses < quantifiers_left search.old.blocks.opened search.old.solver.propagation.clauses }
{
    let mut some = false;
    'openings: loop {
        match next_unopened(search.solver.trail(), search.blocks.opened.as_slice()) {
            None => return Ok(some),
            Some(place) => {
                open_place(task, search, place)?;
                some = true;
            }
        }
    }
}
