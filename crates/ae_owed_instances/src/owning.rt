//! The owners of a search between two rounds.
ghost use Rattle.std.specs.Prelude.{◌≡◌, true, OnOk};
ghost use Rattle.std.specs.List.{Contains};
ghost use Rattle.ae_between_rounds.specs.Between.{IsBetweenRounds};
ghost use Rattle.ae_core.specs.declared.formulas.Lit.{Lit};
ghost use Rattle.ae_journal.specs.States.{is_universal, of_literal};
ghost use Rattle.ae_open_states.specs.Shown.{trail_literals};
ghost use Rattle.ae_owners.specs.Owners.{HasOwner};

use crate::asked::Asked;
use ae_between_rounds::search::Search;
use ae_owners::finding::add_literals;
use std::alloc::AllocError;

/// Adds the universal literals that are true to the owners.
pub(crate) fn add_owners(task: Asked<'_>, search: &mut Search) -> Result<(), AllocError>
    requires between { IsBetweenRounds task.problem.now task.goal task.generations search.old }
    ensures between { OnOk result (IsBetweenRounds task.entry.problem.now task.entry.goal task.entry.generations search.new) }
    ensures rest { search.new ≡ record search.old { owners = search.new.owners } }
    ensures all { OnOk result ((l : Lit) → Contains (trail_literals search.new.solver.propagation.trail) l → is_universal l ≡ true → HasOwner search.new.owners (of_literal l)) }
{
    add_literals(
        task.alloc,
        &task.problem.signature,
        search.solver.trail().as_slice(),
        &mut search.owners,
    )?;
    Ok(())
}
