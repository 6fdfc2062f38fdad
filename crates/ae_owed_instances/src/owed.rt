//! Which instances are owed.
ghost use Rattle.std.specs.Prelude.{◌≡◌, None, Ok, Some, OnOk, length};
ghost use Rattle.ae_between_rounds.specs.Between.{IsBetweenRounds};
ghost use Rattle.ae_between_rounds.specs.Finished.{IsInstantiatedBy, IsOpenSearch};
ghost use Rattle.ae_between_rounds.specs.Owed.{AreOwed};
ghost use Rattle.ae_between_rounds.specs.declared.search.OwedAt.{OwedAt as OwedAtOf};
ghost use Rattle.ae_core.specs.Signatures.{IsLawfulProblem};

use crate::asked::Asked;
use crate::finding::first_owed;
use crate::lowering::lower_all;
use crate::owning::add_owners;
use ae_alike_names::laws::alike_names_are_same;
use ae_between_rounds::search::{OwedAt, Search, Task};
use std::alloc::AllocError;

/// The matches that are owed at the least number at which some are; none where none is owed below the bound. A match is owed where none that is the
/// same was taken: of all that are the same one is answered.
///
/// Before, the universal literals that are true are added to the owners, and the numbers of the instances that were made fall as far as they
/// are matches now; what these say is brought again then. Nothing else is changed.
pub fn next_owed(task: Task<'_>, search: &mut Search) -> Result<Option<OwedAt>, AllocError>
    requires lawful { IsLawfulProblem task.problem.now }
    requires between { IsBetweenRounds task.problem.now task.goal task.generations search.old }
    requires is_open { IsOpenSearch search.old }
    ensures between { OnOk result (IsBetweenRounds task.entry.problem.now task.entry.goal task.entry.generations search.new) }
    ensures is_open { OnOk result (IsOpenSearch search.new) }
    ensures found { (found : OwedAtOf) → result ≡ Ok (Some found) → AreOwed task.entry.problem.now task.entry.goal task.entry.generations search.new found }
    ensures none { result ≡ Ok None → IsInstantiatedBy task.entry.problem.now task.entry.goal task.entry.generations search.new }
    ensures solver { search.new.solver ≡ search.old.solver }
    ensures blocks { search.new.blocks ≡ search.old.blocks }
    ensures journal { search.new.journal ≡ search.old.journal }
    ensures lines { search.new.lines ≡ search.old.lines }
    ensures made { OnOk result (search.new.instances.taken ≡ search.old.instances.taken) }
    ensures many { OnOk result (length search.new.instances.made ≡ length search.old.instances.made) }
{
    alike_names_are_same();
    let asked = Asked {
        alloc: task.alloc,
        problem: task.problem,
        goal: task.goal,
        generations: task.generations,
    };
    add_owners(asked, search)?;
    lower_all(asked, search)?;
    first_owed(asked, search)
}
