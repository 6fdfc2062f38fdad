//! Instances, at a state where the solver has nothing left to do.
ghost use Rattle.std.specs.Prelude.{◌≡◌};
ghost use Rattle.ae_between_rounds.specs.Between.{IsBetweenRounds};
ghost use Rattle.ae_between_rounds.specs.Finished.{IsOpenSearch};
ghost use Rattle.ae_core.specs.Signatures.{IsLawfulProblem};
ghost use Rattle.ae_rounds.specs.Ended.{HasMade};

use ae_between_rounds::search::{Search, Task};
use ae_made_instances::make_owed;
use ae_owed_instances::next_owed;
use ae_theory::theory::Fail;

/// Makes the instances that are owed at the least number at which some are; `false` where none is.
pub fn instantiate(task: Task<'_>, search: &mut Search) -> Result<bool, Fail>
    requires lawful { IsLawfulProblem task.problem.now }
    requires between { IsBetweenRounds task.problem.now task.goal task.generations search.old }
    requires limit { search.old.journal.limit ≡ task.steps }
    requires is_open { IsOpenSearch search.old }
    ensures made { HasMade task.entry.problem.now task.entry.goal task.entry.generations search.old search.new result }
    ensures limit { search.new.journal.limit ≡ search.old.journal.limit }
{
    'matches: loop {
        let _made = search.instances.made.len();
        match next_owed(task, search)? {
            None => return Ok(false),
            Some(found) => {
                if make_owed(task, search, found)? {
                    return Ok(true);
                }
            }
        }
    }
}
