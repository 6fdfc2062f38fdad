//! Whether an instance is itself a match at a number now.
ghost use Rattle.std.specs.Prelude.{◌≡◌, ◌<◌, ◌≤◌, ◌-◌, Some, IfOk, MatchBool, length, slice_get};
ghost use Rattle.ae_between_rounds.specs.Between.{IsBetweenRounds};
ghost use Rattle.ae_between_rounds.specs.declared.search.Instance.{Instance};
ghost use Rattle.ae_core.specs.Signatures.{IsLawfulProblem};
ghost use Rattle.ae_owed_instances.specs.Inner.Falling.{IsMatchNow};

use crate::asked::Asked;
use ae_between_rounds::search::Search;
use ae_owed_matches::finding::is_found;
use std::alloc::AllocError;

/// Whether the instance at a place is a match at a number.
fn matches_at(
    task: Asked<'_>,
    search: &Search,
    place: usize,
    number: u32,
) -> Result<bool, AllocError>
    requires lawful { IsLawfulProblem task.problem.now }
    requires between { IsBetweenRounds task.problem.now task.goal task.generations search.now }
    requires within { place < length search.now.instances.made }
    requires below { number < 4294967295 }
    ensures { IfOk result (λ b. MatchBool b (IsMatchNow task.entry.problem.now task.entry.goal search.now place number) (¬ IsMatchNow task.entry.problem.now task.entry.goal search.now place number)) }
{
    let made = search.instances.made.as_slice();
    let instance = &made[place];
    let owners = search.owners.as_slice();
    let own = instance.owner;
    let owner = &owners[own];
    let patterns = owner.patterns.as_slice();
    is_found(
        task.alloc,
        &task.problem.signature,
        &search.store,
        search.solver.theory(),
        &search.known,
        patterns,
        number,
        &instance.subst,
    )
}

/// The least number, from that of the instance at a place down, such that it is a match at each of them.
pub(crate) fn least_number(
    task: Asked<'_>,
    search: &Search,
    place: usize,
) -> Result<u32, AllocError>
    requires lawful { IsLawfulProblem task.problem.now }
    requires between { IsBetweenRounds task.problem.now task.goal task.generations search.now }
    requires within { place < length search.now.instances.made }
    ensures most { IfOk result (λ n. (i : Instance) → slice_get search.now.instances.made place ≡ Some i → n ≤ i.number) }
    ensures found { IfOk result (λ n. (i : Instance) → slice_get search.now.instances.made place ≡ Some i → n < i.number → IsMatchNow task.entry.problem.now task.entry.goal search.now place n) }
    ensures least { IfOk result (λ n. 0 < n → ¬ IsMatchNow task.entry.problem.now task.entry.goal search.now place (n - 1)) }
{
    let mut number = search.instances.made.as_slice()[place].number;
    'down: while 0 < number {
        if !matches_at(task, search, place, number - 1)? {
            return Ok(number);
        }
        number -= 1;
    }
    Ok(number)
}
