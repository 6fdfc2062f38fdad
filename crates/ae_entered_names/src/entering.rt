//! Names that enter.
ghost use Rattle.std.specs.Prelude.{◌<◌, ◌≤◌, ◌≡◌, ◌+◌, ℕ, List, length, slice_get, Some, None, OnOk};
ghost use Rattle.ae_between_rounds.specs.Between.{Holds, IsSearchingBelow};
ghost use Rattle.ae_block_constants.specs.declared.opened.Opened.{Opened};
ghost use Rattle.ae_block_counts.specs.Counts.{quantifiers_left};
ghost use Rattle.ae_core.specs.declared.terms.Sort.{out-Sort};
ghost use Rattle.ae_entered_names.specs.Inner.Choosing.{GoesOn, HaveStayed, IsSameBeside};
ghost use Rattle.ae_rules.specs.Clauses.{Clause};
ghost use Rattle.ae_rules.specs.Instances.{choices_of};
ghost use Rattle.ae_sat.specs.Standing.{IsOneOf};
ghost use Rattle.ae_store.specs.declared.nodes.Node.{Node as NodeOf};
ghost use Rattle.ae_theory.specs.Names.{Extends};

use crate::choices::add_choice;
use ae_between_rounds::search::{Search, Task};
use std::alloc::AllocError;

/// The next name that wasn't looked at gets its clause, and enters the index.
fn enter_next(task: Task<'_>, search: &mut Search) -> Result<(), AllocError>
    requires searching { (level : ℕ) × IsSearchingBelow task.problem.now task.goal task.generations level search.old }
    requires holds { Holds task.problem.now task.goal task.generations search.old }
    requires within { search.old.looked < length search.old.store.nodes }
    ensures goes_on { OnOk result (GoesOn task.entry.problem.now task.entry.goal task.entry.generations search.old search.new) }
    // Nothing comes in where its sort is no enumeration.
    ensures plain { ((x : NodeOf) → slice_get search.old.store.nodes search.old.looked ≡ Some x → choices_of task.entry.problem.now.signature (out-Sort x.sort) ≡ None) → OnOk result (HaveStayed search.old search.new) }
    ensures looked { OnOk result (search.new.looked ≡ search.old.looked + 1) }
    ensures beside { IsSameBeside search.old search.new }
{
    let _count = search.store.len();
    let name = search.looked;
    add_choice(task, search, name)?;
    search.known.enter(&search.store, name)?;
    search.looked = name + 1;
    Ok(())
}

/// Puts the names that weren't looked at into the index, and adds for each of an enumeration that is no constructor the clause that it is one of these;
/// until all names were looked at. `Err` where there is no memory.
pub fn enter_names(task: Task<'_>, search: &mut Search) -> Result<(), AllocError>
    requires searching { (level : ℕ) × IsSearchingBelow task.problem.now task.goal task.generations level search.old }
    requires holds { Holds task.problem.now task.goal task.generations search.old }
    // Wherever the search rests below a level, it does so then.
    ensures searching { (level : ℕ) → IsSearchingBelow task.entry.problem.now task.entry.goal task.entry.generations level search.old →
        OnOk result (IsSearchingBelow task.entry.problem.now task.entry.goal task.entry.generations level search.new) }
    ensures holds { OnOk result (Holds task.entry.problem.now task.entry.goal task.entry.generations search.new) }
    ensures looked { OnOk result (search.new.looked ≡ length search.new.store.nodes) }
    ensures extends { OnOk result (Extends search.old.store search.new.store) }
    ensures lines { OnOk result (length search.old.lines.items ≤ length search.new.lines.items) }
    ensures kept { (c : Clause) → IsOneOf search.old.solver.propagation.clauses c → OnOk result (IsOneOf search.new.solver.propagation.clauses c) }
    // No clause comes in where none of the names is of an enumeration.
    ensures plain { ((n : ℕ) (x : NodeOf) → search.old.looked ≤ n → slice_get search.old.store.nodes n ≡ Some x → choices_of task.entry.problem.now.signature (out-Sort x.sort) ≡ None) →
        OnOk result (search.new.solver.propagation.clauses ≡ search.old.solver.propagation.clauses) }
    // No more quantifiers are left to open.
    ensures quantifiers { (opened : List Opened) → OnOk result (quantifiers_left opened search.new.solver.propagation.clauses ≤ quantifiers_left opened search.old.solver.propagation.clauses) }
    ensures trail { search.new.solver.propagation.trail ≡ search.old.solver.propagation.trail }
    ensures theory { search.new.solver.theory ≡ search.old.solver.theory }
    ensures journal { search.new.journal ≡ search.old.journal }
    ensures blocks { search.new.blocks ≡ search.old.blocks }
    ensures ages { search.new.ages ≡ search.old.ages }
    ensures owners { search.new.owners ≡ search.old.owners }
    ensures instances { search.new.instances ≡ search.old.instances }
{
    'names: while search.looked < search.store.len() {
        enter_next(task, search)?;
    }
    Ok(())
}
