//! The rules, by their numbers.
ghost use Rattle.std.specs.Prelude.{◌≡◌, ℕ, ◌+◌, None, option_copied};
ghost use Rattle.ae_monoid.specs.Rules.{rule_at, AreRules};

use crate::chains::Link;
use ae_journal::systems::RuleEntry;
use ae_pmap::{Pmap, Version};
use std::alloc::Global;
use std::marker::Model;

/// A rule, and the number of the step that justifies it.
#[derive(Drop)]
pub struct Kept {
    pub entry: RuleEntry,
    pub just: usize,
}

/// The rules of all AC symbols. A rule keeps its number for as long as it stands.
#[derive(Drop)]
pub struct Rules {
    pub(crate) alloc: Global,
    pub(crate) kept: Pmap<Kept>,
    pub(crate) next: usize,
    pub(crate) largest: Pmap<usize>,
    pub(crate) elements: Pmap<usize>,
    pub(crate) links: Vec<Link>,
}

impl Model for Rules {
    ghost use Rattle.ae_pmap.specs.Forest.{present};
    ghost use Rattle.ae_pmap.specs.Pairs.{found};
    ghost use Rattle.ae_monoid.specs.Rules.{Contents};
    ghost use Rattle.ae_monoid.specs.Inner.Indexes.{AreIndexed};
    ghost use Rattle.std.specs.Coded.{codes};
    ghost use Rattle.ae_core.specs.contracts.terms.Sort as sort;

    ghost Value = { Contents };

    ghost view = { λ r. record { kept = r.kept; next = r.next; largest = r.largest; elements = r.elements; links = r.links.items } };

    ghost coded = { Prim.hlevel (codes, sort.the_row.coded) };

    ghost invariant = { λ r. AreIndexed (λ n. found (present r.kept) n) r.next (λ n. found (present r.largest) n) (λ n. found (present r.elements) n) r.links.items };
}

/// A version of rules, for `Rules::back`.
#[derive(Clone, Copy)]
pub struct Shared {
    pub(crate) kept: Version,
    pub(crate) next: usize,
    pub(crate) largest: Version,
    pub(crate) elements: Version,
}

impl Rules {
    /// No rules. It takes no memory.
    pub fn new(alloc: Global) -> Rules
        ensures none { (n : ℕ) → rule_at result n ≡ None }
        ensures len { result.next ≡ 0 }
    {
        Rules {
            alloc,
            kept: Pmap::new(alloc),
            next: 0,
            largest: Pmap::new(alloc),
            elements: Pmap::new(alloc),
            links: Vec::new(alloc),
        }
    }

    /// How many numbers were given. It takes no memory.
    pub fn len(&self) -> usize
        ensures { result ≡ self.now.next }
    {
        self.next
    }

    /// The rule of a number, `None` exactly where none of that number stands. It takes no memory.
    pub fn rule(&self, number: usize) -> Option<&Kept>
        ensures rule { option_copied result ≡ rule_at self.now number }
        ensures rules { AreRules (λ n. rule_at self.now n) self.now.next }
    {
        self.kept.get(number)
    }
}
