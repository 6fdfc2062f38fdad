//! Chains of rules' numbers, one for each name.
//!
//! A link names a rule and the link before it. Links are never changed, so an earlier version of the heads
//! still leads to its links. The numbers fall along a chain, since later rules have greater numbers.
ghost use Rattle.std.specs.Prelude.{◌≡◌, ℕ, ◌+◌, ◌<◌, ◌≤◌, ◌⊎◌, length, OnOk, OnErr};
ghost use Rattle.ae_pmap.specs.Forest.{present, Lasts};
ghost use Rattle.ae_monoid.specs.Inner.Chains.{AreLinked, AreHeads, IsOn, IsOnOf, Grows};

use ae_num::forms::Name;
use ae_pmap::Pmap;
use std::alloc::AllocError;

/// A rule's number, and the place of the link before, counted from 1; 0 where there is none.
#[derive(Clone, Copy)]
pub(crate) struct Link {
    pub(crate) number: usize,
    pub(crate) next: usize,
}

/// Where the chain of a name begins, 0 where it has none.
pub(crate) fn head_of(heads: &Pmap<usize>, links: &[Link], name: Name) -> usize
    requires heads { AreHeads heads.now links.now }
    ensures within { result ≤ length links.now }
    ensures all { (number : ℕ) → IsOnOf heads.now links.now name number → IsOn links.now result number }
    ensures only { (number : ℕ) → IsOn links.now result number → IsOnOf heads.now links.now name number }
{
    match heads.get(name) {
        Some(head) => *head,
        None => 0,
    }
}

/// Puts a rule's number before the chain of a name. Refused memory leaves the heads as they were.
pub(crate) fn add_link(
    heads: &mut Pmap<usize>,
    links: &mut Vec<Link>,
    name: Name,
    number: usize,
) -> Result<(), AllocError>
    requires linked { AreLinked links.old.items }
    requires heads { AreHeads heads.old links.old.items }
    requires above { (other : ℕ) → IsOnOf heads.old links.old.items name other → other < number }
    ensures linked { AreLinked links.new.items }
    ensures heads { AreHeads heads.new links.new.items }
    ensures grows { Grows links.old.items links.new.items }
    ensures longer { OnOk result (length links.new.items ≡ length links.old.items + 1) }
    ensures named { OnOk result (IsOnOf heads.new links.new.items name number) }
    ensures stays { OnOk result ((key other : ℕ) → IsOnOf heads.old links.old.items key other → IsOnOf heads.new links.new.items key other) }
    ensures only { OnOk result ((key other : ℕ) → IsOnOf heads.new links.new.items key other → IsOnOf heads.old links.old.items key other ⊎ ((key ≡ name) × (other ≡ number))) }
    ensures err { OnErr result (present heads.new ≡ present heads.old) }
    ensures lasts { Lasts heads.old heads.new }
{
    let next = head_of(heads, links, name);
    links.push(Link { number, next })?;
    heads.insert(name, links.len())?;
    Ok(())
}
