//! Which rows may have a name in their values.
//!
//! Where a name comes into the value of a row, a link is added that names the row and the link before it.
//! Links are never changed, so an earlier version of the heads still leads to its links. A link stays where
//! the name left the value again.
ghost use Rattle.std.specs.Prelude.{◌≡◌, ℕ, ◌≤◌, length, true, IfOk, OnOk};
ghost use Rattle.std.specs.List.{Contains};
ghost use Rattle.std.specs.List.Sorted.{IsNonDecreasing};
ghost use Rattle.ae_pmap.specs.Forest.{Lasts};
ghost use Rattle.ae_linear.specs.Inner.Occurrences.{AreLinked, AreHeads, OccursFrom, OccursIn, Grows, AllOccur};
ghost use Rattle.ae_num.specs.Forms.{has_key};

use ae_num::forms::{Name, Part};
use ae_pmap::Pmap;
use std::alloc::{AllocError, Global};

/// A row whose value got a name, and the place of the link before, counted from 1; 0 where there is none.
#[derive(Clone, Copy)]
pub(crate) struct Link {
    pub(crate) row: Name,
    pub(crate) next: usize,
}

/// Where the links of a name begin, 0 where it has none.
fn head_of(heads: &Pmap<usize>, links: &[Link], name: Name) -> usize
    requires heads { AreHeads heads.now links.now }
    ensures within { result ≤ length links.now }
    ensures all { (row : ℕ) → OccursIn heads.now links.now name row → OccursFrom links.now result row }
{
    match heads.get(name) {
        Some(head) => *head,
        None => 0,
    }
}

/// The rows that may have a name, rising; a row may be named twice.
pub(crate) fn listed(
    alloc: Global,
    heads: &Pmap<usize>,
    links: &[Link],
    name: Name,
) -> Result<Vec<Name>, AllocError>
    requires linked { AreLinked links.now }
    requires heads { AreHeads heads.now links.now }
    ensures all { IfOk result (λ rows. (row : ℕ) → OccursIn heads.now links.now name row → Contains rows.items row) }
    ensures rises { IfOk result (λ rows. IsNonDecreasing rows.items) }
{
    let mut rows = Vec::new(alloc);
    let mut at = head_of(heads, links, name);
    while at > 0 {
        let link = links[at - 1];
        rows.push(link.row)?;
        at = link.next;
    }
    rows.sort_unstable();
    Ok(rows)
}

/// Links the rows to a name. Refused memory leaves the heads as they were.
fn link_all(
    heads: &mut Pmap<usize>,
    links: &mut Vec<Link>,
    name: Name,
    rows: &[Name],
) -> Result<(), AllocError>
    requires linked { AreLinked links.old.items }
    requires heads { AreHeads heads.old links.old.items }
    ensures linked { AreLinked links.new.items }
    ensures heads { AreHeads heads.new links.new.items }
    ensures grows { Grows links.old.items links.new.items }
    ensures stays { OnOk result ((key row : ℕ) → OccursIn heads.old links.old.items key row → OccursIn heads.new links.new.items key row) }
    ensures named { OnOk result (AllOccur heads.new links.new.items name rows.now) }
    ensures lasts { Lasts heads.old heads.new }
{
    let mut head = head_of(heads, links, name);
    for row in rows {
        links.push(Link {
            row: *row,
            next: head,
        })?;
        head = links.len();
    }
    heads.insert(name, head)?;
    Ok(())
}

/// Links the rows to each name of the parts. A refusal leaves some of it done.
pub(crate) fn link_each(
    heads: &mut Pmap<usize>,
    links: &mut Vec<Link>,
    parts: &[Part],
    rows: &[Name],
) -> Result<(), AllocError>
    requires linked { AreLinked links.old.items }
    requires heads { AreHeads heads.old links.old.items }
    ensures linked { AreLinked links.new.items }
    ensures heads { AreHeads heads.new links.new.items }
    ensures grows { Grows links.old.items links.new.items }
    ensures stays { OnOk result ((key row : ℕ) → OccursIn heads.old links.old.items key row → OccursIn heads.new links.new.items key row) }
    ensures named { OnOk result ((key : ℕ) → has_key parts.now key ≡ true → AllOccur heads.new links.new.items key rows.now) }
    ensures lasts { Lasts heads.old heads.new }
{
    for part in parts {
        link_all(heads, links, part.key, rows)?;
    }
    Ok(())
}
