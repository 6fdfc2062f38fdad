//! Which rules were paired with which.
//!
//! For each rule a chain of links leads through the rules that it was paired with. Links are never changed, so an
//! earlier version of the heads still leads to its links.
ghost use Rattle.std.specs.Prelude.{◌≡◌, ◌≢◌, ◌≤◌, ◌<◌, ◌↔◌, ◌∷◌, ◌++◌, ℕ, [], length, List, IsTrue, OnOk, OnErr};
ghost use Rattle.std.specs.List.{Contains};
ghost use Rattle.ae_pmap.specs.Forest.{Lasts as MapLasts};
ghost use Rattle.ae_equations.specs.declared.pairs.Link.{Link};
ghost use Rattle.ae_equations.specs.Paired.{chain_at, head_of, partners};
ghost use Rattle.ae_equations.specs.Inner.Chained.{AreChained, AreNoted};

use ae_core::lists::List;
use ae_pmap::Pmap;
use std::alloc::{AllocError, Global};

/// A rule's number, and the place of the link before, counted from 1; 0 where there is none.
#[derive(Clone, Copy)]
pub(crate) struct Link {
    pub(crate) number: usize,
    pub(crate) next: usize,
}

/// For each rule, where the chain of those that it was paired with begins.
#[derive(Drop)]
pub(crate) struct Pairs {
    pub(crate) heads: Pmap<usize>,
    pub(crate) links: List<Link>,
}

/// No pair. It takes no memory.
pub(crate) fn none_paired(alloc: Global) -> Pairs
    ensures noted { AreNoted result }
    ensures none { (n : ℕ) → partners result n ≡ [] }
{
    Pairs {
        heads: Pmap::new(alloc),
        links: List::new(alloc),
    }
}

/// Where the chain of a rule begins, 0 where it was paired with none.
fn head_in(pairs: &Pairs, number: usize) -> usize
    requires noted { AreNoted pairs.now }
    ensures head { result ≡ head_of pairs.now number }
    ensures within { result ≤ length pairs.now.links }
{
    match pairs.heads.get(number) {
        Some(head) => *head,
        None => 0,
    }
}

/// Whether a number is on the chain from a place.
fn is_on(links: &[Link], head: usize, number: usize) -> bool
    requires chained { AreChained links.now }
    requires within { head ≤ length links.now }
    ensures { IsTrue result ↔ Contains (chain_at links.now head) number }
{
    let mut at = head;
    while at > 0 {
        let link = links[at - 1];
        if link.number == number {
            return true;
        }
        at = link.next;
    }
    false
}

/// Whether the second rule is among those that were noted for the first one.
pub(crate) fn is_noted(pairs: &Pairs, first: usize, second: usize) -> bool
    requires noted { AreNoted pairs.now }
    ensures { IsTrue result ↔ Contains (partners pairs.now first) second }
{
    let head = head_in(pairs, first);
    is_on(pairs.links.as_slice(), head, second)
}

/// Puts the second rule before the chain of the first one.
pub(crate) fn note(pairs: &mut Pairs, first: usize, second: usize) -> Result<(), AllocError>
    requires noted { AreNoted pairs.old }
    ensures noted { AreNoted pairs.new }
    ensures ok { OnOk result (partners pairs.new first ≡ second ∷ partners pairs.old first) }
    ensures others { (n : ℕ) → n ≢ first → partners pairs.new n ≡ partners pairs.old n }
    ensures err { OnErr result ((n : ℕ) → partners pairs.new n ≡ partners pairs.old n) }
    ensures grows { (more : List Link) × (pairs.new.links ≡ pairs.old.links ++ more) }
    ensures lasts { MapLasts pairs.old.heads pairs.new.heads }
{
    let next = head_in(pairs, first);
    pairs.links.push(Link {
        number: second,
        next,
    })?;
    pairs.heads.insert(first, pairs.links.len())?;
    Ok(())
}
