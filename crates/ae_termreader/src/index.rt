//! Words by their hashes, so that a word of a table is found without going over the table.
ghost use Rattle.std.specs.Prelude.{◌≡◌, ◌<◌, ◌≤◌, ◌-◌, ◌∷◌, [], length, get_or, slice_set, IfOk, OnOk};
ghost use Rattle.std.specs.Str.{bytes_eq};
ghost use Rattle.ae_termreader.specs.Inner.Lookup.{hash_from, slot_of, first_of, bucket_of, FindsFrom, Finds, AllEmpty};

use ae_base::lists::List;
use std::alloc::{AllocError, Global};

// Whether two words are the same. Most are short.
#[tactic(auto, using(crate::proofs::Lookups::lengths_apart))]
fn same(left: &[u8], right: &[u8]) -> bool
    ensures { result ≡ bytes_eq left.now right.now }
{
    if left.len() != right.len() {
        return false;
    }
    let mut at = 0;
    'bytes: while at < left.len() {
        if left[at] != right[at] {
            return false;
        }
        at += 1;
    }
    true
}

fn hash_of(word: &[u8]) -> usize
    ensures { result ≡ hash_from 0 word.now }
{
    let mut hash = 0;
    for byte in word {
        hash = (hash * 257 + *byte as usize) % 4294967296;
    }
    hash
}

fn slot_of(word: &[u8], count: usize) -> usize
    requires { 0 < count }
    ensures slot { result ≡ slot_of count word.now }
    ensures below { result < count }
{
    hash_of(word) % count
}

#[tactic(auto, using(crate::proofs::Lookups::none_in, crate::proofs::Lookups::none_more))]
fn empty_buckets(alloc: Global, count: usize) -> Result<List<List<usize>>, AllocError>
    ensures count { IfOk result (λ b. length b ≡ count) }
    ensures empty { IfOk result (λ b. AllEmpty b) }
{
    let mut out = List::new(alloc);
    for slot in 0..count {
        out.push(List::new(alloc))?;
    }
    Ok(out)
}

fn bucket_at(buckets: &[List<usize>], slot: usize) -> &[usize]
    ensures { result.now ≡ get_or buckets.now slot [] }
{
    if slot < buckets.len() {
        buckets[slot].as_slice()
    } else {
        &[]
    }
}

fn insert(
    alloc: Global,
    buckets: &mut List<List<usize>>,
    slot: usize,
    place: usize,
) -> Result<(), AllocError>
    requires { slot < length buckets.old }
    ensures { OnOk result (buckets.new ≡ slice_set buckets.old slot (place ∷ get_or buckets.old slot [])) }
{
    let mut bucket = List::new(alloc);
    bucket.push(place)?;
    bucket.append(List::from_slice(alloc, bucket_at(buckets.as_slice(), slot))?)?;
    buckets.set(slot, bucket);
    Ok(())
}

// The last of the first `end` words gets its place; the buckets hold the words behind it.
#[tactic(auto, using(crate::proofs::Lookups::entered))]
fn enter(
    alloc: Global,
    words: &[List<u8>],
    buckets: &mut List<List<usize>>,
    end: usize,
) -> Result<(), AllocError>
    requires some { 0 < end }
    requires within { end ≤ length words.now }
    requires buckets { 0 < length buckets.old }
    requires behind { FindsFrom words.now buckets.old end }
    ensures finds { OnOk result (FindsFrom words.now buckets.new (end - 1)) }
    ensures count { OnOk result (length buckets.new ≡ length buckets.old) }
{
    let place = end - 1;
    let slot = slot_of(words[place].as_slice(), buckets.len());
    insert(alloc, buckets, slot, place)?;
    Ok(())
}

/// The places of the words in buckets by their hashes.
#[tactic(auto, using(crate::proofs::Lookups::none_find, crate::proofs::Lookups::found_all))]
pub fn index_of(alloc: Global, words: &[List<u8>]) -> Result<List<List<usize>>, AllocError>
    ensures some { IfOk result (λ b. 0 < length b) }
    ensures finds { IfOk result (λ b. Finds words.now b) }
{
    let mut buckets = empty_buckets(alloc, words.len() + 1)?;
    let mut end = words.len();
    while 0 < end {
        enter(alloc, words, &mut buckets, end)?;
        end -= 1;
    }
    Ok(buckets)
}

fn stands_at(words: &[List<u8>], place: usize, word: &[u8]) -> bool
    ensures { result ≡ bytes_eq (get_or words.now place []) word.now }
{
    if place < words.len() {
        same(words[place].as_slice(), word)
    } else {
        same(b"", word)
    }
}

fn place_in(words: &[List<u8>], bucket: &[usize], word: &[u8]) -> usize
    ensures { result ≡ first_of words.now bucket.now word.now }
{
    for place in bucket {
        if stands_at(words, *place, word) {
            return *place;
        }
    }
    words.len()
}

/// The first place of a word among words that are indexed by these buckets; the number of the words where it isn't one of them.
pub fn find(words: &[List<u8>], buckets: &[List<usize>], word: &[u8]) -> usize
    requires { 0 < length buckets.now }
    ensures { result ≡ first_of words.now (bucket_of buckets.now word.now) word.now }
{
    let slot = slot_of(word, buckets.len());
    place_in(words, bucket_at(buckets, slot), word)
}
