//! Words that stand at a place.
ghost use Rattle.std.specs.Prelude.{◌≡◌, ◌≤◌, ◌<◌, ◌+◌, max, length, drop, true, false, IfSome, IfNone, IfOk};
ghost use Rattle.ae_codes.specs.Tables.{begins};
ghost use Rattle.ae_codes.specs.Rows.{alone};
ghost use Rattle.ae_readers.specs.Readers.{Reads, ReadsExactly, Ahead, AsksNoMemory, common, fixed_read};

use crate::fault::Fault;

// How many bytes of a word stand at a place.
fn common(text: &[u8], at: usize, word: &[u8]) -> usize
    ensures { result ≡ common word.now (drop at text.now) }
{
    let mut i = at;
    let mut n = 0;
    while n < word.len() && i < text.len() && text[i] == word[n] {
        n += 1;
        i += 1;
    }
    n
}

// The place behind a word, or none where it doesn't stand there.
fn after_word(text: &[u8], at: usize, word: &[u8]) -> Option<usize>
    requires { 0 < length word.now }
    ensures stands { IfSome result (λ n. begins word.now (drop at text.now) ≡ true) }
    ensures behind { IfSome result (λ n. drop n text.now ≡ drop (length word.now) (drop at text.now)) }
    ensures next { IfSome result (λ n. n ≡ at + length word.now) }
    ensures within { IfSome result (λ n. n ≤ length text.now) }
    ensures lacks { IfNone result (begins word.now (drop at text.now) ≡ false) }
{
    if common(text, at, word) == word.len() {
        Some(at + word.len())
    } else {
        None
    }
}

/// How many bytes of a word stand at a place, or `far` where it is more.
pub fn farther(text: &[u8], at: usize, word: &[u8], far: usize) -> usize
    ensures { result ≡ max far (common word.now (drop at text.now)) }
{
    far.max(common(text, at, word))
}

/// The place that lies so far behind another, or the end.
pub fn place(text: &[u8], at: usize, far: usize) -> usize
    ensures behind { drop result text.now ≡ drop far (drop at text.now) }
    ensures within { result ≤ length text.now }
{
    if at < text.len() && far < text.len() - at {
        at + far
    } else {
        text.len()
    }
}

/// One word, which isn't empty.
#[tactic(auto, using(crate::proofs::Exactness::fixed_exactly))]
pub fn read_fixed(text: &[u8], at: usize, word: &[u8]) -> Result<((), usize), Fault>
    requires { 0 < length word.now }
    ensures read { Reads text.now result (fixed_read word.now (drop at text.now)) }
    ensures exact { ReadsExactly (alone {A = Unit {0}} tt word.now) text.now at result }
    ensures next { IfOk result (λ v. v.1 ≡ at + length word.now) }
    ensures ahead { Ahead text.now at result }
    ensures memory { AsksNoMemory result }
{
    match after_word(text, at, word) {
        Some(next) => Ok(((), next)),
        None => Err(Fault::At(place(text, at, farther(text, at, word, 0)))),
    }
}
