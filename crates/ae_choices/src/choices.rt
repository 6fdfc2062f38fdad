//! One of a few words.
ghost use Rattle.std.specs.Prelude.{◌≡◌, ◌≤◌, ◌<◌, length, drop, true, false, IfSome, IfNone};
ghost use Rattle.ae_codes.specs.Tables.{begins};

use ae_readers::read_fixed;

/// The place behind a word, which isn't empty, or none where it doesn't stand there.
#[tactic(auto, using(crate::proofs::ChoiceForms::fixed_begins, crate::proofs::ChoiceForms::fixed_behind, crate::proofs::ChoiceForms::fixed_lacks))]
pub fn behind_word(text: &[u8], at: usize, word: &[u8]) -> Option<usize>
    requires { 0 < length word.now }
    ensures stands { IfSome result (λ n. begins word.now (drop at text.now) ≡ true) }
    ensures behind { IfSome result (λ n. drop n text.now ≡ drop (length word.now) (drop at text.now)) }
    ensures ahead { IfSome result (λ n. at < n) }
    ensures within { IfSome result (λ n. n ≤ length text.now) }
    ensures lacks { IfNone result (begins word.now (drop at text.now) ≡ false) }
{
    match read_fixed(text, at, word) {
        Ok((_, next)) => Some(next),
        Err(_) => None,
    }
}
