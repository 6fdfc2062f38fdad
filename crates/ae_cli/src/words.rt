//! The options that words state.
ghost use Rattle.std.specs.Prelude.{◌≡◌, ◌≢◌, [], map, string_bytes, IfOk, IfErr, MatchResult, Some};
ghost use Rattle.clap.specs.Words.{app_of, fault_of, found_of, kind_of, matches_of, rows_of};
ghost use Rattle.ae_cli.specs.Program.{AreRefused, States, program, stated as stated_by};
ghost use Rattle.ae_cli.specs.Words.{AreRight};

use crate::command::command;
use crate::options::{CliFail, Options};
use crate::reading::stated;
use clap::error::ErrorKind;
use clap::{ArgMatches, Command, Error};
use std::alloc::{AllocError, Global};

// Whether clap refused the words, or had no memory.
fn failed(error: Error) -> CliFail
    ensures { result ≡ CliFail.Usage → kind_of error ≢ ErrorKind.OutOfMemory }
{
    if error.kind() == ErrorKind::OutOfMemory {
        CliFail::Memory(AllocError)
    } else {
        CliFail::Usage
    }
}

// The matches of the words.
fn matches<'a>(command: Command<'a>, words: &'a [String]) -> Result<ArgMatches<'a>, CliFail>
    requires { app_of command ≡ program }
    ensures taken { IfOk result (λ m. fault_of program (map string_bytes words.entry.now) ≡ []) }
    ensures rows { IfOk result (λ m. rows_of (found_of m) ≡ matches_of program (map string_bytes words.entry.now)) }
    ensures usage { IfErr result (λ e. e ≡ CliFail.Usage → fault_of program (map string_bytes words.entry.now) ≢ []) }
{
    match command.try_get_matches_from(words) {
        Ok(matches) => Ok(matches),
        Err(error) => Err(failed(error)),
    }
}

// What clap makes of the words.
fn read(alloc: Global, words: &[String]) -> Result<Options, CliFail>
    ensures taken { IfOk result (λ o. fault_of program (map string_bytes words.now) ≡ []) }
    ensures stated { IfOk result (λ o. stated_by (matches_of program (map string_bytes words.now)) ≡ Some o) }
    ensures usage { IfErr result (λ e. e ≡ CliFail.Usage → AreRefused (map string_bytes words.now)) }
{
    let command = command(alloc).map_err(CliFail::Memory)?;
    let matches = matches(command, words)?;
    match stated(&matches) {
        Some(options) => Ok(options),
        None => Err(CliFail::Usage),
    }
}

/// The options that the words after the program's name state. Right words are answered by what they say: each of `--steps-bound N` (1 to 1,000,000, else
/// 20,000), `--gen-bound G` (0 to 20, else 6), `--pick P` (`first`, `last` or `mixed`, else `first`), and `--check` or `--demo N` (1 to 10,000) at most once, a
/// value in the next word or behind `=`. Other words are answered by what `clap`'s matches of them state. `Usage` comes only where `clap` refuses the words for
/// another cause than memory (`--help` among them), where `--pick` has another value, or where `--check` stands with `--demo`.
pub fn options(alloc: Global, words: &[String]) -> Result<Options, CliFail>
    ensures right { (o : Options) → AreRight (map string_bytes words.now) o → MatchResult result (λ given. given ≡ o) (λ e. e ≢ CliFail.Usage) }
    ensures stated { IfOk result (States (map string_bytes words.now)) }
    ensures usage { IfErr result (λ e. e ≡ CliFail.Usage → AreRefused (map string_bytes words.now)) }
{
    read(alloc, words)
}
