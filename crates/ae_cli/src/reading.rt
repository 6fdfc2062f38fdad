//! What the values of the options say.
ghost use Rattle.std.specs.Prelude.{◌≡◌, ℕ, codes, Some};
ghost use Rattle.clap.specs.Words.{first_value, found_of, one_of, rows_of};
ghost use Rattle.ae_cli.specs.Program as spec;

use crate::options::{Mode, Options};
use ae_search_options::limits::Limits;
use clap::ArgMatches;

/// The number of the bound on steps.
fn steps(matches: &ArgMatches) -> Option<usize>
    ensures { result ≡ spec.number_or 64 20000 (one_of (codes "steps-bound") (rows_of (found_of matches.now))) }
{
    match matches.try_get_one::<usize>("steps-bound") {
        Ok(Some(number)) => Some(number),
        Ok(None) => Some(20_000),
        Err(_) => None,
    }
}

/// The number of the bound on generations.
fn generations(matches: &ArgMatches) -> Option<u32>
    ensures { result ≡ spec.number_or 32 6 (one_of (codes "gen-bound") (rows_of (found_of matches.now))) }
{
    match matches.try_get_one::<u32>("gen-bound") {
        Ok(Some(number)) => Some(number),
        Ok(None) => Some(6),
        Err(_) => None,
    }
}

/// The number of the picks of this name.
fn pick_of(name: &str) -> Option<usize>
    ensures { result ≡ spec.pick_named name.now }
{
    match name {
        "first" => Some(0),
        "last" => Some(1),
        "mixed" => Some(2),
        _ => None,
    }
}

/// The number of the picks.
fn which(matches: &ArgMatches) -> Option<usize>
    ensures { result ≡ spec.pick_or_first (first_value (found_of matches.now) (codes "pick")) }
{
    match matches.get_str("pick") {
        None => Some(0),
        Some(name) => pick_of(name),
    }
}

/// Whether the output is to be checked.
fn is_check(matches: &ArgMatches) -> bool
    ensures { result ≡ spec.is_yes (first_value (found_of matches.now) (codes "check")) }
{
    match matches.get_str("check") {
        None => false,
        Some(text) => text == "true",
    }
}

/// What the program is to do.
fn mode(matches: &ArgMatches) -> Option<Mode>
    ensures { result ≡ spec.mode_of (spec.is_yes (first_value (found_of matches.now) (codes "check"))) (one_of (codes "demo") (rows_of (found_of matches.now))) }
{
    match matches.try_get_one::<u32>("demo") {
        Err(_) => None,
        Ok(None) => Some(if is_check(matches) {
            Mode::Check
        } else {
            Mode::Prove
        }),
        Ok(Some(_)) if is_check(matches) => None,
        Ok(Some(goals)) => Some(Mode::Demo(goals)),
    }
}

/// What the values state together.
pub fn stated(matches: &ArgMatches) -> Option<Options>
    ensures { result ≡ spec.stated (rows_of (found_of matches.now)) }
{
    let limits = Limits {
        steps: steps(matches)?,
        generations: generations(matches)?,
    };
    Some(Options {
        limits,
        which: which(matches)?,
        mode: mode(matches)?,
    })
}
