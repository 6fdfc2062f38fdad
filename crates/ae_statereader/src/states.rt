//! Whole states.
ghost use Rattle.std.specs.Prelude.{drop};
ghost use Rattle.ae_choices.specs.Whole.{ReadsWhole};
ghost use Rattle.ae_readers.specs.Readers.{Reads, ReadsExactly, Ahead};
ghost use Rattle.ae_stategrammar.specs.States.{state};
ghost use Rattle.ae_statereader.specs.States.{state_read};

use crate::sections::read_literals;
use ae_core::problems::Signature;
use ae_journal::systems::{Saturated, System};
use ae_readers::{Fault, byte_at, read_fixed};
use ae_rulereader::AcTables;
use std::alloc::Global;

fn read_parts(
    alloc: Global,
    tables: &AcTables<'_>,
    text: &[u8],
    at: usize,
) -> Result<(Saturated, usize), Fault>
    ensures read { Reads text.now result (state_read tables.now.terms.signature.now (drop at text.now)) }
    ensures ahead { Ahead text.now at result }
{
    let (_, behind) = read_fixed(text, at, b"state 1\n")?;
    let ((literals, (names, (values, (rules, (point, _))))), next) = read_literals(
        alloc, tables, text, behind,
    )?;
    let system = System {
        names,
        values,
        rules,
    };
    Ok((
        Saturated {
            literals,
            system,
            point,
        },
        next,
    ))
}

/// The state that begins at a place.
pub fn read_state_at(
    alloc: Global,
    tables: &AcTables<'_>,
    text: &[u8],
    at: usize,
) -> Result<(Saturated, usize), Fault>
    ensures read { Reads text.now result ((state tables.now.terms.signature.now).read (drop at text.now)) }
    ensures exact { ReadsExactly (state tables.now.terms.signature.now) text.now at result }
    ensures ahead { Ahead text.now at result }
{
    read_parts(alloc, tables, text, at)
}

fn read_whole(alloc: Global, tables: &AcTables<'_>, text: &[u8]) -> Result<Saturated, Fault>
    ensures { ReadsWhole (state tables.now.terms.signature.now) text.now result }
{
    match read_state_at(alloc, tables, text, 0) {
        Err(fault) => Err(fault),
        Ok((found, next)) => {
            if let Some(_) = byte_at(text, next) {
                return Err(Fault::At(next));
            }
            Ok(found)
        }
    }
}

/// The state whose text this is, with nothing behind it. `At` with the first byte that no text of a state continues (the end of the text where it ends too early),
/// `WideNumber` with the first numeral outside the limits before any such byte, `Memory` where there is none for what the text says.
pub fn read_state(alloc: Global, signature: &Signature, text: &[u8]) -> Result<Saturated, Fault>
    ensures { ReadsWhole (state signature.now) text.now result }
{
    match AcTables::new(alloc, signature) {
        Err(_) => Err(Fault::Memory),
        Ok(tables) => read_whole(alloc, &tables, text),
    }
}
