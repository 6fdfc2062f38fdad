//! Both sides of rules and pairs, and the lines of rules.
ghost use Rattle.std.specs.Prelude.{◌≡◌, drop};
ghost use Rattle.ae_readers.specs.Readers.{Reads, ReadsExactly, Ahead};
ghost use Rattle.ae_rulereader.specs.Symbols.{sides_read, rule_read};
ghost use Rattle.ae_stategrammar.specs.Sides.{sides};
ghost use Rattle.ae_stategrammar.specs.States.{rule};

use crate::symbols::read_symbol;
use crate::tables::AcTables;
use ae_base::lists::List;
use ae_core::problems::AcSymbol;
use ae_journal::systems::RuleEntry;
use ae_readers::{Fault, read_fixed};
use ae_valuereader::read_multiset;
use std::alloc::Global;

/// A symbol with both sides, up to the end of the line.
pub fn read_sides(
    alloc: Global,
    tables: &AcTables<'_>,
    text: &[u8],
    at: usize,
) -> Result<((AcSymbol, (List<usize>, List<usize>)), usize), Fault>
    ensures read { Reads text.now result ((sides tables.now.terms.signature.now).read (drop at text.now)) }
    ensures exact { ReadsExactly (sides tables.now.terms.signature.now) text.now at result }
    ensures ahead { Ahead text.now at result }
{
    read_parts(alloc, tables, text, at)
}

fn read_parts(
    alloc: Global,
    tables: &AcTables<'_>,
    text: &[u8],
    at: usize,
) -> Result<((AcSymbol, (List<usize>, List<usize>)), usize), Fault>
    ensures read { Reads text.now result (sides_read tables.now.terms.signature.now (drop at text.now)) }
    ensures ahead { Ahead text.now at result }
{
    let (symbol, behind) = read_symbol(alloc, tables, text, at)?;
    let (_, open) = read_fixed(text, behind, b"[")?;
    let (left, closed) = read_multiset(alloc, text, open)?;
    let (_, second) = read_fixed(text, closed, b" [")?;
    let (right, end) = read_multiset(alloc, text, second)?;
    let (_, next) = read_fixed(text, end, b"\n")?;
    Ok(((symbol, (left, right)), next))
}

/// The line of a rule: `rule `, its symbol and both sides.
pub fn read_rule(
    alloc: Global,
    tables: &AcTables<'_>,
    text: &[u8],
    at: usize,
) -> Result<(RuleEntry, usize), Fault>
    ensures read { Reads text.now result ((rule tables.now.terms.signature.now).read (drop at text.now)) }
    ensures exact { ReadsExactly (rule tables.now.terms.signature.now) text.now at result }
    ensures ahead { Ahead text.now at result }
{
    read_entry(alloc, tables, text, at)
}

fn read_entry(
    alloc: Global,
    tables: &AcTables<'_>,
    text: &[u8],
    at: usize,
) -> Result<(RuleEntry, usize), Fault>
    ensures read { Reads text.now result (rule_read tables.now.terms.signature.now (drop at text.now)) }
    ensures ahead { Ahead text.now at result }
{
    let (_, behind) = read_fixed(text, at, b"rule ")?;
    let ((symbol, (left, right)), next) = read_sides(alloc, tables, text, behind)?;
    let entry = RuleEntry {
        symbol,
        left,
        right,
    };
    Ok((entry, next))
}
