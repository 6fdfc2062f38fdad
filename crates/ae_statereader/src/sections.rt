//! The sections of a state: lines of one kind, and all that stands behind them.
ghost use Rattle.std.specs.Prelude.{◌≡◌, drop};
ghost use Rattle.ae_readers.specs.Readers.{Reads, Ahead};
ghost use Rattle.ae_stategrammar.specs.States.{literals, names, points, rules, values};

use crate::runs::{
    read_literal_lines, read_name_lines, read_point_lines, read_rule_lines, read_value_lines,
};
use ae_base::lists::List;
use ae_core::formulas::Lit;
use ae_core::terms::Term;
use ae_journal::systems::{PointAt, RuleEntry};
use ae_num::forms::Value;
use ae_readers::{Fault, read_fixed};
use ae_rulereader::AcTables;
use std::alloc::Global;

/// Points, up to the end.
pub type Points = (List<PointAt>, ());
/// Rules, and the points behind them.
pub type Rules = (List<RuleEntry>, Points);
/// Values, and the rules behind them.
pub type Values = (List<Value>, Rules);
/// The terms of names, and the values behind them.
pub type Names = (List<Term>, Values);
/// Literals that stand, and the names behind them.
pub type Literals = (List<Lit>, Names);

fn read_points(alloc: Global, text: &[u8], at: usize) -> Result<(Points, usize), Fault>
    ensures read { Reads text.now result (points.read (drop at text.now)) }
    ensures ahead { Ahead text.now at result }
{
    let (lines, behind) = read_point_lines(alloc, text, at)?;
    let (end, next) = read_fixed(text, behind, b"end\n")?;
    Ok(((lines, end), next))
}

fn read_rules(
    alloc: Global,
    tables: &AcTables<'_>,
    text: &[u8],
    at: usize,
) -> Result<(Rules, usize), Fault>
    ensures read { Reads text.now result ((rules tables.now.terms.signature.now).read (drop at text.now)) }
    ensures ahead { Ahead text.now at result }
{
    let (lines, behind) = read_rule_lines(alloc, tables, text, at)?;
    let (rest, next) = read_points(alloc, text, behind)?;
    Ok(((lines, rest), next))
}

fn read_values(
    alloc: Global,
    tables: &AcTables<'_>,
    text: &[u8],
    at: usize,
) -> Result<(Values, usize), Fault>
    ensures read { Reads text.now result ((values tables.now.terms.signature.now).read (drop at text.now)) }
    ensures ahead { Ahead text.now at result }
{
    let (lines, behind) = read_value_lines(alloc, text, at)?;
    let (rest, next) = read_rules(alloc, tables, text, behind)?;
    Ok(((lines, rest), next))
}

fn read_names(
    alloc: Global,
    tables: &AcTables<'_>,
    text: &[u8],
    at: usize,
) -> Result<(Names, usize), Fault>
    ensures read { Reads text.now result ((names tables.now.terms.signature.now).read (drop at text.now)) }
    ensures ahead { Ahead text.now at result }
{
    let (lines, behind) = read_name_lines(alloc, &tables.terms, text, at)?;
    let (rest, next) = read_values(alloc, tables, text, behind)?;
    Ok(((lines, rest), next))
}

/// All that stands behind the first line of a state.
pub fn read_literals(
    alloc: Global,
    tables: &AcTables<'_>,
    text: &[u8],
    at: usize,
) -> Result<(Literals, usize), Fault>
    ensures read { Reads text.now result ((literals tables.now.terms.signature.now).read (drop at text.now)) }
    ensures ahead { Ahead text.now at result }
{
    let (lines, behind) = read_literal_lines(alloc, &tables.terms, text, at)?;
    let (rest, next) = read_names(alloc, tables, text, behind)?;
    Ok(((lines, rest), next))
}
