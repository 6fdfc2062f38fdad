//! Lines of one kind that stand one after another.
ghost use Rattle.std.specs.Prelude.{◌≡◌, ◌≤◌, length, drop};
ghost use Rattle.ae_statereader.specs.Items.{literal_item, name_item, point_item, rule_item, value_item};
ghost use Rattle.ae_statereader.specs.Lines.{AnyLine, HasNumber, LinesRead, Onward, starts};

use crate::lines::{read_literal_line, read_name_line, read_value_line};
use crate::points::read_point;
use ae_base::lists::List;
use ae_core::formulas::Lit;
use ae_core::terms::Term;
use ae_journal::systems::{PointAt, RuleEntry};
use ae_num::forms::Value;
use ae_readers::{Fault, byte_at};
use ae_rulereader::{AcTables, read_rule};
use ae_termreader::Tables;
use std::alloc::Global;

// Whether this byte stands at a place.
fn stands(text: &[u8], at: usize, byte: u8) -> bool
    ensures { result ≡ starts byte (drop at text.now) }
{
    match byte_at(text, at) {
        None => false,
        Some(found) => found == byte,
    }
}

/// The lines of literals that stand from a place on.
pub fn read_literal_lines(
    alloc: Global,
    tables: &Tables<'_>,
    text: &[u8],
    from: usize,
) -> Result<(List<Lit>, usize), Fault>
    ensures lines { LinesRead AnyLine (literal_item tables.now.signature.now) 108 text.now from result }
    ensures onward { Onward text.now from result }
{
    let mut literals = List::new(alloc);
    let mut at = from;
    'lines: loop {
        if !stands(text, at, b'l') {
            return Ok((literals, at));
        }
        let (literal, next) = match read_literal_line(alloc, tables, text, at) {
            Ok(found) => found,
            Err(fault) => return Err(fault),
        };
        if let Err(_) = literals.push(literal) {
            return Err(Fault::Memory);
        }
        at = next;
    }
}

/// The lines of names that stand from a place on, numbered from 0.
pub fn read_name_lines(
    alloc: Global,
    tables: &Tables<'_>,
    text: &[u8],
    from: usize,
) -> Result<(List<Term>, usize), Fault>
    ensures lines { LinesRead HasNumber (name_item tables.now.signature.now) 110 text.now from result }
    ensures onward { Onward text.now from result }
{
    let mut terms = List::new(alloc);
    let mut at = from;
    'lines: loop {
        if !stands(text, at, b'n') {
            return Ok((terms, at));
        }
        let number = terms.len();
        let (term, next) = match read_name_line(alloc, tables, text, at, number) {
            Ok(found) => found,
            Err(fault) => return Err(fault),
        };
        if let Err(_) = terms.push(term) {
            return Err(Fault::Memory);
        }
        at = next;
    }
}

/// The lines of values that stand from a place on, numbered from 0.
pub fn read_value_lines(
    alloc: Global,
    text: &[u8],
    from: usize,
) -> Result<(List<Value>, usize), Fault>
    ensures lines { LinesRead HasNumber value_item 118 text.now from result }
    ensures onward { Onward text.now from result }
{
    let mut values = List::new(alloc);
    let mut at = from;
    'lines: loop {
        if !stands(text, at, b'v') {
            return Ok((values, at));
        }
        let number = values.len();
        let (value, next) = match read_value_line(alloc, text, at, number) {
            Ok(found) => found,
            Err(fault) => return Err(fault),
        };
        if let Err(_) = values.push(value) {
            return Err(Fault::Memory);
        }
        at = next;
    }
}

/// The lines of rules that stand from a place on.
pub fn read_rule_lines(
    alloc: Global,
    tables: &AcTables<'_>,
    text: &[u8],
    from: usize,
) -> Result<(List<RuleEntry>, usize), Fault>
    ensures lines { LinesRead AnyLine (rule_item tables.now.terms.signature.now) 114 text.now from result }
    ensures onward { Onward text.now from result }
{
    let mut rules = List::new(alloc);
    let mut at = from;
    'lines: loop {
        if !stands(text, at, b'r') {
            return Ok((rules, at));
        }
        let (rule, next) = match read_rule(alloc, tables, text, at) {
            Ok(found) => found,
            Err(fault) => return Err(fault),
        };
        if let Err(_) = rules.push(rule) {
            return Err(Fault::Memory);
        }
        at = next;
    }
}

/// The lines of points that stand from a place on.
pub fn read_point_lines(
    alloc: Global,
    text: &[u8],
    from: usize,
) -> Result<(List<PointAt>, usize), Fault>
    ensures lines { LinesRead AnyLine point_item 112 text.now from result }
    ensures onward { Onward text.now from result }
{
    let mut points = List::new(alloc);
    let mut at = from;
    'lines: loop {
        if !stands(text, at, b'p') {
            return Ok((points, at));
        }
        let (point, next) = match read_point(text, at) {
            Ok(found) => found,
            Err(fault) => return Err(fault),
        };
        if let Err(_) = points.push(point) {
            return Err(Fault::Memory);
        }
        at = next;
    }
}
