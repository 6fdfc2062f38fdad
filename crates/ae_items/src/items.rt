//! The axiom or goal that a typed declaration gives.

ghost use Rattle.std.specs.Prelude.{◌≡◌, length, IfOk};
ghost use Rattle.std.specs.Str.{IsUtf8};
ghost use Rattle.ae_declaration_typing.specs.Drafts.{draft_of};
ghost use Rattle.ae_elab.specs.Nodes.{claim_at, entries_of};
ghost use Rattle.ae_elab.specs.Numbering as rule;
ghost use Rattle.ae_elab.specs.Numbering.{sorts_in, variables_among_sorts};
ghost use Rattle.ae_elab.specs.Problems.{item_as, item_of};
ghost use Rattle.ae_elab.specs.Scope.{name_in};
ghost use Rattle.ae_types.specs.Bound.{bound};

use ae_core::formulas::Formula;
use ae_core::problems::Item;
use ae_core::words::Word;
use ae_declaration_typing::Draft;
use ae_elab::names::word_of;
use ae_elab::nodes::Node;
use ae_elaboration::numbering::{numbered, variables_of};
use ae_elaboration::variables::Variables;
use ae_syntax::spans::Span;
use ae_translation::{both, formula_at, release_formula};
use ae_types::Bindings;
use std::alloc::{AllocError, Global};

// The bytes at a place of the text: those that are there.
fn bytes_at<'a>(text: &'a [u8], place: Span) -> &'a [u8]
    ensures { result.now ≡ name_in text.now place }
{
    let to = (place.to as usize).min(text.len());
    let from = (place.from as usize).min(to);
    &text[from..to]
}

// The name at a place of the text.
fn name_of<'a>(text: &'a [u8], place: Span) -> &'a str
    requires { IsUtf8 (name_in text.now place) }
    ensures { result.now ≡ name_in text.now place }
{
    match str::from_utf8(bytes_at(text, place)) {
        Ok(name) => name,
        Err(_error) => unreachable!(),
    }
}

// An axiom or a goal of this name, with as many type variables.
fn named(is_goal: bool, name: Word, count: usize, body: Formula) -> Item
    ensures { result ≡ item_as is_goal name count body }
{
    if is_goal {
        Item::Goal {
            name,
            rigid: count,
            body,
        }
    } else {
        Item::Axiom {
            name,
            vars: count,
            body,
        }
    }
}

// An axiom or a goal of a formula, whose type variables have their places among these as numbers.
fn numbered_by(
    alloc: Global,
    is_goal: bool,
    name: &str,
    variables: &Variables,
    formula: &Formula,
) -> Result<Item, AllocError>
    ensures { IfOk result (λ i. i ≡ item_as is_goal name.now (length variables.now) (rule.numbered is_goal variables.now formula.now)) }
{
    let body = numbered(alloc, is_goal, variables, formula);
    let (name, body) = both(word_of(alloc, name), body)?;
    Ok(named(is_goal, name, variables.len(), body))
}

// An axiom or a goal of a formula, whose type variables are numbered by first occurrence.
fn numbered_item(
    alloc: Global,
    is_goal: bool,
    name: &str,
    formula: &Formula,
) -> Result<Item, AllocError>
    ensures { IfOk result (λ i. i ≡ item_as is_goal name.now (length (variables_among_sorts (sorts_in formula.now)))
        (rule.numbered is_goal (variables_among_sorts (sorts_in formula.now)) formula.now)) }
{
    let variables = variables_of(alloc, formula)?;
    numbered_by(alloc, is_goal, name, &variables, formula)
}

/// The axiom or goal of a typed declaration: its formula under the typing `bindings`, with its type variables numbered by first
/// occurrence, from 0. `nodes` are the typed trees.
pub fn item(
    alloc: Global,
    text: &[u8],
    bindings: &Bindings,
    nodes: &[Node],
    draft: &Draft,
) -> Result<Item, AllocError>
    requires { IsUtf8 (name_in text.now draft.now.name) }
    ensures { IfOk result (λ i. i ≡ item_of (bound bindings.now) (draft_of text.now draft.now (claim_at (entries_of nodes.now) draft.now.claim))) }
{
    let name = name_of(text, draft.name);
    let formula = formula_at(alloc, bindings, &[], nodes, draft.claim)?;
    let item = numbered_item(alloc, draft.is_goal, name, &formula);
    release_formula(alloc, formula);
    item
}
