//! Reading of variables with their sorts.

ghost use Rattle.std.specs.Prelude.{◌≤◌, [], length};
ghost use Rattle.ae_syntax.specs.declared.cursor.TheConstants.{DEPTH_LIMIT};
ghost use Rattle.ae_syntax.specs.Grammar.{of_groups};
ghost use Rattle.ae_syntax.specs.Inner.Machine.{items_wants, element_wants};
ghost use Rattle.ae_syntax.specs.Inner.Reading.{Answered};
ghost use Rattle.ae_syntax.specs.Parts.{group, groups};

use crate::cursor::{stands_sign, take_sign};
use crate::exprs::Group;
use crate::faults::Refusal;
use crate::nodes::group_of;
use crate::read_items::read_item_list;
use crate::read_types::read_type;
use crate::spans::List;
use ae_lex::{Sign, Token, TokenKind, TokenList};
use std::alloc::Global;

// Variables with their sort.
fn read_group(
    alloc: Global,
    tokens: &TokenList,
    at: usize,
    depth: usize,
) -> Result<(Group, usize), Refusal>
    requires within { at ≤ length tokens.now }
    requires shallow { depth ≤ DEPTH_LIMIT }
    ensures { Answered (λ p. group p) (element_wants of_groups depth) [] tokens.now 8 at result }
{
    let (names, to) = read_item_list(alloc, tokens, at, TokenKind::Ident, Sign::Comma)?;
    take_sign(tokens, to, Sign::Colon)?;
    let (sort, to) = read_type(alloc, tokens, to + 1, depth)?;
    Ok((group_of(names, sort), to))
}

/// Groups of variables parted by commas.
pub fn read_groups(
    alloc: Global,
    tokens: &TokenList,
    at: usize,
    depth: usize,
) -> Result<(List<Group>, usize), Refusal>
    requires within { at ≤ length tokens.now }
    requires shallow { depth ≤ DEPTH_LIMIT }
    ensures { Answered (λ p. groups p) (items_wants of_groups depth) [] tokens.now 8 at result }
{
    let mut found = List::new(alloc);
    let (first, to) = read_group(alloc, tokens, at, depth)?;
    found.push(first)?;
    let mut end = to;
    while stands_sign(tokens, end, Sign::Comma) {
        let (group, to) = read_group(alloc, tokens, end + 1, depth)?;
        found.push(group)?;
        end = to;
    }
    Ok((found, end))
}
