//! The axioms and goals of a typed file, and the first declaration that is too large.

ghost use Rattle.std.specs.Prelude.{◌≡◌, ℕ, List, map, IfOk};
ghost use Rattle.std.specs.List.{AllByRecursion};
ghost use Rattle.std.specs.Str.{IsUtf8};
ghost use Rattle.ae_core.specs.declared.terms.Sort.{Sort};
ghost use Rattle.ae_elab.specs.Conditions.{shown};
ghost use Rattle.ae_elab.specs.Nodes.{Entry, entries_of};
ghost use Rattle.ae_elab.specs.Problems.{item_of};
ghost use Rattle.ae_elab.specs.Scope.{name_in};
ghost use Rattle.ae_elaborate.specs.Inner.Typed.{large_place};
ghost use Rattle.ae_file_typing.specs.Files.{drafts_at};
ghost use Rattle.ae_sizes.specs.Small.{is_small_entry};
ghost use Rattle.ae_types.specs.Bound.{bound};

use ae_core::lists::List;
use ae_core::problems::Item;
use ae_declaration_typing::Draft;
use ae_elab::nodes::Node;
use ae_items::item;
use ae_sizes::{is_small_at, small_formulas};
use ae_syntax::spans::Span;
use ae_types::Bindings;
use std::alloc::{AllocError, Global};

// Where the first declaration stands that is larger than is allowed. `small` says of each node whether its formula isn't.
fn large_among(small: &[bool], drafts: &[Draft]) -> Option<Span>
    ensures { (text : List ℕ) (m : ℕ → Sort) (es : List Entry) → small.now ≡ map (is_small_entry m) es
        → result ≡ large_place (shown m) (drafts_at text es drafts.now) }
{
    for draft in drafts {
        if !is_small_at(small, draft.claim) {
            return Some(draft.place);
        }
    }
    None
}

/// Where the first declaration stands that has more nodes or levels than are allowed.
pub fn too_large(
    alloc: Global,
    bindings: &Bindings,
    nodes: &[Node],
    drafts: &[Draft],
) -> Result<Option<Span>, AllocError>
    ensures { IfOk result (λ place. (text : List ℕ) → place ≡ large_place (shown (bound bindings.now)) (drafts_at text (entries_of nodes.now) drafts.now)) }
{
    let small = small_formulas(alloc, bindings, nodes)?;
    Ok(large_among(small.as_slice(), drafts))
}

/// The axioms and goals in their order.
pub fn items(
    alloc: Global,
    text: &[u8],
    bindings: &Bindings,
    nodes: &[Node],
    drafts: &[Draft],
) -> Result<List<Item>, AllocError>
    requires { AllByRecursion (λ d. IsUtf8 (name_in text.now d.name)) drafts.now }
    ensures { IfOk result (λ is. is ≡ map (item_of (bound bindings.now)) (drafts_at text.now (entries_of nodes.now) drafts.now)) }
{
    let mut all = List::new(alloc);
    for draft in drafts {
        let next = item(alloc, text, bindings, nodes, draft)?;
        all.push(next)?;
    }
    Ok(all)
}
