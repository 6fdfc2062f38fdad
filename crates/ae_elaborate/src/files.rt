//! The problem of a file.

ghost use Rattle.std.specs.Prelude.{◌≡◌, ℕ, List, IfOk, IfErr};
ghost use Rattle.std.specs.List.{AllByRecursion};
ghost use Rattle.std.specs.Str.{IsUtf8};
ghost use Rattle.ae_core.specs.declared.problems.Item.{Item};
ghost use Rattle.ae_elab.specs.Names.{IsName, names_in_file};
ghost use Rattle.ae_elab.specs.Problems.{IsTyped};
ghost use Rattle.ae_elab.specs.Scope.{name_in};
ghost use Rattle.ae_elaborate.specs.Faults.{IsFault};
ghost use Rattle.ae_elaborate.specs.Inner.Typed.{IsLarge, IsProblemOf};
ghost use Rattle.ae_file_typing.specs.Files.{IsUntyped};
ghost use Rattle.ae_syntax.specs.declared.decls.File.{File};

use crate::drafts::{items, too_large};
use ae_core::lists::List;
use ae_core::problems::{Item, Problem, Signature};
use ae_elab::faults::TypeFault;
use ae_file_typing::{TypedFile, typed_file};
use ae_signatures::copy_signature;
use ae_syntax::decls::File;
use ae_translation::both;
use std::alloc::{AllocError, Global};

// The declarations with their axioms and goals.
fn problem_of(
    alloc: Global,
    signature: &Signature,
    items: Result<List<Item>, AllocError>,
) -> Result<Problem, AllocError>
    ensures { (is : List Item) → IfOk items (λ zs. zs ≡ is) → IfOk result (λ p. (p.signature ≡ signature.now) × (p.items ≡ is)) }
{
    let copy = copy_signature(alloc, signature);
    let (signature, items) = both(copy, items)?;
    Ok(Problem { signature, items })
}

// The problem of a file that is typed, or the first declaration that is too large.
fn problem<'a>(alloc: Global, text: &'a [u8], typed: &TypedFile<'a>) -> Result<Problem, TypeFault>
    requires { AllByRecursion (λ d. IsUtf8 (name_in text.now d.name)) typed.now.drafts }
    ensures problem { IfOk result (IsProblemOf text.now typed.now) }
    ensures large { IfErr result (IsLarge text.now typed.now) }
{
    let nodes = typed.typing.environment.nodes();
    let bindings = &typed.typing.bindings;
    let drafts = typed.drafts.as_slice();
    let large = too_large(alloc, bindings, nodes, drafts)?;
    match large {
        Some(place) => Err(TypeFault::TooLarge {
            from: place.from as usize,
            to: place.to as usize,
        }),
        None => {
            let all = items(alloc, text, bindings, nodes, drafts);
            let problem = problem_of(alloc, typed.context.known.signature(), all)?;
            Ok(problem)
        }
    }
}

// Why a file isn't typed. Typing looks at no sizes, so it never answers that a declaration is too large; if it did, nothing
// would be said of the file.
fn untyped(fault: TypeFault) -> TypeFault
    ensures { (text : List ℕ) (file : File) → IsUntyped text file fault → IsFault text file result }
{
    match fault {
        TypeFault::TooLarge { from: _, to: _ } => TypeFault::Memory(AllocError),
        other => other,
    }
}

/// The problem of a file: its declarations, with its axioms and goals as formulas under a most general typing. Or why it has
/// none: the first condition of typing that has no solution together with those before it, or where it has a typing, the first
/// declaration with more nodes or levels than are allowed. `Memory` says nothing of the file.
pub fn elaborate<'a>(alloc: Global, text: &'a [u8], file: &File) -> Result<Problem, TypeFault>
    requires names { AllByRecursion (IsName text.now) (names_in_file file.now) }
    ensures problem { IfOk result (IsTyped text.now file.now) }
    ensures fault { IfErr result (IsFault text.now file.now) }
{
    match typed_file(alloc, text, file) {
        Ok(typed) => problem(alloc, text, &typed),
        Err(fault) => Err(untyped(fault)),
    }
}
