//! A whole file.

ghost use Rattle.std.specs.Prelude.{◌≡◌, IfOk, IfErr};
ghost use Rattle.std.specs.List.{AllByRecursion};
ghost use Rattle.ae_elab.specs.Conditions.{IsPrincipal};
ghost use Rattle.ae_elab.specs.Declarations.{conditions_of, declared_by};
ghost use Rattle.ae_elab.specs.Names.{IsName, names_in_file};
ghost use Rattle.ae_elab.specs.Typings.{nodes_of};
ghost use Rattle.ae_file_typing.specs.Files.{IsUntyped, drafts_at};
ghost use Rattle.ae_types.specs.Bound.{bound};

use crate::declarations::declarations;
use ae_core::lists::List;
use ae_declaration_typing::Draft;
use ae_elab::environment::Environment;
use ae_elab::faults::TypeFault;
use ae_elab::known::Known;
use ae_elab::passing::Passing;
use ae_elab::typings::{Context, Typing};
use ae_syntax::decls::File;
use ae_types::Bindings;
use std::alloc::Global;

/// A typed file: what is declared, the most general typing with the nodes, and the axioms and goals with the places of their
/// formulas among the nodes.
#[derive(Drop)]
pub struct TypedFile<'a> {
    pub context: Context<'a>,
    pub typing: Typing<'a>,
    pub drafts: List<Draft>,
}

/// Types a file. Its faults are those of typing, the first condition of the file that has no solution together with those
/// before it; whether a declaration is too large isn't looked at.
pub fn typed_file<'a>(
    alloc: Global,
    text: &'a [u8],
    file: &File,
) -> Result<TypedFile<'a>, TypeFault>
    requires names { AllByRecursion (IsName text.now) (names_in_file file.now) }
    ensures principal { IfOk result (λ t. IsPrincipal (conditions_of text.now file.now) (bound t.typing.bindings)) }
    ensures signature { IfOk result (λ t. t.context.known ≡ (declared_by text.now file.now).signature) }
    ensures drafts { IfOk result (λ t. drafts_at text.now (nodes_of t.typing) t.drafts ≡ (declared_by text.now file.now).drafts) }
    ensures fault { IfErr result (IsUntyped text.now file.now) }
{
    let mut context = Context {
        alloc,
        text,
        known: Known::new(alloc),
    };
    let mut typing = Typing {
        passing: Passing::new(alloc, 0),
        bindings: Bindings::new(alloc),
        environment: Environment::new(alloc),
    };
    match declarations(&mut context, &mut typing, file.decls.as_slice()) {
        Ok(drafts) => Ok(TypedFile {
            context,
            typing,
            drafts,
        }),
        Err(fault) => Err(fault),
    }
}
