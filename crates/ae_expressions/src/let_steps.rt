//! A bound name more, or one less, in a typing.

ghost use Rattle.std.specs.Prelude.{OnOk};
ghost use Rattle.ae_elab.specs.Environments.{IsMeaning, meaning_in};
ghost use Rattle.ae_expressions.specs.Inner.Bindings.{Enters, Leaves};
ghost use Rattle.ae_elab.specs.Names.{IsName};
ghost use Rattle.ae_elab.specs.Typings.{nodes_of};

use ae_elab::environment::Meaning;
use ae_elab::names::name_at;
use ae_elab::typings::{Context, Typing};
use ae_syntax::spans::Span;
use std::alloc::AllocError;

/// Binds the name at a place of the text.
pub fn enter<'a>(
    context: &Context<'a>,
    typing: &mut Typing<'a>,
    name: Span,
    meaning: Meaning,
) -> Result<(), AllocError>
    requires name { IsName context.now.text.now name }
    requires stands { IsMeaning (nodes_of typing.old) meaning }
    ensures { OnOk result (Enters context.now name (meaning_in (nodes_of typing.old) meaning) typing.old typing.new) }
{
    typing
        .environment
        .enter(name_at(context.text, name), meaning)
}

/// Leaves the innermost bound name.
pub fn leave<'a>(typing: &mut Typing<'a>)
    ensures { Leaves typing.old typing.new }
{
    typing.environment.leave();
}
