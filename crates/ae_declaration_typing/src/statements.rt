//! Axioms and goals.

ghost use Rattle.std.specs.Prelude.{◌≡◌, []};
ghost use Rattle.ae_declaration_typing.specs.Drafts.{DraftAnswer};
ghost use Rattle.ae_elab.specs.Declarations as rule;
ghost use Rattle.ae_elab.specs.Typings.{locals_of};
ghost use Rattle.ae_expressions.specs.NamedParts.{AreNamed};

use crate::drafts::Draft;
use ae_elab::faults::TypeFault;
use ae_elab::typings::{Context, Typing};
use ae_expression_typing::expressions::formula_of;
use ae_syntax::exprs::Expr;
use ae_syntax::spans::Span;

/// An axiom or a goal. Its name isn't looked up.
pub fn statement<'a>(
    context: &Context<'a>,
    typing: &mut Typing<'a>,
    place: Span,
    is_goal: bool,
    name: Span,
    body: &Expr,
) -> Result<Draft, TypeFault>
    requires locals { locals_of typing.old ≡ [] }
    requires names { AreNamed context.now.text.now body.now }
    ensures { DraftAnswer context.now.text.now (rule.statement_decl context.now.text.now context.now.known place is_goal name body.now) context.now.known typing.old typing.new result }
{
    let claim = formula_of(context, typing, body)?;
    Ok(Draft {
        place,
        is_goal,
        name,
        claim,
    })
}
