//! Declarations, one after another.

ghost use Rattle.std.specs.Prelude.{◌≡◌, ◌++◌, ℕ, List, [], IfErr, OnOk, option_to_list};
ghost use Rattle.std.specs.List.{AllByRecursion};
ghost use Rattle.ae_core.specs.declared.problems.Signature.{Signature};
ghost use Rattle.ae_declaration_typing.specs.Drafts.{DraftAnswer};
ghost use Rattle.ae_elab.specs.Declarations as rule;
ghost use Rattle.ae_elab.specs.Names.{IsName, names_in_kind};
ghost use Rattle.ae_elab.specs.Rules.{Passed, Rule};
ghost use Rattle.ae_elab.specs.Steps.{IsHalted, IsTaken};
ghost use Rattle.ae_elab.specs.Typings.{locals_of};
ghost use Rattle.ae_elab.specs.declared.typings.Typing as code;
ghost use Rattle.ae_file_typing.specs.Files.{AreNamedDecls};
ghost use Rattle.ae_file_typing.specs.Inner.Walks.{DeclaresAnswer, FileAnswer, with_passing};

use ae_core::lists::List;
use ae_declaration_typing::Draft;
use ae_declaration_typing::definitions::{function, predicate};
use ae_declaration_typing::statements::statement;
use ae_elab::declarations::{enumeration, logic, type_decl};
use ae_elab::faults::TypeFault;
use ae_elab::passing::Passing;
use ae_elab::typings::{Context, Typing};
use ae_syntax::decls::{Decl, DeclKind};
use ae_syntax::spans::Span;
use std::alloc::{AllocError, Global};
use std::mem::replace;

// A declaration that gives no axiom and no goal.
fn no_draft(declared: Result<(), TypeFault>) -> Result<Option<Draft>, TypeFault>
    ensures { (text : List ℕ) (r : Rule rule.Declared) (sig : Signature) (old : code.Typing) (q : Passed) → locals_of old ≡ []
        → OnOk declared (IsTaken r old.passing q (rule.only_declared sig)) → IfErr declared (IsHalted r old.passing)
        → DeclaresAnswer text r sig old (with_passing q old) result }
{
    match declared {
        Ok(()) => Ok(None),
        Err(fault) => Err(fault),
    }
}

// A declaration that gives an axiom or a goal.
fn one_draft(declared: Result<Draft, TypeFault>) -> Result<Option<Draft>, TypeFault>
    ensures { (text : List ℕ) (r : Rule rule.Declared) (sig : Signature) (old new : code.Typing) → DraftAnswer text r sig old new declared → DeclaresAnswer text r sig old new result }
{
    match declared {
        Ok(draft) => Ok(Some(draft)),
        Err(fault) => Err(fault),
    }
}

// A declaration at a place of the text, by its kind: the axiom or goal that it gives, where it gives one.
fn by_kind<'a>(
    context: &mut Context<'a>,
    typing: &mut Typing<'a>,
    place: Span,
    kind: &DeclKind,
) -> Result<Option<Draft>, TypeFault>
    requires locals { locals_of typing.old ≡ [] }
    requires names { AllByRecursion (IsName context.old.text.now) (names_in_kind kind.now) }
    ensures text { context.new.text.now ≡ context.old.text.now }
    ensures declared { DeclaresAnswer context.old.text.now (rule.kind_rule context.old.text.now context.old.known place kind.now) context.new.known typing.old typing.new result }
{
    let alloc = context.alloc;
    let text = context.text;
    match kind {
        DeclKind::Type {
            params,
            name,
            fields,
        } => {
            let known = &mut context.known;
            let passing = &mut typing.passing;
            no_draft(type_decl(alloc, text, known, passing, params, *name, fields))
        }
        DeclKind::Enumeration { name, constructors } => {
            let known = &mut context.known;
            no_draft(enumeration(alloc, text, known, *name, constructors))
        }
        DeclKind::Logic {
            ac,
            names,
            args,
            result,
        } => {
            let known = &mut context.known;
            let passing = &mut typing.passing;
            no_draft(logic(alloc, text, known, passing, place, *ac, names, args, result))
        }
        DeclKind::Function {
            name,
            formals,
            result,
            body,
        } => {
            let formals = formals.as_slice();
            one_draft(function(context, typing, place, *name, formals, result, body))
        }
        DeclKind::Predicate {
            name,
            formals,
            body,
        } => {
            let formals = formals.as_slice();
            one_draft(predicate(context, typing, place, *name, formals, body))
        }
        DeclKind::Axiom { name, body } => {
            one_draft(statement(context, typing, place, false, *name, body))
        }
        DeclKind::Goal { name, body } => {
            one_draft(statement(context, typing, place, true, *name, body))
        }
    }
}

// Numbers go on from declaration to declaration; the written type variables begin anew.
fn begin_anew<'a>(alloc: Global, passing: &mut Passing<'a>)
    ensures next { passing.new.next ≡ passing.old.next }
    ensures written { passing.new.written ≡ [] }
{
    let next = passing.next();
    let _before = replace(passing, Passing::new(alloc, next));
}

// A declaration, which begins without type variables of its own.
fn declaration<'a>(
    context: &mut Context<'a>,
    typing: &mut Typing<'a>,
    decl: &Decl,
) -> Result<Option<Draft>, TypeFault>
    requires locals { locals_of typing.old ≡ [] }
    requires names { AllByRecursion (IsName context.old.text.now) (names_in_kind decl.now.kind) }
    ensures text { context.new.text.now ≡ context.old.text.now }
    ensures declared { DeclaresAnswer context.old.text.now (rule.decl_rule context.old.text.now context.old.known decl.now) context.new.known typing.old typing.new result }
{
    begin_anew(context.alloc, &mut typing.passing);
    by_kind(context, typing, decl.span, &decl.kind)
}

// An axiom or a goal behind the others, where there is one.
fn push_some(drafts: &mut List<Draft>, draft: Option<Draft>) -> Result<(), AllocError>
    ensures { OnOk result (drafts.new ≡ drafts.old ++ option_to_list draft) }
{
    match draft {
        Some(draft) => drafts.push(draft),
        None => Ok(()),
    }
}

/// Declarations in their order, and the axioms and goals that they give.
pub fn declarations<'a>(
    context: &mut Context<'a>,
    typing: &mut Typing<'a>,
    decls: &[Decl],
) -> Result<List<Draft>, TypeFault>
    requires locals { locals_of typing.old ≡ [] }
    requires names { AreNamedDecls context.old.text.now decls.now }
    ensures { FileAnswer context.old.text.now (rule.decls_rule context.old.text.now context.old.known decls.now) context.new.known typing.old typing.new result }
{
    let mut drafts = List::new(context.alloc);
    for decl in decls {
        let draft = declaration(context, typing, decl)?;
        push_some(&mut drafts, draft)?;
    }
    Ok(drafts)
}
