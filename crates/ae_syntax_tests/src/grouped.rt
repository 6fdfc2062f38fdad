//! How expressions are grouped: with square brackets round each kind that has parts, its word or sign first.

use crate::output::Output;
use crate::types::{put_place, put_type};
use ae_syntax::exprs::{BinaryOp, Expr, ExprKind, Group, Quantifier, Setting, Trigger};

fn spelling(op: BinaryOp) -> &'static [u8] {
    match op {
        BinaryOp::Implies => b" -> ",
        BinaryOp::Iff => b" <-> ",
        BinaryOp::Xor => b" xor ",
        BinaryOp::Or => b" or ",
        BinaryOp::And => b" and ",
        BinaryOp::Equal => b" = ",
        BinaryOp::NotEqual => b" <> ",
        BinaryOp::Less => b" < ",
        BinaryOp::AtMost => b" <= ",
        BinaryOp::Greater => b" > ",
        BinaryOp::AtLeast => b" >= ",
        BinaryOp::Add => b" + ",
        BinaryOp::Sub => b" - ",
        BinaryOp::Mul => b" * ",
        BinaryOp::Div => b" / ",
        BinaryOp::Rem => b" % ",
    }
}

/// Puts the word of a quantifier, its groups of variables and its triggers.
fn put_block(
    text: &[u8],
    quantifier: Quantifier,
    groups: &[Group],
    triggers: &[Trigger],
    out: &mut Output,
) {
    out.put(match quantifier {
        Quantifier::Forall => b"[forall",
        Quantifier::Exists => b"[exists",
    });
    for group in groups {
        out.put(b" ");
        put_place(text, group.span, out);
    }
    for trigger in triggers {
        out.put(b" {");
        put_place(text, trigger.span, out);
        out.put(b"}");
    }
    out.put(b" . ");
}

#[cycle(exprs)]
fn put_exprs(text: &[u8], exprs: &[Expr], out: &mut Output) {
    for expr in exprs {
        out.put(b" ");
        put_expr(text, expr, out);
    }
}

#[cycle(exprs)]
fn put_settings(text: &[u8], settings: &[Setting], out: &mut Output) {
    for setting in settings {
        out.put(b" ");
        put_place(text, setting.name, out);
        out.put(b"=");
        put_expr(text, &setting.value, out);
    }
    out.put(b"}");
}

/// Puts an expression between two words.
#[cycle(exprs)]
fn put_between(text: &[u8], before: &[u8], expr: &Expr, after: &[u8], out: &mut Output) {
    out.put(before);
    put_expr(text, expr, out);
    out.put(after);
}

/// Puts an expression.
#[cycle(exprs)]
pub fn put_expr(text: &[u8], expr: &Expr, out: &mut Output) {
    match expr.kind.get() {
        ExprKind::Binary { op, left, right } => {
            put_between(text, b"[", left, spelling(*op), out);
            put_between(text, b"", right, b"]", out);
        }
        ExprKind::Not(body) => put_between(text, b"[not ", body, b"]", out),
        ExprKind::Negative(body) => put_between(text, b"[- ", body, b"]", out),
        ExprKind::Quantified {
            quantifier,
            groups,
            triggers,
            body,
        } => {
            put_block(
                text,
                *quantifier,
                groups.get().as_slice(),
                triggers.get().as_slice(),
                out,
            );
            put_between(text, b"", body, b"]", out);
        }
        ExprKind::Let { name, value, body } => {
            out.put(b"[let ");
            put_place(text, *name, out);
            put_between(text, b" ", value, b" ", out);
            put_between(text, b"", body, b"]", out);
        }
        ExprKind::If {
            condition,
            positive,
            negative,
        } => {
            put_between(text, b"[if ", condition, b" ", out);
            put_between(text, b"", positive, b" ", out);
            put_between(text, b"", negative, b"]", out);
        }
        ExprKind::Field { base, field } => {
            put_between(text, b"[", base, b".", out);
            put_place(text, *field, out);
            out.put(b"]");
        }
        ExprKind::Apply { name, args } => {
            put_place(text, *name, out);
            if !args.is_empty() {
                out.put(b"[");
                put_exprs(text, args.as_slice(), out);
                out.put(b"]");
            }
        }
        ExprKind::Bracketed(body) => put_between(text, b"(", body, b")", out),
        ExprKind::Ascribed { body, sort } => {
            put_between(text, b"(", body, b":", out);
            put_type(text, sort.get(), out);
            out.put(b")");
        }
        ExprKind::Distinct(terms) => {
            out.put(b"[distinct");
            put_exprs(text, terms.as_slice(), out);
            out.put(b"]");
        }
        ExprKind::Record(settings) => {
            out.put(b"{");
            put_settings(text, settings.as_slice(), out);
        }
        ExprKind::Update { base, settings } => {
            put_between(text, b"{", base, b" with", out);
            put_settings(text, settings.as_slice(), out);
        }
        _ => put_place(text, expr.span, out),
    }
}
