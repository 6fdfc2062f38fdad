//! How types and names are written.

use crate::output::Output;
use ae_syntax::spans::Span;
use ae_syntax::types::{TypeKind, WrittenType};

/// Puts the bytes of a place.
pub fn put_place(text: &[u8], span: Span, out: &mut Output) {
    match text.get(span.from as usize..span.to as usize) {
        Some(bytes) => out.put(bytes),
        None => out.put(b"?"),
    }
}

/// Puts a type's name after its types in square brackets.
#[cycle(types)]
pub fn put_type(text: &[u8], sort: &WrittenType, out: &mut Output) {
    match &sort.kind {
        TypeKind::Named { name, args } => {
            out.put(b"[");
            put_types(text, args.as_slice(), out);
            put_place(text, *name, out);
            out.put(b"]");
        }
        _ => put_place(text, sort.span, out),
    }
}

#[cycle(types)]
fn put_types(text: &[u8], sorts: &[WrittenType], out: &mut Output) {
    for sort in sorts {
        put_type(text, sort, out);
        out.put(b" ");
    }
}
