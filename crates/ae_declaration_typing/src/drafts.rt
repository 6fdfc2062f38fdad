//! Axioms and goals that are typed.

use ae_syntax::spans::Span;

/// An axiom or a goal that is typed and not yet elaborated.
#[derive(Drop)]
pub struct Draft {
    /// The whole declaration's place.
    pub place: Span,
    pub is_goal: bool,
    /// The place of its name.
    pub name: Span,
    /// The place of its formula among the nodes.
    pub claim: usize,
}
