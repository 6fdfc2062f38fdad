//! Assumed literals.
use ae_core::formulas::Lit;

/// A literal that is assumed.
#[derive(Drop)]
pub struct Assumed {
    pub lit: Lit,
    /// The tag under which it was assumed.
    pub tag: usize,
}
