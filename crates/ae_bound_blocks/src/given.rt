//! Why an assumed row holds.
use ae_core::proofs::Deriv;

/// Lines of which the last says that a multiple of a row's form isn't negative, or is positive where the row is strict.
#[derive(Drop)]
pub struct Given {
    pub deriv: Deriv,
    /// By which number, above 0, the form is multiplied.
    pub multiple: i128,
    /// Whether its sides have the sort `real`, or `int`.
    pub real: bool,
}
