//! What a step of saturation comes to.

/// What a step of saturation comes to.
#[derive(Clone, Copy, Debug, PartialEq, Eq)]
pub enum Found {
    /// Nothing is left to do that the step takes up.
    Nothing,
    /// Something was taken up, and a counted line was noted.
    Advanced,
    /// The assumed literals can't hold together; the number is that of the conflict.
    Conflict(usize),
}
