//! Where a field of a record type stands.

/// The number of a record type, with its place for the field, from 0.
#[derive(Clone, Copy)]
pub struct FieldPlace {
    pub of: usize,
    pub place: usize,
}
