//! What rows come to.
use crate::rows::Row;
use ae_core::lists::List;
use ae_journal::systems::PointAt;
use ae_theory::theory::Explained;

/// What rows come to. A contradiction comes before a tight sum.
#[derive(Drop)]
pub enum Ineq {
    /// A point at which each row that isn't 0 is positive; a name that isn't listed has the value 0.
    Point(List<PointAt>),
    /// A block that adds up rows to one that can't hold, and the tags of the derivations of these rows.
    Contradiction(Explained),
    /// Rows, assumed or rounded, of which a positive sum is `0 >= 0`, though one of them isn't zero: each of them holds with equality alone. Each has lines that say
    /// it, from the derivations of the assumed rows that it is made of.
    Tight(List<Row>),
}
