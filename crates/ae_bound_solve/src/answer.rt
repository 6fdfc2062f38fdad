//! What rows come to.
use ae_core::lists::List;
use ae_ineq::point::Valuation;
use ae_theory::theory::Explained;
use sqlite_items::Items;

/// What rows come to. A contradiction comes before a tight sum.
#[derive(Drop)]
pub enum Answer {
    /// A point at which each row that isn't 0 is positive; a name that isn't listed has the value 0.
    Point(Items<Valuation>),
    /// A block that adds up rows to one that can't hold, and the tags of the assumed ones among them.
    Contradiction(Explained),
    /// The numbers of rows, assumed or rounded, of which a positive sum is `0 >= 0`, though one of them isn't zero: each of them holds with equality alone.
    Tight(List<usize>),
}
