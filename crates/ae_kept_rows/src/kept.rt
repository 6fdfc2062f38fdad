//! Rows that are kept.
ghost use Rattle.std.specs.Prelude.{◌≡◌, [], Some, None};
ghost use Rattle.ae_inequalities.specs.Held.{Fits};
ghost use Rattle.ae_kept_rows.specs.Inner.Going.{GoesOnFrom};
ghost use Rattle.ae_store.specs.Stores.{Stored};

use ae_inequalities::bounds::Bounds;
use std::alloc::Global;

/// Rows with what is known of them since their last answer.
#[derive(Drop)]
pub struct KeptRows {
    pub bounds: Bounds,
    /// Of how many literals of the trail, the first ones, it has the rows.
    pub literals: usize,
    /// How many lines the journal had at the last answer.
    pub lines: usize,
}

/// No rows.
fn none_yet(alloc: Global, lines: usize) -> KeptRows
    ensures empty { result.bounds ≡ record { rows = []; given = []; tags = [] } }
    ensures fits { (s : Stored) → Fits s result.bounds }
    ensures literals { result.literals ≡ 0 }
{
    KeptRows {
        bounds: Bounds::new(alloc),
        literals: 0,
        lines,
    }
}

/// The rows that are kept, where the journal still has so many lines; else none.
pub fn rows_so_far(alloc: Global, kept: Option<KeptRows>, lines: usize) -> KeptRows
    ensures { GoesOnFrom lines kept result }
{
    match kept {
        None => none_yet(alloc, lines),
        Some(rows) => {
            let held = rows.lines;
            if held == lines {
                rows
            } else {
                none_yet(alloc, lines)
            }
        }
    }
}
