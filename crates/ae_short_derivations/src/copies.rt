//! Equal sides.
ghost use Rattle.std.specs.Prelude.{◌≡◌, IfOk};

use ae_core::copies::copy_sorts;
use ae_core::lists::List;
use ae_core::problems::AcSymbol;
use ae_just::steps::Side;
use std::alloc::{AllocError, Global};

/// An equal symbol.
fn copy_symbol(alloc: Global, symbol: &AcSymbol) -> Result<AcSymbol, AllocError>
    ensures { IfOk result (λ copy. copy ≡ symbol.now) }
{
    Ok(AcSymbol {
        head: symbol.head,
        sorts: copy_sorts(alloc, symbol.sorts.as_slice())?,
    })
}

/// An equal side.
pub(crate) fn copy_side(alloc: Global, side: &Side) -> Result<Side, AllocError>
    ensures { IfOk result (λ copy. copy ≡ side.now) }
{
    match side {
        Side::Name(name) => Ok(Side::Name(*name)),
        Side::Sum {
            parts,
            constant,
            real,
        } => Ok(Side::Sum {
            parts: List::from_slice(alloc, parts.as_slice())?,
            constant: *constant,
            real: *real,
        }),
        Side::Many { symbol, names } => Ok(Side::Many {
            symbol: copy_symbol(alloc, symbol)?,
            names: List::from_slice(alloc, names.as_slice())?,
        }),
    }
}
