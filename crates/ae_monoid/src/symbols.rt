//! AC symbols: whether two are the same, and copies of them and of names.
ghost use Rattle.std.specs.Prelude.{◌≡◌, ◌↔◌, IsTrue, IfOk};

use ae_core::copies::copy_sorts;
use ae_core::equality::{same_head, same_sorts};
use ae_core::lists::List;
use ae_core::problems::AcSymbol;
use ae_num::forms::Name;
use std::alloc::{AllocError, Global};

/// Whether two symbols are the same.
pub(crate) fn same_symbol(left: &AcSymbol, right: &AcSymbol) -> bool
    ensures { IsTrue result ↔ (left.now ≡ right.now) }
{
    same_head(left.head, right.head) && same_sorts(left.sorts.as_slice(), right.sorts.as_slice())
}

/// An equal symbol.
pub(crate) fn copy_symbol(alloc: Global, symbol: &AcSymbol) -> Result<AcSymbol, AllocError>
    ensures { IfOk result (λ copy. copy ≡ symbol.now) }
{
    Ok(AcSymbol {
        head: symbol.head,
        sorts: copy_sorts(alloc, symbol.sorts.as_slice())?,
    })
}

/// The same names.
pub(crate) fn copy_names(alloc: Global, names: &[Name]) -> Result<List<Name>, AllocError>
    ensures { IfOk result (λ copy. copy ≡ names.now) }
{
    Ok(List::from_vec(Vec::from_slice(alloc, names)?))
}
