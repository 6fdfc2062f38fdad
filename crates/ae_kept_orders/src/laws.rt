//! Laws of rows that are kept. These functions do nothing: each one's contract is a theorem.
ghost use Rattle.ae_kept_orders.specs.Laws.{OrdersBegin, OrdersStay};

/// Rows that are kept stay right where nothing was noted and the trail, the names and the blocks have only grown, or where lines were noted of which none is a
/// combination.
pub fn orders_stay()
    ensures { OrdersStay }
{}

/// Where nothing was noted, it's right that none is kept.
pub fn orders_begin()
    ensures { OrdersBegin }
{}
