//! Laws of what is kept. These functions do nothing: each one's contract is a theorem.
ghost use Rattle.ae_ordered_rounds.specs.Orders.{OrdersBegin, OrdersStay};

/// What is kept stays right where nothing was noted and the trail, the names and the blocks have only grown, or where lines were noted of which none is a
/// combination of rows.
pub fn orders_stay()
    ensures { OrdersStay }
{}

/// Where nothing was noted, it's right that nothing is kept.
pub fn orders_begin()
    ensures { OrdersBegin }
{}
