//! Laws of what names come down to. The function does nothing: its contract is a theorem.
ghost use Rattle.ae_strips.specs.Laws.{EachComesDown, ToOneName, EndsAreTheirOwn, SortsAreKept};

/// Each name comes down to one name, which is of its sort and comes down to itself.
pub fn names_come_down_to_one_name()
    ensures some { EachComesDown }
    ensures one { ToOneName }
    ensures own { EndsAreTheirOwn }
    ensures sorts { SortsAreKept }
{}
