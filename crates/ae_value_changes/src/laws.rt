//! Laws of changes of values. These functions do nothing: each one's contract is a theorem.
ghost use Rattle.ae_value_changes.specs.Mapped.{NumbersMapped, LeavesMapped};
ghost use Rattle.ae_value_changes.specs.Put.{NumbersPut, LeavesPut};

/// Where a number is put for a name that was its own value, the values are over names that are their own values, and computed, as before.
pub fn values_stay_values_when_a_number_is_put()
    ensures { NumbersPut }
{}

/// Where a name is put for another of its sort that was its own value, they stay so too.
pub fn values_stay_values_when_a_name_is_put()
    ensures { LeavesPut }
{}

/// So do all values, where each number in them, inside records too, is mapped by what puts the number for the name.
pub fn values_stay_values_when_numbers_are_mapped()
    ensures { NumbersMapped }
{}

/// So do all values, where each leaf in them, inside records too, is mapped by what puts the name for the other.
pub fn values_stay_values_when_leaves_are_mapped()
    ensures { LeavesMapped }
{}
