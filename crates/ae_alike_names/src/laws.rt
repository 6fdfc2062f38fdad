//! Laws of names that are the same. These functions do nothing: each one's contract is a theorem.
ghost use Rattle.ae_alike_names.specs.Alike.{AlikeNamesAreEqualNow, AlikeNamesAreEqualInSearches, AlikeNamesAreSame, AssumedLiteralsMayStand};

use ae_exact_names::laws::same_is_exact;

/// Where all names of a store have values, two of them are alike exactly where their terms are the same in the system.
pub fn alike_names_are_same()
    ensures { AlikeNamesAreSame }
{
    same_is_exact();
}

/// Names that are alike are equal by equations that may stand: those that are assumed. In a search all that is assumed may stand.
pub fn alike_names_hold()
    ensures names { AlikeNamesAreEqualNow }
    ensures assumed { AssumedLiteralsMayStand }
    ensures searches { AlikeNamesAreEqualInSearches }
{
    same_is_exact();
}
