//! Numbers.
ghost use Rattle.std.specs.Prelude.{◌≡◌, true};
ghost use Rattle.std.specs.List.{list_all};
ghost use Rattle.ae_counts.specs.Inner.Counted as spec;

// A number of this type has 64 bits.
pub(crate) fn number_counts(number: usize)
    ensures { spec.count_within number ≡ true }
{
    let _counted = number;
}

// Each of these numbers has.
pub(crate) fn numbers_count(numbers: &[usize])
    ensures { list_all spec.count_within numbers.now ≡ true }
{
    for number in numbers {
        number_counts(*number);
    }
}
