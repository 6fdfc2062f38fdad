//! The first value of an integer that isn't whole.
ghost use Rattle.std.specs.Prelude.{◌≡◌, ◌↔◌, ◌<◌, ℕ, Some, IsTrue, IfNone, IfSome};
ghost use Rattle.ae_core.specs.declared.terms.Sort.{Int};
ghost use Rattle.ae_linear.specs.declared.rows.Row.{Row};
ghost use Rattle.ae_linear.specs.Rows.{row_at};
ghost use Rattle.ae_value_table.specs.Table.{number_at, just_at};
ghost use Rattle.ae_whole_values.specs.Wholes.{IsWhole, IsIntegerName, AreAllWhole, IsFraction};

use ae_core::equality::same_sort;
use ae_core::terms::Sort;
use ae_literals::is_whole;
use ae_num::forms::Name;
use ae_value_table::Values;

/// Whether a sort is `int`.
fn is_int(sort: &Sort) -> bool
    ensures { IsTrue result ↔ (sort.now ≡ Int) }
{
    same_sort(sort, &Sort::Int)
}

/// The number of the step that says the value of a name, where that is one of integers and its value isn't whole.
fn fraction_at(values: &Values, name: Name) -> Option<usize>
    requires name { name < values.now.taken }
    requires said { (n : ℕ) (row : Row) → row_at values.now.rows n ≡ Some row → (step : ℕ) × (just_at values.now n ≡ Some step) }
    ensures none { IfNone result (IsIntegerName values.now name → IsWhole (number_at values.now name)) }
    ensures some { IfSome result (λ step. IsFraction values.now step) }
{
    let _taken = values.len();
    if !is_int(&values.entry(name).sort) {
        return None;
    }
    let Some(row) = values.row(name) else {
        return None;
    };
    if is_whole(&row.value) {
        return None;
    }
    values.just(name)
}

/// The number of the step that says the first value of a name of integers that isn't whole. It takes no memory.
///
/// Each value that was put for a name is said by a step.
pub fn first_fraction(values: &Values) -> Option<usize>
    requires said { (n : ℕ) (row : Row) → row_at values.now.rows n ≡ Some row → (step : ℕ) × (just_at values.now n ≡ Some step) }
    ensures none { IfNone result (AreAllWhole values.now) }
    ensures some { IfSome result (λ step. IsFraction values.now step) }
{
    for name in 0..values.len() {
        if let Some(step) = fraction_at(values, name) {
            return Some(step);
        }
    }
    None
}
