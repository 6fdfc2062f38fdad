//! Whether two names have one sort and one value, and the difference of two numbers.
ghost use Rattle.std.specs.Prelude.{◌≡◌, ◌↔◌, ◌&&◌, IsTrue, Some, None, slice_get, map, IfOk, OnOk, IfErr};
ghost use Rattle.ae_base.specs.Decided.{decided};
ghost use Rattle.ae_core.specs.Decided.{Sort_discrete};
ghost use Rattle.ae_math.specs.Forms.{minus};
ghost use Rattle.ae_num.specs.Forms.{meaning, SameMeaning, IsNormal, first_wide, IfWide, difference_of, difference_steps};
ghost use Rattle.ae_num.specs.declared.forms.Value as value;
ghost use Rattle.ae_value_table.specs.Table.{number_at, leaf_at, value_in, held};
ghost use Rattle.ae_value_table.specs.Alike.{Value_discrete, alike, alike_entries};

use crate::once::is_own;
use crate::patterns::{Entry, Pattern};
use crate::table::Values;
use ae_core::equality::same_sort;
use ae_core::terms::Sort;
use ae_num::copies::same_form;
use ae_num::differences::difference;
use ae_num::forms::{Lin, Name};
use ae_num::numbers::NumFail;

/// Whether the numbers of two names are the same.
fn same_number(values: &Values, left: Name, right: Name) -> bool
    ensures { IsTrue result ↔ (number_at values.now left ≡ number_at values.now right) }
{
    match values.rows.value(left) {
        Some(form) => has_number(values, form, right),
        None => match values.rows.value(right) {
            Some(form) => is_own(form, left),
            None => left == right,
        },
    }
}

/// Whether a form is the number of a name.
fn has_number(values: &Values, form: &Lin, name: Name) -> bool
    ensures { IsTrue result ↔ (form.now ≡ number_at values.now name) }
{
    match values.rows.value(name) {
        Some(other) => same_form(form, other),
        None => is_own(form, name),
    }
}

/// Whether the value of a pattern is the number of a name.
fn is_number(values: &Values, name: Name, pattern: &Pattern) -> bool
    ensures { IsTrue result ↔ (value.Number (number_at values.now name) ≡ value_in values.now pattern.now) }
{
    match pattern {
        Pattern::Number(other) => same_number(values, name, *other),
        Pattern::Leaf(_) => false,
        Pattern::Fields { .. } => false,
    }
}

/// Whether the value of a pattern is the leaf of a name.
fn is_leaf(values: &Values, name: Name, pattern: &Pattern) -> bool
    ensures { IsTrue result ↔ (value.Leaf (leaf_at values.now name) ≡ value_in values.now pattern.now) }
{
    match pattern {
        Pattern::Number(_) => false,
        Pattern::Leaf(other) => values.leaf(name) == values.leaf(*other),
        Pattern::Fields { .. } => false,
    }
}

/// Whether two patterns have one value.
#[cycle(same_pattern)]
fn same_pattern(values: &Values, left: &Pattern, right: &Pattern) -> bool
    ensures { IsTrue result ↔ (value_in values.now left.now ≡ value_in values.now right.now) }
{
    match left {
        Pattern::Number(name) => is_number(values, *name, right),
        Pattern::Leaf(name) => is_leaf(values, *name, right),
        Pattern::Fields { fields, .. } => match right {
            Pattern::Number(_) => false,
            Pattern::Leaf(_) => false,
            Pattern::Fields { fields: others, .. } => {
                same_patterns(values, fields.as_slice(), others.as_slice())
            }
        },
    }
}

/// Whether two lists of patterns have the same values.
#[cycle(same_pattern)]
fn same_patterns(values: &Values, left: &[Pattern], right: &[Pattern]) -> bool
    ensures { IsTrue result ↔ (map (value_in values.now) left.now ≡ map (value_in values.now) right.now) }
{
    if left.len() != right.len() {
        return false;
    }
    for i in 0..left.len() {
        if !same_pattern(values, &left[i], &right[i]) {
            return false;
        }
    }
    true
}

/// Whether two sorts are the same, as the definitions say it.
fn one_sort(left: &Sort, right: &Sort) -> bool
    ensures { result ≡ decided (Sort_discrete left.now right.now) }
{
    same_sort(left, right)
}

/// Whether two patterns have one value, as the definitions say it.
fn one_value(values: &Values, left: &Pattern, right: &Pattern) -> bool
    ensures { result ≡ decided (Value_discrete (value_in values.now left.now) (value_in values.now right.now)) }
{
    same_pattern(values, left, right)
}

/// Whether two names have one sort and one value, by what is known of them.
fn are_alike(values: &Values, left: &Entry, right: &Entry) -> bool
    ensures { result ≡ alike_entries values.now (Some left.now) (Some right.now) }
{
    one_sort(&left.sort, &right.sort) && one_value(values, &left.pattern, &right.pattern)
}

/// Whether two names have one sort and one value.
fn same_held(values: &Values, left: Name, right: Name) -> bool
    ensures { result ≡ alike_entries values.now (slice_get (held values.now) left) (slice_get (held values.now) right) }
{
    let entries = values.entries.as_slice();
    if left >= values.taken {
        return false;
    }
    if right >= values.taken {
        return false;
    }
    are_alike(values, &entries[left], &entries[right])
}

impl Values {
    /// Whether two names are one, or of one sort and one value. It takes no memory.
    pub fn same(&self, left: Name, right: Name) -> bool
        ensures { result ≡ alike self.now left right }
    {
        left == right || same_held(self, left, right)
    }

    /// The difference of the numbers of two names, in the normal form.
    ///
    /// `Wide` comes exactly at the first stated product or sum that leaves the limits: those of the multiple of the
    /// second number by -1, and then those of its sum with the first.
    pub fn difference(&self, left: Name, right: Name) -> Result<Lin, NumFail>
        ensures exact { IfOk result (λ d. SameMeaning (meaning d) (minus (meaning (number_at self.now left)) (meaning (number_at self.now right)))) }
        ensures form { IfOk result (λ d. d ≡ difference_of (number_at self.now left) (number_at self.now right)) }
        ensures normal { IfOk result (λ d. IsNormal d) }
        ensures fits { OnOk result (first_wide (difference_steps (number_at self.now left) (number_at self.now right)) ≡ None) }
        ensures wide { IfErr result (λ fail. IfWide fail (λ wide. first_wide (difference_steps (number_at self.now left) (number_at self.now right)) ≡ Some wide)) }
    {
        let first = self.number(left)?;
        let second = self.number(right)?;
        difference(self.alloc, &first, &second)
    }
}
