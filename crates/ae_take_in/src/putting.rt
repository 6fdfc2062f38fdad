//! The number or the leaf of the next name is put.
ghost use Rattle.std.specs.Prelude.{◌≡◌, ◌≢◌, ℕ, false, Some, OnOk};
ghost use Rattle.ae_num.specs.Forms.{IsNormal, has_key};
ghost use Rattle.ae_pmap.specs.Forest.{present};
ghost use Rattle.ae_pmap.specs.Pairs.{found, with_at};
ghost use Rattle.ae_linear.specs.declared.rows.Row.{Row};
ghost use Rattle.ae_linear.specs.Rows.{row_at, IsFree};
ghost use Rattle.ae_value_table.specs.Table.{just_at};
ghost use Rattle.ae_value_table.specs.Versions.{Lasts};

use crate::covering::Led;
use ae_first_values::Given;
use ae_num::forms::Name;
use ae_num::numbers::NumFail;
use ae_value_table::Values;
use std::alloc::AllocError;

/// Puts a number for a name that stands in no row, and the step that states it. Refused memory leaves some of it done.
pub(crate) fn put_given(values: &mut Values, name: Name, given: Given) -> Result<(), AllocError>
    requires normal { IsNormal given.value }
    requires free { IsFree (λ n. row_at values.old.rows n) given.value }
    requires absent { has_key (given.value).parts name ≡ false }
    requires alone { (k : ℕ) (row : Row) → row_at values.old.rows k ≡ Some row → has_key row.value.parts name ≡ false }
    ensures row { OnOk result (row_at values.new.rows name ≡ Some (record { value = given.value; just = 0 })) }
    ensures others { OnOk result ((k : ℕ) → k ≢ name → row_at values.new.rows k ≡ row_at values.old.rows k) }
    ensures just { OnOk result ((k : ℕ) → just_at values.new k ≡ with_at (found (present values.old.justs)) name (Some given.step) k) }
    ensures rest { values.new ≡ record values.old { rows = values.new.rows; justs = values.new.justs } }
    ensures lasts { Lasts values.old values.new }
{
    let _row = values.row(name);
    let Given { value, step } = given;
    match values.put_row(name, value) {
        Ok(()) => {
            values.put_just(name, step)?;
            Ok(())
        }
        Err(fail) => match fail {
            NumFail::Memory(refused) => Err(refused),
            NumFail::Wide(_wide) => unreachable!(),
        },
    }
}

/// Puts a leaf of a name, and the step that says it. Refused memory leaves some of it done.
pub(crate) fn put_led(values: &mut Values, name: Name, led: Led) -> Result<(), AllocError>
    ensures leaf { OnOk result ((k : ℕ) → found (present values.new.leaves) k ≡ with_at (found (present values.old.leaves)) name (Some led.leaf) k) }
    ensures just { OnOk result ((k : ℕ) → just_at values.new k ≡ with_at (found (present values.old.justs)) name (Some led.step) k) }
    ensures rest { values.new ≡ record values.old { leaves = values.new.leaves; justs = values.new.justs } }
    ensures lasts { Lasts values.old values.new }
{
    values.put_leaf(name, led.leaf)?;
    values.put_just(name, led.step)?;
    Ok(())
}
