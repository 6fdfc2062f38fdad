//! The row of an inequality literal.
ghost use Rattle.std.specs.Prelude.{◌≡◌, ◌∷◌, ℕ, Bool, true, List, Ok, Err, Some, None, IfOk, IfSome};
ghost use Rattle.std.specs.List.{Contains};
ghost use Rattle.ae_core.specs.Sorts.{formula_ok};
ghost use Rattle.ae_core.specs.declared.terms.Term.{Term};
ghost use Rattle.ae_num.specs.Forms.{IsNormal};
ghost use Rattle.ae_journal.specs.States.{inequality};
ghost use Rattle.ae_journal.specs.Licences.{IsLicensed};
ghost use Rattle.ae_journal.specs.Standing.{Setting, MayStand};
ghost use Rattle.ae_journal.specs.declared.answers.WideAt.{WideAt};
ghost use Rattle.ae_journal.specs.declared.lines.Line.{Line};
ghost use Rattle.ae_theory.specs.Names.{AreNamed, terms_in};
ghost use Rattle.ae_theory.specs.Noting.{IsBlockOf};
ghost use Rattle.ae_theory.specs.declared.theory.Fail.TheVariants.{Steps, Number};
ghost use Rattle.ae_state.specs.Names.{assumed_in, system_now, terms_now};
ghost use Rattle.ae_state.specs.Fitting.{FitsStore};
ghost use Rattle.ae_inequalities.specs.Rows.{IsRightRow};
ghost use Rattle.ae_agreed_rows.specs.Kept.{IsFormOf};
ghost use Rattle.ae_opaque_numbers.specs.Opaque.{AreOpaqueNumbers};
ghost use Rattle.ae_literal_rows.specs.Beside.{IsBeside};

use crate::comparing::sides;
use crate::naming::name_in;
use crate::rows::row_between;
use ae_combine::State;
use ae_core::formulas::Lit;
use ae_inequalities::rows::Row;
use ae_journal::systems::System;
use ae_store::store::Store;
use ae_theory::theory::Fail;
use std::alloc::Global;

/// The row of an inequality literal that the state has assumed under the tag: the value of the side that isn't less, less that of the other, by the system of the
/// state; over integers where the sides are. `None` for every other literal.
///
/// The hypotheses of its lines are the literal and those of the values; the literal's tag comes first. `Number` comes only where a product or a sum of the
/// difference leaves the limits: it is licensed where the literal may stand.
pub fn literal_row(
    alloc: Global,
    store: &Store,
    state: &State,
    system: &System,
    lit: &Lit,
    tag: usize,
) -> Result<Option<Row>, Fail>
    requires fits { FitsStore state.now store.now }
    requires taken { terms_now state.now ≡ terms_in store.now }
    requires system { system.now ≡ system_now state.now }
    requires opaque { AreOpaqueNumbers store.now.signature (system_now state.now) }
    requires named { AreNamed store.now lit.now.formula }
    requires sorted { formula_ok store.now.signature lit.now.formula ≡ true }
    requires assumed { (s t : Term) (strict : Bool) → inequality lit.now ≡ Some (s, t, strict) → Contains (assumed_in state.now) (record { lit = lit.now; tag = tag }) }
    ensures none { result ≡ Ok None → inequality lit.now ≡ None }
    ensures form { IfOk result (λ o. IfSome o (λ r. (x : Setting) (js : List Line) → IsBeside x js store.now state.now → IsFormOf x js lit.now r.lin r.strict r.integral)) }
    ensures normal { IfOk result (λ o. IfSome o (λ r. IsNormal r.lin)) }
    ensures right { IfOk result (λ o. IfSome o (λ r. IsRightRow store.now.signature (terms_in store.now) r)) }
    ensures block { IfOk result (λ o. IfSome o (λ r. IsBlockOf (assumed_in state.now) r.from.deriv.hyps r.from.tags)) }
    ensures first { IfOk result (λ o. IfSome o (λ r. (more : List ℕ) × (r.from.tags ≡ tag ∷ more))) }
    ensures number { (wide : WideAt) → result ≡ Err (Number wide) → (x : Setting) (js : List Line) → IsBeside x js store.now state.now → MayStand x js lit.now → IsLicensed x js wide }
    ensures steps { ¬ (result ≡ Err Steps) }
{
    let _names = store.len();
    match sides(lit) {
        None => Ok(None),
        Some(sides) => {
            let names = system.names.as_slice();
            let upper = name_in(names, sides.upper);
            let lower = name_in(names, sides.lower);
            let row = row_between(
                alloc,
                store,
                state,
                system,
                lit,
                tag,
                sides.strict,
                upper,
                lower,
            )?;
            Ok(Some(row))
        }
    }
}
