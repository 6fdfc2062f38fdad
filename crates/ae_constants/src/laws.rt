//! A law of the table of forms. This function does nothing: its contract is a theorem.
ghost use Rattle.std.specs.Prelude.{List};
ghost use Rattle.ae_core.specs.declared.terms.Term.{Term};
ghost use Rattle.ae_store.specs.Terms.{Keeps};
ghost use Rattle.ae_constants.specs.declared.forms.ExactForm.{ExactForm};
ghost use Rattle.ae_constants.specs.Tables.{AreForms};

/// Forms stay those of their names where each term keeps its name.
pub fn forms_stay_exact()
    ensures { (old new : List Term) (fs : List ExactForm) → Keeps old new → AreForms old fs → AreForms new fs }
{}
