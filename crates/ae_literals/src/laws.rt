//! Laws of literals. These functions do nothing: each one's contract is a theorem.
ghost use Rattle.std.specs.Prelude.{List};
ghost use Rattle.ae_core.specs.declared.formulas.Lit.{Lit};
ghost use Rattle.ae_store.specs.Stores.{IsStore};
ghost use Rattle.ae_settled.specs.Held.{Held};
ghost use Rattle.ae_settled.specs.Met.{AreMet};
ghost use Rattle.ae_literals.specs.declared.said.Said.{Said};
ghost use Rattle.ae_literals.specs.Said.{AreSaid};
ghost use Rattle.ae_literals.specs.Unmet.{AreAllMet};
ghost use Rattle.ae_literals.specs.Had.{stored_of, HaveNames, AreWhole};

/// Where nothing of what literals say is unmet, none of them is contradicted or left out by what a state holds.
pub fn literals_of_which_none_is_unmet_are_met()
    ensures { (x : Held) (said : List Said) (ls : List Lit) → IsStore x.signature x.nodes → HaveNames x ls → AreSaid (stored_of x) said ls
        → AreAllMet x.signature x.nodes x.rep said → AreWhole x → AreMet x ls }
{}
