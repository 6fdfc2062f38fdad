//! Laws of the index of names. This function does nothing: its contract is a theorem.
ghost use Rattle.std.specs.Prelude.{ℕ, ◌≤◌, ◌≡◌, length, take};
ghost use Rattle.ae_known.specs.Index.{HasHeads};
ghost use Rattle.ae_known.specs.declared.known.Known.{Known};
ghost use Rattle.ae_store.specs.Shapes.{shapes};
ghost use Rattle.ae_store.specs.Stores.{IsStore, Stored};
ghost use Rattle.ae_store.specs.Terms.{Keeps, terms};

/// Where each term of a store keeps its name in another one, an index of the first names is one of the first names there.
pub fn heads_stay()
    ensures { (n : ℕ) (old new : Stored) (known : Known) → IsStore old.signature old.nodes → IsStore new.signature new.nodes → new.signature ≡ old.signature →
        Keeps (terms (shapes old.nodes)) (terms (shapes new.nodes)) → n ≤ length old.nodes → HasHeads (take n old.nodes) known → HasHeads (take n new.nodes) known }
{}
