//! Laws of tables and stores.
ghost use Rattle.std.specs.Prelude.{◌≡◌, ℕ, List, slice_get, Some};
ghost use Rattle.ae_core.specs.declared.problems.Signature.{Signature};
ghost use Rattle.ae_core.specs.declared.terms.Head.{Head};
ghost use Rattle.ae_store.specs.declared.nodes.Node.{Node};
ghost use Rattle.ae_store.specs.declared.nodes.NodeHead.TheVariants.{Of};
ghost use Rattle.ae_store.specs.Shapes.{shapes};
ghost use Rattle.ae_store.specs.Stores.{IsStore};
ghost use Rattle.ae_store.specs.Terms.{terms, Keeps};
ghost use Rattle.ae_free.specs.Tables.{Tables, Fits, Stands};
ghost use Rattle.ae_free.specs.declared.table.Shared.{Shared};

/// A table that fits a store fits it when the store has grown.
pub fn tables_fit_a_grown_store()
    ensures { (sig : Signature) (old new : List Node) (t : Tables) → IsStore sig old → IsStore sig new → Keeps (terms (shapes old)) (terms (shapes new)) → Fits old t → Fits new t }
{}

/// So does the table that a version stands for.
pub fn versions_fit_a_grown_store()
    ensures { (sig : Signature) (old new : List Node) (t : Tables) (version : Shared) (names : List (ℕ × List ℕ)) → IsStore sig old → IsStore sig new
        → Keeps (terms (shapes old)) (terms (shapes new)) → Stands old t version names → Stands new t version names }
{}

/// Applications of one symbol at the same sorts have one sort, so this part of a collision follows from the others.
pub fn applications_of_one_symbol_have_one_sort()
    ensures { (sig : Signature) (nodes : List Node) (m n : ℕ) (x y : Node) (h : Head) → IsStore sig nodes → slice_get nodes m ≡ Some x → slice_get nodes n ≡ Some y
        → x.head ≡ Of h → y.head ≡ Of h → x.sorts ≡ y.sorts → x.sort ≡ y.sort }
{}
