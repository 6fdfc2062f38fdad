//! Laws of records. These functions do nothing: each one's contract is a theorem.
ghost use Rattle.std.specs.Prelude.{◌≡◌, ◌↔◌, ℕ, Bool, List, length, slice_get, Some};
ghost use Rattle.std.specs.List.{AllByRecursion};
ghost use Rattle.ae_base.specs.Relations.{Pairwise};
ghost use Rattle.ae_core.specs.Signatures.{IsLawful};
ghost use Rattle.ae_core.specs.declared.problems.Signature.{Signature};
ghost use Rattle.ae_core.specs.declared.problems.TypeEntry.{TypeEntry};
ghost use Rattle.ae_core.specs.declared.problems.FieldEntry.{FieldEntry};
ghost use Rattle.ae_core.specs.declared.problems.Kind.TheVariants.{Fields as FieldsKind};
ghost use Rattle.ae_core.specs.declared.terms.Sort.{Sort, Named};
ghost use Rattle.ae_core.specs.declared.terms.Term.{Term};
ghost use Rattle.ae_num.specs.declared.forms.Value.{Value, Fields};
ghost use Rattle.ae_rules.specs.Lines.{equal, Conseq, HaveSort, fields_from};
ghost use Rattle.ae_rules.specs.Valuations.{Where};
ghost use Rattle.ae_data.specs.Records.{Reading, read, lefts, rights};
ghost use Rattle.ae_data.specs.declared.records.ValuePair.{ValuePair};

/// Whatever the values stand for, as long as a record is told by its fields: an equation of two records holds exactly where
/// the equations of their fields all hold.
pub fn an_equation_of_records_is_those_of_its_fields<V>()
    ensures { (way : Reading V) (ps : List ValuePair) →
        (read way (Fields (lefts ps)) ≡ read way (Fields (rights ps))) ↔ AllByRecursion (λ p. read way p.left ≡ read way p.right) ps }
{}

/// In the calculus: two terms of one record sort are equal by consequence exactly where each two fields of them are.
pub fn records_are_equal_by_their_fields()
    ensures { (sig : Signature) (E : Term → Term → Bool) (n : ℕ) (ss : List Sort) (e : TypeEntry) (fs : List FieldEntry) (s t : Term) → IsLawful sig
        → slice_get sig.types n ≡ Some e → e.kind ≡ FieldsKind fs → HaveSort sig (Named n ss) (equal s t)
        → Conseq sig (Where E) s t ↔ Pairwise (Conseq sig (Where E)) (fields_from n ss s 0 (length fs)) (fields_from n ss t 0 (length fs)) }
{}
