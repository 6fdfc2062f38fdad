//! Laws of the orders. These functions do nothing: each one's contract is a theorem.
ghost use Rattle.std.specs.Prelude.{◌≡◌, ◌↔◌};
ghost use Rattle.std.specs.Cmp.{IsTotalOrder};
ghost use Rattle.std.specs.declared.cmp.Ordering.TheVariants.{Equal};
ghost use Rattle.ae_core.specs.Orders.{sort_order, term_order, formula_order};
ghost use Rattle.ae_core.specs.declared.terms.Sort.{Sort};
ghost use Rattle.ae_core.specs.declared.terms.Term.{Term};
ghost use Rattle.ae_core.specs.declared.formulas.Formula.{Formula};

/// The order of sorts is total, antisymmetric and transitive, and tells different sorts apart.
pub fn sorts_are_ordered()
    ensures total { IsTotalOrder sort_order }
    ensures exact { (a b : Sort) → (sort_order a b ≡ Equal) ↔ (a ≡ b) }
{}

/// The order of terms is total, antisymmetric and transitive, and tells different terms apart.
pub fn terms_are_ordered()
    ensures total { IsTotalOrder term_order }
    ensures exact { (a b : Term) → (term_order a b ≡ Equal) ↔ (a ≡ b) }
{}

/// The order of formulas is total, antisymmetric and transitive, and tells different formulas apart.
pub fn formulas_are_ordered()
    ensures total { IsTotalOrder formula_order }
    ensures exact { (a b : Formula) → (formula_order a b ≡ Equal) ↔ (a ≡ b) }
{}
