//! Fresh constants as the keys of a set.
ghost use Rattle.std.specs.Prelude.{Some};
ghost use Rattle.std.specs.Cmp.{partial_equiv_from_equiv, partial_order_from_agreeing_total};
ghost use Rattle.std.specs.Ordering.{eq_by_cmp};
ghost use Rattle.std.proofs.Common.{refl};
ghost use Rattle.std.proofs.lemmas.Cmp.{eq_by_cmp_equiv, on_total};
ghost use Rattle.ae_core.specs.Inner.TreeOrder.{tree_total};
ghost use Rattle.ae_core.specs.Orders.{term_order, term_tree};

use ae_core::orders::compare_terms;
use ae_core::terms::Term;
use std::cmp::Ordering;

/// A fresh constant. Constants are ordered as terms are.
#[derive(Drop)]
pub(crate) struct Constant {
    pub(crate) term: Term,
}

impl Ord for Constant {
    ghost cmp = { λ a b. term_order a.term b.term };

    ghost total = { on_total (λ c. term_tree c.term) tree_total };

    ghost matches_partial_cmp = { λ a b. refl };

    ghost matches_eq = { λ a b. refl };

    fn cmp(&self, other: &Constant) -> Ordering {
        compare_terms(&self.term, &other.term)
    }
}

impl PartialOrd for Constant {
    ghost partial_cmp = { λ a b. Some (term_order a.term b.term) };

    ghost laws = { partial_order_from_agreeing_total (λ a b. term_order a.term b.term) (on_total (λ c. term_tree c.term) tree_total) (λ a b. refl) (λ a b. refl) };

    fn partial_cmp(&self, other: &Constant) -> Option<Ordering> {
        Some(compare_terms(&self.term, &other.term))
    }
}

impl Eq for Constant {
    ghost laws = { eq_by_cmp_equiv (on_total (λ c. term_tree c.term) tree_total) };
}

impl PartialEq for Constant {
    ghost eq = { eq_by_cmp (λ a b. term_order a.term b.term) };

    ghost laws = { partial_equiv_from_equiv (eq_by_cmp_equiv (on_total (λ c. term_tree c.term) tree_total)) };

    fn eq(&self, other: &Constant) -> bool {
        compare_terms(&self.term, &other.term).is_eq()
    }
}
