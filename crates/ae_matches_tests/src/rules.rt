//! Which axioms are instantiated, and which are facts.
use ae_core::formulas::Formula;
use ae_core::problems::Item;

/// Whether a formula is a quantified one.
pub fn is_block(formula: &Formula) -> bool {
    match formula {
        Formula::All(_) => true,
        Formula::Ex(_) => true,
        _ => false,
    }
}

/// Whether an axiom with so many type variables is instantiated.
pub fn is_rule(vars: usize, formula: &Formula) -> bool {
    match formula {
        Formula::All(_) => true,
        _ => vars > 0,
    }
}

/// The formula of a closed axiom.
pub fn fact(item: &Item) -> Option<&Formula> {
    match item {
        Item::Axiom { vars, body, .. } => {
            if *vars > 0 || is_block(body) {
                return None;
            }
            Some(body)
        }
        Item::Goal { .. } => None,
    }
}
