//! Formulas and goals without inequality: what they are, and that what a search makes of them is such too.
#![tactic(auto)]

mod laws;

pub use laws::{
    clauses_stay_orderless, orderless_formulas_are_no_orders,
    orderless_goals_give_orderless_formulas, parts_stay_orderless, putting_keeps_orderless,
};
