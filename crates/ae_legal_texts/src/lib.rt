//! Which values have a text: each proof whose lines are closed and well sorted over a lawful signature, with numbers in their limits, and what stands in it.
#![tactic(auto)]

mod laws;

pub use laws::{
    derivations_have_texts, formulas_have_texts, lines_have_texts, literals_have_texts,
    proofs_have_texts, sorts_have_texts, terms_have_texts,
};
