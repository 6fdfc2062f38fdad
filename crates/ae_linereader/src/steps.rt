//! What stands next in a text of lines.
use ae_base::lists::List;
use ae_core::formulas::Lit;
use ae_core::proofs::{ClauseLine, Ending, EqLine};

/// A derived line, or the ending behind the last one.
#[derive(Drop)]
pub enum DerivedStep {
    Line(EqLine),
    End(Ending),
}

/// A hypothesis of a block, or what is derived of them all.
#[derive(Drop)]
pub enum BlockStep {
    Hypothesis(Lit),
    Derivation(List<EqLine>, Ending),
}

/// A line of a proof, or its end.
#[derive(Drop)]
pub enum ProofStep {
    Line(ClauseLine),
    End,
}
