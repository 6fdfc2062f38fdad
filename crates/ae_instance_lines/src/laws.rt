//! Laws. These functions do nothing: their contracts are theorems.
ghost use Rattle.ae_instance_lines.specs.Laws.{LiteralHasLines, AxiomHasLines};

/// The line of a universal literal's instance brings what the instance brings.
pub fn literal_has_lines()
    ensures { LiteralHasLines }
{}

/// The line of an axiom with sorts, and where its formula is a block for all values the line of this with terms, bring what the instance brings.
pub fn axiom_has_lines()
    ensures { AxiomHasLines }
{}
