//! Laws of steps. These functions do nothing: each one's contract is a theorem.
ghost use Rattle.ae_turns.specs.Leading.{StayingLeads, GoingOnLeads};
ghost use Rattle.ae_turns.specs.Representing.{LeastNamesRepresent, RepresentativesAreLeast, RepresentativesAreNames};

/// What a step keeps, no step and two steps keep.
pub fn steps_lead_on()
    ensures none { StayingLeads }
    ensures two { GoingOnLeads }
{}

/// The least of the names that are the same represents their value within their sort; it is its own representative.
pub fn least_names_represent()
    ensures represent { LeastNamesRepresent }
    ensures least { RepresentativesAreLeast }
    ensures names { RepresentativesAreNames }
{}
