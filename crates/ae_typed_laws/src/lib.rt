//! Laws of typed files: where their faults stand, and that their problems are lawful.
#![tactic(auto)]

mod laws;

pub use laws::{faults_stand, never_too_large, signatures_are_lawful};
