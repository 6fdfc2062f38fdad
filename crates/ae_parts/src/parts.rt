//! A goal's part of an output.
use ae_journal::answers::WideAt;
use ae_journal::lines::Story;
use ae_journal::systems::Saturated;
use ae_prooftext::ProofText;

/// What an output says of a goal.
#[derive(Drop)]
pub enum Part {
    /// A proof, in version 1 or in version 2.
    Valid(ProofText),
    /// A saturated state.
    Unknown(Saturated),
    /// How many steps were taken, from 1 to 1,000,000, and a journal.
    Steps { limit: usize, story: Story },
    /// A journal, and a step that leaves the limits after it.
    Number { story: Story, width: WideAt },
}
