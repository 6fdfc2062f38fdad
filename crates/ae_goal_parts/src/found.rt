//! What is printed for a state or a journal.
ghost use Rattle.std.specs.Prelude.{◌≡◌, IfOk};
ghost use Rattle.ae_core.specs.Signatures.{IsLawfulProblem};
ghost use Rattle.ae_core.specs.declared.problems.Signature.{Signature};
ghost use Rattle.ae_printed.specs.ReadBack.{IsReadBack};
ghost use Rattle.ae_statetext.specs.AnswerTexts.{answer_text};
ghost use Rattle.ae_writable.specs.Writable.{IsWritable};
ghost use Rattle.ae_goal_parts.specs.Inner.Items.{IsGoalNamed};
ghost use Rattle.ae_goal_parts.specs.Inner.Shown.{IsFoundWithin, IsOpen, MayBeShown};

use ae_core::problems::Problem;
use ae_core::words::Word;
use ae_counts::{state_counts, story_counts, width_counts};
use ae_journal::answers::Answer;
use ae_statetext::answer_text;
use std::alloc::{AllocError, Global};

// Walks over an answer: one that is writable keeps within the limits of its text.
fn answer_counts(answer: &Answer)
    ensures { (sig : Signature) → IsWritable sig answer.now → IsFoundWithin sig answer.now }
{
    match answer {
        Answer::Valid(_) => {}
        Answer::Unknown(state) => state_counts(state),
        Answer::Steps(story) => story_counts(story),
        Answer::Number { story, at } => {
            story_counts(story);
            width_counts(at);
        }
    }
}

/// The part of a goal for an answer that is no proof. It is read back, since the answer is writable.
pub fn found_part(
    alloc: Global,
    problem: &Problem,
    goal: usize,
    name: &Word,
    answer: &Answer,
) -> Result<Vec<u8>, AllocError>
    requires lawful { IsLawfulProblem problem.now }
    requires named { IsGoalNamed problem.now goal name.now }
    requires no_proof { IsOpen answer.now }
    requires may_be { MayBeShown problem.now goal answer.now }
    ensures shown { IfOk result (λ part. part.items ≡ answer_text problem.now.signature name.now answer.now) }
    ensures read_back { IfOk result (λ part. IsReadBack problem.now goal part.items) }
{
    answer_counts(answer);
    answer_text(alloc, &problem.signature, name, answer)
}
