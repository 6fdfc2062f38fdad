//! A goal's part of the output.
ghost use Rattle.std.specs.Prelude.{◌≡◌, ◌++◌, codes, decimal, OnOk, IfOk};
ghost use Rattle.ae_journal.specs.Journals.{is_counted, counted_in};
ghost use Rattle.ae_statetext.specs.AnswerTexts.{first_version, goal_line, answer_text};

use crate::journals::{put_number, put_story};
use crate::states::put_state;
use ae_core::problems::Signature;
use ae_core::proofs::Proof;
use ae_core::words::Word;
use ae_journal::answers::Answer;
use ae_journal::lines::Line;
use ae_prooftext::{put, put_lines, put_number as put_size};
use std::alloc::{AllocError, Global};

fn is_counted(line: &Line) -> bool
    ensures { result ≡ is_counted line.now }
{
    match line {
        Line::Drop(_) => false,
        Line::Back(_) => false,
        Line::Decide(_) => true,
        Line::Orient(_) => true,
        Line::Pair { .. } => true,
        Line::Learn(_) => true,
        Line::TypeInstance { .. } => true,
        Line::TermInstance { .. } => true,
        Line::Combine { .. } => true,
    }
}

fn counted_in(lines: &[Line]) -> usize
    ensures { result ≡ counted_in lines.now }
{
    let mut count = 0;
    for line in lines {
        if is_counted(line) {
            count += 1;
        }
    }
    count
}

fn put_goal(out: &mut Vec<u8>, name: &Word, words: &[u8]) -> Result<(), AllocError>
    ensures { OnOk result (out.new.items ≡ out.old.items ++ goal_line name.now words.now) }
{
    put(out, b"goal ")?;
    put(out, name.as_str().as_bytes())?;
    put(out, words)?;
    put(out, b"\n")
}

fn put_count(out: &mut Vec<u8>, steps: usize) -> Result<(), AllocError>
    ensures { OnOk result (out.new.items ≡ out.old.items ++ (codes " Limit steps " ++ decimal steps)) }
{
    put(out, b" Limit steps ")?;
    put_size(out, steps)
}

fn put_steps(out: &mut Vec<u8>, name: &Word, steps: usize) -> Result<(), AllocError>
    ensures { OnOk result (out.new.items ≡ out.old.items ++ goal_line name.now (codes " Limit steps " ++ decimal steps)) }
{
    put(out, b"goal ")?;
    put(out, name.as_str().as_bytes())?;
    put_count(out, steps)?;
    put(out, b"\n")
}

#[tactic(auto, unfolding(ae_prooftext::specs::Texts::proof_text))]
fn put_first_version(
    out: &mut Vec<u8>,
    signature: &Signature,
    proof: &Proof,
) -> Result<(), AllocError>
    ensures { OnOk result (out.new.items ≡ out.old.items ++ first_version signature.now proof.now) }
{
    put(out, b"proof 1\n")?;
    put_lines(out, signature, proof.lines.as_slice())
}

/// Puts a goal's part of the output at the end: the goal, its answer, and the text of what was found. `Err` where there is no memory for it.
#[tactic(auto, unfolding(crate::specs::AnswerTexts::answer_text))]
pub fn put_answer(
    out: &mut Vec<u8>,
    signature: &Signature,
    name: &Word,
    answer: &Answer,
) -> Result<(), AllocError>
    ensures text { OnOk result (out.new.items ≡ out.old.items ++ answer_text signature.now name.now answer.now) }
{
    match answer {
        Answer::Valid(proof) => {
            put_goal(out, name, b" Valid")?;
            put_first_version(out, signature, proof)
        }
        Answer::Unknown(state) => {
            put_goal(out, name, b" I don't know")?;
            put_state(out, signature, state)
        }
        Answer::Steps(story) => {
            put_steps(out, name, counted_in(story.lines.as_slice()))?;
            put_story(out, signature, story)
        }
        Answer::Number { story, at } => {
            put_goal(out, name, b" Limit number")?;
            put_number(out, signature, story, at)
        }
    }
}

/// A goal's part of the output; `Err` where there is no memory for it.
pub fn answer_text(
    alloc: Global,
    signature: &Signature,
    name: &Word,
    answer: &Answer,
) -> Result<Vec<u8>, AllocError>
    ensures text { IfOk result (λ bytes. bytes.items ≡ answer_text signature.now name.now answer.now) }
{
    let mut out = Vec::new(alloc);
    put_answer(&mut out, signature, name, answer)?;
    Ok(out)
}
