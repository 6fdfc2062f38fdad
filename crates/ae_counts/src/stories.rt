//! Journals, and widths.
ghost use Rattle.std.specs.Prelude.{◌≡◌, true};
ghost use Rattle.std.specs.List.{list_all};
ghost use Rattle.ae_core.specs.declared.problems.Signature.{Signature};
ghost use Rattle.ae_journal.specs.declared.lines.Story.{Story};
ghost use Rattle.ae_legal_stories.specs.Writable.{IsStoryWithin, IsWidthWithin};
ghost use Rattle.ae_writable.specs.Writable.{IsWritableStory};
ghost use Rattle.ae_counts.specs.Inner.Counted as spec;

use crate::formulas::{formula_counts, literal_counts, literals_count};
use crate::numbers::{number_counts, numbers_count};
use crate::states::terms_are_few;
use crate::terms::{sorts_count, terms_count};
use crate::values::{form_counts, key_counts, value_counts};
use ae_journal::answers::WideAt;
use ae_journal::lines::{Line, Oriented, Story};

// The names of a pending equation have 64 bits.
fn oriented_counts(oriented: &Oriented)
    ensures { spec.oriented_counts oriented.now ≡ true }
{
    match oriented {
        Oriented::Named { name, value } => {
            number_counts(*name);
            value_counts(value);
        }
        Oriented::Rule { left, right, .. } => {
            numbers_count(left.as_slice());
            numbers_count(right.as_slice());
        }
    }
}

// The numbers of something that a line shows have.
fn line_counts(line: &Line)
    ensures { spec.story_line_counts line.now ≡ true }
{
    match line {
        Line::Decide(literal) => literal_counts(literal),
        Line::Orient(oriented) => oriented_counts(oriented),
        Line::Drop(oriented) => oriented_counts(oriented),
        Line::Pair { first, second, .. } => {
            numbers_count(first.as_slice());
            numbers_count(second.as_slice());
        }
        Line::Learn(clause) => literals_count(clause.as_slice()),
        Line::TypeInstance { axiom, sorts } => {
            number_counts(*axiom);
            sorts_count(sorts.as_slice());
        }
        Line::TermInstance { formula, terms } => {
            formula_counts(formula);
            terms_count(terms.as_slice());
        }
        Line::Combine { .. } => {}
        Line::Back(level) => number_counts(*level),
    }
}

fn lines_count(lines: &[Line])
    ensures { list_all spec.story_line_counts lines.now ≡ true }
{
    for line in lines {
        line_counts(line);
    }
}

/// Walks over a journal, and answers nothing: each number of something in it is a machine's, and so has 64 bits. A writable journal in memory keeps
/// within the limits of its text. It takes no memory, and its time is linear in the journal.
pub fn story_counts(story: &Story)
    ensures limits { (sig : Signature) → IsWritableStory sig story.now → IsStoryWithin sig story.now }
{
    terms_count(story.names.as_slice());
    terms_are_few(story.names.as_slice());
    lines_count(story.lines.as_slice());
}

/// Walks over a width, and answers nothing: its names are a machine's numbers, and so have 64 bits. Beside a journal that keeps within the limits of its
/// text it keeps within those of its own. It takes no memory, and its time is linear in the width.
pub fn width_counts(at: &WideAt)
    ensures limits { (sig : Signature) (story : Story) → IsStoryWithin sig story → IsWidthWithin sig story at.now }
{
    form_counts(&at.left);
    form_counts(&at.right);
    key_counts(at.key);
}
