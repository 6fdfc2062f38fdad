//! Rules whose premises have other numbers.
ghost use Rattle.std.specs.Prelude.{◌≡◌, map, IfOk};
ghost use Rattle.ae_just.specs.Needed.{IsRising};
ghost use Rattle.ae_just.specs.Steps as spec;
ghost use Rattle.ae_short_derivations.specs.Inner.Keeping.{place_of};

use ae_core::lists::List;
use ae_core::proofs::Scaled;
use ae_just::needed::place;
use ae_just::steps::Rule;
use std::alloc::{AllocError, Global};

/// The needed steps so far, and for each the number of the step that was kept for it.
#[derive(Clone, Copy)]
pub(crate) struct Places<'a> {
    pub(crate) needed: &'a [usize],
    pub(crate) kept: &'a [usize],
}

impl Places<'_> {
    /// The number of the step that was kept for a step.
    pub(crate) fn of(self, step: usize) -> usize
        requires { IsRising self.needed.now }
        ensures { result ≡ place_of self.entry.needed.now self.entry.kept.now step }
    {
        match self.kept.get(place(self.needed, step)) {
            Some(number) => *number,
            None => 0,
        }
    }
}

fn renamed_steps(
    alloc: Global,
    places: Places<'_>,
    steps: &[usize],
) -> Result<List<usize>, AllocError>
    requires { IsRising places.needed.now }
    ensures { IfOk result (λ ks. ks ≡ map (place_of places.entry.needed.now places.entry.kept.now) steps.now) }
{
    let mut renamed = List::new(alloc);
    for step in steps {
        renamed.push(places.of(*step))?;
    }
    Ok(renamed)
}

fn renamed_parts(
    alloc: Global,
    places: Places<'_>,
    parts: &[Scaled],
) -> Result<List<Scaled>, AllocError>
    requires { IsRising places.needed.now }
    ensures { IfOk result (λ ps. ps ≡ map (spec.renamed (place_of places.entry.needed.now places.entry.kept.now)) parts.now) }
{
    let mut renamed = List::new(alloc);
    for part in parts {
        renamed.push(Scaled {
            factor: part.factor,
            line: places.of(part.line),
        })?;
    }
    Ok(renamed)
}

/// A rule with the numbers of the steps that were kept.
pub(crate) fn renamed_rule(
    alloc: Global,
    places: Places<'_>,
    rule: &Rule,
) -> Result<Rule, AllocError>
    requires { IsRising places.needed.now }
    ensures { IfOk result (λ r. r ≡ spec.renamed_rule (place_of places.entry.needed.now places.entry.kept.now) rule.now) }
{
    match rule {
        Rule::Hyp(tag) => Ok(Rule::Hyp(*tag)),
        Rule::Refl => Ok(Rule::Refl),
        Rule::Sym(k) => Ok(Rule::Sym(places.of(*k))),
        Rule::Trans(j, k) => Ok(Rule::Trans(places.of(*j), places.of(*k))),
        Rule::Cong(ks) => Ok(Rule::Cong(renamed_steps(alloc, places, ks.as_slice())?)),
        Rule::Ac => Ok(Rule::Ac),
        Rule::Lin { times, parts } => Ok(Rule::Lin {
            times: *times,
            parts: renamed_parts(alloc, places, parts.as_slice())?,
        }),
        Rule::Field => Ok(Rule::Field),
        Rule::Fields(ks) => Ok(Rule::Fields(renamed_steps(alloc, places, ks.as_slice())?)),
    }
}
