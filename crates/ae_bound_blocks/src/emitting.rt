//! Lines for the rows that a row is made of, in their order.
ghost use Rattle.std.specs.Prelude.{◌≡◌, ◌<◌, ◌+◌, ◌++◌, ◌∷◌, [], ℕ, suc, true, false, length, slice_get, get_or, Some, None, IfOk};
ghost use Rattle.ae_num.specs.Forms.{IsNormal};
ghost use Rattle.ae_rules.specs.Lines.{AllAllowed, fact_ok};
ghost use Rattle.ae_store.specs.Shapes.{shapes};
ghost use Rattle.ae_store.specs.Terms.{terms};
ghost use Rattle.ae_trim.specs.Inner.Marks.{marked};
ghost use Rattle.ae_bound_blocks.specs.declared.given.Given.{Given as GivenLines};
ghost use Rattle.ae_bound_blocks.specs.Ancestors.{hyps_of};
ghost use Rattle.ae_just.specs.Sides.{ArePartsWithin};
ghost use Rattle.ae_state_steps.specs.ValueSteps.{times_of};
ghost use Rattle.ae_bound_blocks.specs.Said as spec;
ghost use Rattle.ae_bound_blocks.specs.Said.{kept, was, IsGiven};
ghost use Rattle.ae_bound_blocks.specs.Inner.Emitting.{IsCombinationOf, IsSaid, IsSaidAfter, IsRoundable, IsMore, AreEmitted, AreReady};

use crate::given::Given;
use crate::lines::{last_factor, line_at, line_times, one_part, round_line, row_line, two_parts};
use ae_bounds::rows::{Origin, Row};
use ae_core::lists::List;
use ae_core::proofs::Deriv;
use ae_derivations::joining::joined;
use ae_num::forms::Lin;
use ae_store::store::Store;
use std::alloc::{AllocError, Global};

/// The lines of the first rows, the tags on which they rest, and by each row the number of its line, 0 where it isn't marked.
#[derive(Drop)]
pub struct Emitted {
    pub deriv: Deriv,
    pub tags: List<usize>,
    pub places: List<usize>,
}

/// The form that a row had before it was rounded, or its own.
fn form_of(row: &Row) -> &Lin
    ensures { result.now ≡ (was row.now).lin }
{
    match &row.unrounded {
        Some(earlier) => &earlier.lin,
        None => &row.lin,
    }
}

/// Whether a row was strict before it was rounded, or is.
fn strict_of(row: &Row) -> bool
    ensures { result ≡ (was row.now).strict }
{
    match &row.unrounded {
        Some(earlier) => earlier.strict,
        None => row.strict,
    }
}

/// The number of the last line.
pub fn last_line(deriv: &Deriv) -> usize
    requires some { 0 < length deriv.now.lines }
    ensures { suc result ≡ length deriv.now.lines }
{
    deriv.lines.len() - 1
}

/// The lines that give an assumed form, after others, and the line that says it.
fn after_given(
    alloc: Global,
    store: &Store,
    real: bool,
    form: &Lin,
    strict: bool,
    given: &Given,
    deriv: Deriv,
) -> Result<Deriv, AllocError>
    requires normal { IsNormal form.now }
    requires given { IsGiven store.now.signature (terms (shapes store.now.nodes)) real (record { lin = form.now; strict = strict }) given.now }
    requires allowed { AllAllowed store.now.signature (fact_ok store.now.signature) deriv.hyps [] deriv.lines }
    ensures hyps { IfOk result (λ d. d.hyps ≡ deriv.hyps ++ given.now.deriv.hyps) }
    ensures said { IfOk result (λ d. IsSaidAfter store.now.signature (terms (shapes store.now.nodes)) real deriv d (record { lin = form.now; strict = strict })) }
{
    let mut both = joined(alloc, deriv, &given.deriv)?;
    let from = last_line(&both);
    let parts = one_part(alloc, form.den, from)?;
    let line = row_line(alloc, store, real, strict, form, given.multiple, parts)?;
    both.lines.push(line)?;
    Ok(both)
}

/// The line that says the combination of two rows, after the lines that say these.
fn after_both(
    alloc: Global,
    store: &Store,
    real: bool,
    form: &Lin,
    strict: bool,
    first: &Row,
    second: &Row,
    lower: usize,
    upper: usize,
    deriv: Deriv,
) -> Result<Deriv, AllocError>
    requires combined { IsCombinationOf (kept first.now) (kept second.now) (record { lin = form.now; strict = strict }) }
    requires first { IsSaid store.now.signature (terms (shapes store.now.nodes)) real deriv.lines lower (kept first.now) }
    requires second { IsSaid store.now.signature (terms (shapes store.now.nodes)) real deriv.lines upper (kept second.now) }
    requires allowed { AllAllowed store.now.signature (fact_ok store.now.signature) deriv.hyps [] deriv.lines }
    ensures hyps { IfOk result (λ d. d.hyps ≡ deriv.hyps) }
    ensures said { IfOk result (λ d. IsSaidAfter store.now.signature (terms (shapes store.now.nodes)) real deriv d (record { lin = form.now; strict = strict })) }
{
    let times = line_times(&first.lin, &second.lin, form);
    let parts = two_parts(
        alloc,
        last_factor(&second.lin),
        lower,
        last_factor(&first.lin),
        upper,
    )?;
    let line = row_line(alloc, store, real, strict, form, times, parts)?;
    let Deriv { hyps, mut lines } = deriv;
    lines.push(line)?;
    Ok(Deriv { hyps, lines })
}

/// The line that rounds the one of this number.
fn after_last(
    alloc: Global,
    store: &Store,
    real: bool,
    form: &Lin,
    last: usize,
    deriv: Deriv,
) -> Result<Deriv, AllocError>
    requires within { ArePartsWithin (length (terms (shapes store.now.nodes))) (times_of form.now.parts) }
    ensures hyps { IfOk result (λ d. d.hyps ≡ deriv.hyps) }
    ensures lines { IfOk result (λ d. d.lines ≡ deriv.lines ++ spec.round_line (terms (shapes store.now.nodes)) real form.now last ∷ []) }
{
    let line = round_line(alloc, store, real, form, last)?;
    let Deriv { hyps, mut lines } = deriv;
    lines.push(line)?;
    Ok(Deriv { hyps, lines })
}

/// Whether a row was rounded.
fn is_rounded(row: &Row) -> bool
    ensures some { result ≡ true → (u : _) × (row.now.unrounded ≡ Some u) }
    ensures none { result ≡ false → row.now.unrounded ≡ None }
{
    row.unrounded.is_some()
}

/// The lines that say a row, after those of which the last says it as it was before it was rounded.
fn after_rounding(
    alloc: Global,
    store: &Store,
    real: bool,
    row: &Row,
    deriv: Deriv,
) -> Result<Deriv, AllocError>
    requires roundable { IsRoundable (terms (shapes store.now.nodes)) real row.now }
    requires said { IsSaidAfter store.now.signature (terms (shapes store.now.nodes)) real deriv deriv (was row.now) }
    ensures hyps { IfOk result (λ d. d.hyps ≡ deriv.hyps) }
    ensures said { IfOk result (λ d. IsSaidAfter store.now.signature (terms (shapes store.now.nodes)) real deriv d (kept row.now)) }
{
    if is_rounded(row) {
        let last = last_line(&deriv);
        return after_last(alloc, store, real, &row.lin, last, deriv);
    }
    Ok(deriv)
}

/// The lines that give an assumed row, and those that say it.
fn add_assumed(
    alloc: Global,
    store: &Store,
    real: bool,
    row: &Row,
    tag: usize,
    given: &[Given],
    emitted: Emitted,
) -> Result<Emitted, AllocError>
    requires normal { IsNormal (was row.now).lin }
    requires roundable { IsRoundable (terms (shapes store.now.nodes)) real row.now }
    requires given { (g : GivenLines) × (slice_get given.now tag ≡ Some g) × IsGiven store.now.signature (terms (shapes store.now.nodes)) real (was row.now) g }
    requires allowed { AllAllowed store.now.signature (fact_ok store.now.signature) emitted.deriv.hyps [] emitted.deriv.lines }
    ensures more { IfOk result (λ e. IsMore store.now.signature (terms (shapes store.now.nodes)) real emitted e row.now) }
    ensures tags { IfOk result (λ e. e.tags ≡ emitted.tags ++ tag ∷ []) }
    ensures hyps { IfOk result (λ e. e.deriv.hyps ≡ emitted.deriv.hyps ++ hyps_of given.now tag) }
{
    let Emitted {
        deriv,
        mut tags,
        mut places,
    } = emitted;
    let form = form_of(row);
    let strict = strict_of(row);
    let lines = &given[tag];
    let plain = after_given(alloc, store, real, form, strict, lines, deriv)?;
    let said = after_rounding(alloc, store, real, row, plain)?;
    let last = last_line(&said);
    tags.push(tag)?;
    places.push(last)?;
    Ok(Emitted {
        deriv: said,
        tags,
        places,
    })
}

/// The lines that say the combination of two rows.
fn add_combined(
    alloc: Global,
    store: &Store,
    real: bool,
    rows: &[Row],
    row: &Row,
    lower: usize,
    upper: usize,
    emitted: Emitted,
) -> Result<Emitted, AllocError>
    requires lower { lower < length rows.now }
    requires upper { upper < length rows.now }
    requires lower_place { lower < length emitted.places }
    requires upper_place { upper < length emitted.places }
    requires roundable { IsRoundable (terms (shapes store.now.nodes)) real row.now }
    requires combined { IsCombinationOf (kept (get_or rows.now lower row.now)) (kept (get_or rows.now upper row.now)) (was row.now) }
    requires first { IsSaid store.now.signature (terms (shapes store.now.nodes)) real emitted.deriv.lines (get_or emitted.places lower 0) (kept (get_or rows.now lower row.now)) }
    requires second { IsSaid store.now.signature (terms (shapes store.now.nodes)) real emitted.deriv.lines (get_or emitted.places upper 0) (kept (get_or rows.now upper row.now)) }
    requires allowed { AllAllowed store.now.signature (fact_ok store.now.signature) emitted.deriv.hyps [] emitted.deriv.lines }
    ensures more { IfOk result (λ e. IsMore store.now.signature (terms (shapes store.now.nodes)) real emitted e row.now) }
    ensures tags { IfOk result (λ e. e.tags ≡ emitted.tags) }
    ensures hyps { IfOk result (λ e. e.deriv.hyps ≡ emitted.deriv.hyps) }
{
    let Emitted {
        deriv,
        tags,
        mut places,
    } = emitted;
    let lower_line = line_at(places.as_slice(), lower);
    let upper_line = line_at(places.as_slice(), upper);
    let plain = after_both(
        alloc,
        store,
        real,
        form_of(row),
        strict_of(row),
        &rows[lower],
        &rows[upper],
        lower_line,
        upper_line,
        deriv,
    )?;
    let said = after_rounding(alloc, store, real, row, plain)?;
    let last = last_line(&said);
    places.push(last)?;
    Ok(Emitted {
        deriv: said,
        tags,
        places,
    })
}

/// The lines of a row that is marked.
fn add_row(
    alloc: Global,
    store: &Store,
    real: bool,
    rows: &[Row],
    given: &[Given],
    marks: &[bool],
    place: usize,
    emitted: Emitted,
) -> Result<Emitted, AllocError>
    requires place { place < length rows.now }
    requires ready { AreReady store.now.signature (terms (shapes store.now.nodes)) real rows.now given.now marks.now }
    requires marked { marked marks.now place ≡ true }
    requires emitted { AreEmitted store.now.signature (terms (shapes store.now.nodes)) real rows.now given.now marks.now place emitted }
    ensures { IfOk result (λ e. AreEmitted store.now.signature (terms (shapes store.now.nodes)) real rows.now given.now marks.now (place + 1) e) }
{
    let row = &rows[place];
    match row.from {
        Origin::Assumed(tag) => add_assumed(alloc, store, real, row, tag, given, emitted),
        Origin::Combined { lower, upper } => {
            add_combined(alloc, store, real, rows, row, lower, upper, emitted)
        }
    }
}

/// The lines of a row, where it is marked.
fn emit_row(
    alloc: Global,
    store: &Store,
    real: bool,
    rows: &[Row],
    given: &[Given],
    marks: &[bool],
    place: usize,
    emitted: Emitted,
) -> Result<Emitted, AllocError>
    requires place { place < length rows.now }
    requires ready { AreReady store.now.signature (terms (shapes store.now.nodes)) real rows.now given.now marks.now }
    requires emitted { AreEmitted store.now.signature (terms (shapes store.now.nodes)) real rows.now given.now marks.now place emitted }
    ensures { IfOk result (λ e. AreEmitted store.now.signature (terms (shapes store.now.nodes)) real rows.now given.now marks.now (place + 1) e) }
{
    let is_marked = marks[place];
    if is_marked {
        return add_row(alloc, store, real, rows, given, marks, place, emitted);
    }
    let Emitted {
        deriv,
        tags,
        mut places,
    } = emitted;
    places.push(0)?;
    Ok(Emitted {
        deriv,
        tags,
        places,
    })
}

/// The lines of the marked rows, in their order.
pub fn emit(
    alloc: Global,
    store: &Store,
    real: bool,
    rows: &[Row],
    given: &[Given],
    marks: &[bool],
) -> Result<Emitted, AllocError>
    requires ready { AreReady store.now.signature (terms (shapes store.now.nodes)) real rows.now given.now marks.now }
    ensures { IfOk result (λ e. AreEmitted store.now.signature (terms (shapes store.now.nodes)) real rows.now given.now marks.now (length rows.now) e) }
{
    let mut emitted = Emitted {
        deriv: Deriv {
            hyps: List::new(alloc),
            lines: List::new(alloc),
        },
        tags: List::new(alloc),
        places: List::new(alloc),
    };
    for place in 0..rows.len() {
        emitted = emit_row(alloc, store, real, rows, given, marks, place, emitted)?;
    }
    Ok(emitted)
}
