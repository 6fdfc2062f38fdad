//! The variables of a block.

ghost use Rattle.std.specs.Prelude.{◌≡◌, ◌++◌, [], List, length, map, reverse, IfOk, IfErr, OnOk};
ghost use Rattle.std.specs.List.{AllByRecursion};
ghost use Rattle.ae_elab.specs.Declarations.{all_different};
ghost use Rattle.ae_elab.specs.Environments.{entries, locals};
ghost use Rattle.ae_elab.specs.Formulas.{groups_rule, local_of, variable_of};
ghost use Rattle.ae_elab.specs.Names.{IsName, names_in_group};
ghost use Rattle.ae_elab.specs.Rules.{each};
ghost use Rattle.ae_elab.specs.Scope as scope;
ghost use Rattle.ae_elab.specs.Scope.{name_in, scope_with};
ghost use Rattle.ae_elab.specs.Steps.{AreHeld, AreFailed, IsTaken, IsHalted};
ghost use Rattle.ae_elab.specs.Typings.{bound_in};
ghost use Rattle.ae_elab.specs.declared.typings.Bound as code;

use ae_core::copies::copy_sort;
use ae_core::lists::List;
use ae_core::terms::Sort;
use ae_elab::environment::{Environment, Meaning};
use ae_elab::faults::TypeFault;
use ae_elab::grounds::Ground;
use ae_elab::names::{Names, name_at};
use ae_elab::new_names::twice;
use ae_elab::passing::Passing;
use ae_elab::typings::{Bound, Context};
use ae_elab::written_types::sort_of;
use ae_syntax::exprs::Group;
use ae_syntax::spans::Span;
use std::alloc::{AllocError, Global};

// None of these names is among those that were seen, and none stands before it among them; all of them are seen then.
fn new_names<'a>(
    alloc: Global,
    text: &'a [u8],
    seen: &mut Names<'a>,
    places: &[Span],
) -> Result<(), TypeFault>
    requires names { AllByRecursion (IsName text.now) places.now }
    ensures met { OnOk result (AreHeld (all_different text.now (reverse seen.old) places.now)) }
    ensures names { OnOk result (seen.new ≡ seen.old ++ map (name_in text.now) places.now) }
    ensures fault { IfErr result (AreFailed (all_different text.now (reverse seen.old) places.now)) }
{
    for place in places {
        let name = name_at(text, *place);
        if seen.number_of(name).is_some() {
            return Err(twice(alloc, name, *place)?);
        }
        seen.push(name)?;
    }
    Ok(())
}

// Variables of these names and this sort behind others.
fn push_variables<'a>(
    alloc: Global,
    passing: &mut Passing<'a>,
    bounds: &mut List<Bound>,
    names: &[Span],
    sort: &Sort,
) -> Result<(), AllocError>
    ensures variables { OnOk result ((sc : scope.Scope) → (more : List code.Bound) × (bounds.new ≡ bounds.old ++ more)
        × IsTaken (each (variable_of sc sort.now) names.now) passing.old passing.new (map (bound_in sc.text) more)) }
    ensures names { OnOk result (map (λ b. b.name) bounds.new ≡ map (λ b. b.name) bounds.old ++ names.now) }
{
    for name in names {
        let number = passing.fresh()?;
        let sort = copy_sort(alloc, sort)?;
        bounds.push(Bound {
            name: *name,
            number,
            sort,
        })?;
    }
    Ok(())
}

/// The variables of a block's groups, each with a number of its own. The faults of a group are a name that stands for the
/// second time in the block, and those of its sort.
pub fn variables<'a>(
    context: &Context<'a>,
    passing: &mut Passing<'a>,
    groups: &[Group],
) -> Result<List<Bound>, TypeFault>
    requires names { AllByRecursion (λ g. AllByRecursion (IsName context.now.text.now) (names_in_group g)) groups.now }
    ensures bounds { IfOk result (λ bs. (locals : List scope.Local) → IsTaken (groups_rule [] groups.now (scope_with context.now.text.now context.now.known locals)) passing.old passing.new (map (bound_in context.now.text.now) bs)) }
    ensures names { IfOk result (AllByRecursion (λ b. IsName context.now.text.now b.name)) }
    ensures fault { IfErr result (λ e. (locals : List scope.Local) → IsHalted (groups_rule [] groups.now (scope_with context.now.text.now context.now.known locals)) passing.old e) }
{
    let mut seen = Names::new(context.alloc);
    let mut bounds = List::new(context.alloc);
    for group in groups {
        match new_names(
            context.alloc,
            context.text,
            &mut seen,
            group.names.as_slice(),
        ) {
            Ok(()) => {}
            Err(fault) => return Err(fault),
        }
        match sort_of(
            context.alloc,
            context.text,
            &context.known,
            &Ground::Free,
            passing,
            &group.sort,
        ) {
            Ok(sort) => push_variables(
                context.alloc,
                passing,
                &mut bounds,
                group.names.as_slice(),
                &sort,
            )?,
            Err(fault) => return Err(fault),
        }
    }
    Ok(bounds)
}

/// Binds the variables of a block; the last one is the innermost. After want of memory some of them may be bound.
pub fn enter_block<'a>(
    context: &Context<'a>,
    environment: &mut Environment<'a>,
    bounds: &[Bound],
) -> Result<(), AllocError>
    requires names { AllByRecursion (λ b. IsName context.now.text.now b.name) bounds.now }
    ensures nodes { entries environment.new ≡ entries environment.old }
    ensures locals { OnOk result (locals environment.new ≡ reverse (map local_of (map (bound_in context.now.text.now) bounds.now)) ++ locals environment.old) }
{
    for bound in bounds {
        let sort = copy_sort(context.alloc, &bound.sort)?;
        let meaning = Meaning::Variable {
            number: bound.number,
            sort,
        };
        environment.enter(name_at(context.text, bound.name), meaning)?;
    }
    Ok(())
}

/// Leaves as many of the innermost bound names.
pub fn leave_block<'a>(environment: &mut Environment<'a>, count: usize)
    ensures nodes { entries environment.new ≡ entries environment.old }
    ensures locals { (inner outer : List scope.Local) → locals environment.old ≡ inner ++ outer → length inner ≡ count → locals environment.new ≡ outer }
{
    for place in 0..count {
        environment.leave();
    }
}
