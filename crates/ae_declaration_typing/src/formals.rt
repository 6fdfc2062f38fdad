//! The formal parameters of a definition.

ghost use Rattle.std.specs.Prelude.{◌≡◌, [], map, IfOk, IfErr};
ghost use Rattle.std.specs.List.{AllByRecursion};
ghost use Rattle.ae_elab.specs.Declarations.{formals_rule};
ghost use Rattle.ae_elab.specs.Names.{IsName, names_in_typed};
ghost use Rattle.ae_elab.specs.Steps.{IsTaken, IsHalted};
ghost use Rattle.ae_elab.specs.Typings.{bound_in};

use ae_core::lists::List;
use ae_elab::faults::TypeFault;
use ae_elab::grounds::Ground;
use ae_elab::names::{Names, name_at};
use ae_elab::new_names::twice;
use ae_elab::passing::Passing;
use ae_elab::typings::{Bound, Context};
use ae_elab::written_types::sort_of;
use ae_syntax::decls::TypedName;

/// The formal parameters of a definition as variables, each with a number of its own. Each name is looked at before its
/// sort.
pub fn formals_of<'a>(
    context: &Context<'a>,
    passing: &mut Passing<'a>,
    formals: &[TypedName],
) -> Result<List<Bound>, TypeFault>
    requires names { AllByRecursion (λ x. AllByRecursion (IsName context.now.text.now) (names_in_typed x)) formals.now }
    ensures bounds { IfOk result (λ bs. IsTaken (formals_rule context.now.text.now context.now.known [] formals.now) passing.old passing.new (map (bound_in context.now.text.now) bs)) }
    ensures names { IfOk result (AllByRecursion (λ b. IsName context.now.text.now b.name)) }
    ensures fault { IfErr result (IsHalted (formals_rule context.now.text.now context.now.known [] formals.now) passing.old) }
{
    let mut seen = Names::new(context.alloc);
    let mut bounds = List::new(context.alloc);
    for formal in formals {
        let name = name_at(context.text, formal.name);
        if seen.number_of(name).is_some() {
            return Err(twice(context.alloc, name, formal.name)?);
        }
        match sort_of(
            context.alloc,
            context.text,
            &context.known,
            &Ground::Free,
            passing,
            &formal.sort,
        ) {
            Ok(sort) => {
                let number = passing.fresh()?;
                seen.push(name)?;
                bounds.push(Bound {
                    name: formal.name,
                    number,
                    sort,
                })?;
            }
            Err(fault) => return Err(fault),
        }
    }
    Ok(bounds)
}
