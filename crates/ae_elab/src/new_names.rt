//! Names that are declared once.

ghost use Rattle.std.specs.Prelude.{◌≡◌, ◌||◌, ◌∷◌, [], List, ℕ, map, IfOk, IfErr, OnOk};
ghost use Rattle.std.specs.List.{AllByRecursion};
ghost use Rattle.std.specs.Option.{is_some};
ghost use Rattle.std.specs.Str.{bytes_eq};
ghost use Rattle.ae_elab.specs.declared.faults.TypeFault.TheVariants as fault;
ghost use Rattle.ae_elab.specs.Declarations as rule;
ghost use Rattle.ae_elab.specs.Names.{IsName};
ghost use Rattle.ae_elab.specs.Scope.{first_place, name_in, symbol_number};
ghost use Rattle.ae_elab.specs.Steps.{AreHeld, AreFailed};

use crate::faults::TypeFault;
use crate::known::Known;
use crate::names::{Names, name_at, word_of};
use ae_core::lists::List;
use ae_syntax::spans::Span;
use std::alloc::{AllocError, Global};

// The fault of a name that stands there for the second time.
pub fn twice(alloc: Global, name: &str, place: Span) -> Result<TypeFault, AllocError>
    ensures { IfOk result (λ e. e ≡ fault.Twice name.now place.from place.to) }
{
    let name = word_of(alloc, name)?;
    Ok(TypeFault::Twice {
        name,
        from: place.from as usize,
        to: place.to as usize,
    })
}

// Whether a name is that of a declared symbol, or stands among these names.
fn is_taken<'a>(known: &Known<'a>, seen: &Names<'a>, name: &'a str) -> bool
    ensures { result ≡ (is_some (symbol_number known.now name.now) || is_some (first_place (bytes_eq name.now) seen.now)) }
{
    match known.symbol_number(name) {
        Some(_number) => true,
        None => seen.number_of(name).is_some(),
    }
}

/// No declared symbol has one of these names, and none of them stands before it among them.
pub fn new_symbols<'a>(
    alloc: Global,
    text: &'a [u8],
    known: &Known<'a>,
    places: &List<Span>,
) -> Result<(), TypeFault>
    requires names { AllByRecursion (IsName text.now) places.now }
    ensures met { OnOk result (AreHeld (rule.new_symbols text.now known.now [] places.now)) }
    ensures fault { IfErr result (AreFailed (rule.new_symbols text.now known.now [] places.now)) }
{
    let mut seen = Names::new(alloc);
    for place in places.as_slice() {
        let name = name_at(text, *place);
        if is_taken(known, &seen, name) {
            return Err(twice(alloc, name, *place)?);
        }
        seen.push(name)?;
    }
    Ok(())
}

/// No declared type has the name at a place.
pub fn new_type<'a>(
    alloc: Global,
    text: &'a [u8],
    known: &Known<'a>,
    place: Span,
) -> Result<(), TypeFault>
    requires { IsName text.now place }
    ensures met { OnOk result (AreHeld (rule.new_type text.now known.now place ∷ [])) }
    ensures fault { IfErr result (AreFailed (rule.new_type text.now known.now place ∷ [])) }
{
    let name = name_at(text, place);
    match known.type_number(name) {
        Some(_number) => Err(twice(alloc, name, place)?),
        None => Ok(()),
    }
}

/// No declared symbol has the name at a place.
pub fn new_symbol<'a>(
    alloc: Global,
    text: &'a [u8],
    known: &Known<'a>,
    place: Span,
) -> Result<(), TypeFault>
    requires { IsName text.now place }
    ensures met { OnOk result (AreHeld (rule.new_symbol text.now known.now place ∷ [])) }
    ensures fault { IfErr result (AreFailed (rule.new_symbol text.now known.now place ∷ [])) }
{
    let name = name_at(text, place);
    match known.symbol_number(name) {
        Some(_number) => Err(twice(alloc, name, place)?),
        None => Ok(()),
    }
}

/// None of these names stands before it among them. The answer numbers them.
pub fn all_different<'a>(
    alloc: Global,
    text: &'a [u8],
    places: &List<Span>,
) -> Result<Names<'a>, TypeFault>
    requires names { AllByRecursion (IsName text.now) places.now }
    ensures met { OnOk result (AreHeld (rule.all_different text.now [] places.now)) }
    ensures names { IfOk result (λ names. names ≡ map (name_in text.now) places.now) }
    ensures fault { IfErr result (AreFailed (rule.all_different text.now [] places.now)) }
{
    let mut seen = Names::new(alloc);
    for place in places.as_slice() {
        let name = name_at(text, *place);
        if seen.number_of(name).is_some() {
            return Err(twice(alloc, name, *place)?);
        }
        seen.push(name)?;
    }
    Ok(seen)
}
