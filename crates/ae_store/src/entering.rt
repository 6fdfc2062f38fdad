//! Entering shapes and terms.
ghost use Rattle.std.specs.Prelude.{◌≡◌, ◌≢◌, ◌<◌, ◌≤◌, ◌⊎◌, length, slice_get, true, Some, IfOk, OnOk, OnErr};
ghost use Rattle.ae_store.specs.Shapes.{shapes};
ghost use Rattle.ae_store.specs.Terms as spec;
ghost use Rattle.ae_store.specs.Terms.{terms, term_of, named, IsSound, IsShapeAt, IsOfSort};
ghost use Rattle.ae_store.specs.Growing.{IsFront};
ghost use Rattle.ae_store.specs.Fields as fields;
ghost use Rattle.ae_store.specs.Fields.{IsComplete, News, OnlyNew};
ghost use Rattle.ae_store.specs.Parts.{IsIn, AreIn, AreGiven, HasFieldsIn, Added};
ghost use Rattle.ae_store.specs.declared.nodes.Shape.{Shape};
ghost use Rattle.ae_store.specs.Names.{AreNames, AreWithin, enterable};
ghost use Rattle.std.specs.Prelude.{ℕ, List, map, cond, [], ◌∷◌};
ghost use Rattle.ae_core.specs.Signatures.{IsLawful};
ghost use Rattle.ae_core.specs.declared.terms.Sort.{Int, Real};
ghost use Rattle.std.specs.List.{AllByRecursion};
ghost use Rattle.ae_core.specs.declared.problems.Signature.{Signature};
ghost use Rattle.ae_core.specs.declared.terms.Term.{Term, Num, Fresh, Apply};

use crate::args::Args;
use crate::nodes::{NodeHead, Shape, node_of};
use crate::table::Nodes;
use ae_core::copies::{copy_sort, copy_sorts};
use ae_core::lists::List;
use ae_core::problems::{Kind, Signature};
use ae_core::putting::put_sort;
use ae_core::terms::{Head, Sort, Term};
use std::alloc::{AllocError, Global};

/// The sort of an application of a head at these sorts; of a predicate's, `bool`.
pub fn node_sort(
    alloc: Global,
    signature: &Signature,
    head: Head,
    sorts: &[Sort],
) -> Result<Sort, AllocError>
    ensures { IfOk result (λ s. s ≡ spec.node_sort signature.now head sorts.now) }
{
    match head {
        Head::Symbol(n) => match signature.symbols.get(n) {
            None => Ok(Sort::Bool),
            Some(entry) => match &entry.result {
                None => Ok(Sort::Bool),
                Some(found) => put_sort(alloc, found, sorts),
            },
        },
        Head::Build(n) => Ok(Sort::Named {
            head: n,
            args: copy_sorts(alloc, sorts)?,
        }),
        Head::Field { of, place } => match signature.types.get(of) {
            None => Ok(Sort::Bool),
            Some(entry) => match &entry.kind {
                Kind::Abstract => Ok(Sort::Bool),
                Kind::Choices(_) => Ok(Sort::Bool),
                Kind::Fields(fields) => match fields.get(place) {
                    None => Ok(Sort::Bool),
                    Some(field) => put_sort(alloc, &field.sort, sorts),
                },
            },
        },
        Head::Int(_) => Ok(Sort::Int),
        Head::Real(_) => Ok(Sort::Real),
        Head::True => Ok(Sort::Bool),
        Head::False => Ok(Sort::Bool),
        Head::Void => Ok(Sort::Unit),
    }
}

/// The place of a shape's node, which is entered where there is none.
pub fn enter(
    alloc: Global,
    signature: &Signature,
    nodes: &mut Nodes,
    shape: Shape,
    generation: u32,
) -> Result<usize, AllocError>
    requires sound { IsSound signature.now (shapes nodes.old) }
    requires shape { IsShapeAt signature.now (length nodes.old) shape }
    requires sorted { IsOfSort signature.now (term_of (terms (shapes nodes.old)) shape) shape.sort }
    ensures sound { IsSound signature.now (shapes nodes.new) }
    ensures front { IsFront nodes.old nodes.new }
    ensures place { IfOk result (λ n. slice_get (shapes nodes.new) n ≡ Some shape) }
    ensures only { IfOk result (λ n. OnlyNew nodes.old nodes.new n) }
    ensures given { IfOk result (λ n. AreGiven generation nodes.old nodes.new) }
    ensures term { IfOk result (λ n. slice_get (terms (shapes nodes.new)) n ≡ Some (term_of (terms (shapes nodes.old)) shape)) }
{
    let found = nodes.find(&shape);
    if let Some(place) = found {
        return Ok(place);
    }
    let place = nodes.len();
    let node = node_of(alloc, &shape, generation)?;
    nodes.push(shape, node)?;
    Ok(place)
}

/// The shape of a numeral.
fn number_shape(alloc: Global, top: i128, bottom: i128, real: bool) -> Shape
    ensures shape { (sig : Signature) (n : ℕ) → IsShapeAt sig n result }
    ensures args { result.args ≡ [] }
    ensures sort { result.sort ≡ cond real Real Int }
    ensures term { (ts : List Term) → term_of ts result ≡ Num top bottom real }
{
    Shape {
        head: NodeHead::Num { top, bottom },
        sorts: List::new(alloc),
        args: Args::new(alloc),
        sort: if real { Sort::Real } else { Sort::Int },
    }
}

/// The shape of a fresh constant.
fn fresh_shape(alloc: Global, number: usize, sort: &Sort) -> Result<Shape, AllocError>
    ensures shape { IfOk result (λ s. (sig : Signature) (n : ℕ) → IsShapeAt sig n s) }
    ensures args { IfOk result (λ s. s.args ≡ []) }
    ensures sort { IfOk result (λ s. s.sort ≡ sort.now) }
    ensures term { IfOk result (λ s. (ts : List Term) → term_of ts s ≡ Fresh number sort.now) }
{
    let sort = copy_sort(alloc, sort)?;
    Ok(Shape {
        head: NodeHead::Fresh(number),
        sorts: List::new(alloc),
        args: Args::new(alloc),
        sort,
    })
}

/// The shape of an application.
fn apply_shape(
    alloc: Global,
    signature: &Signature,
    head: Head,
    sorts: &[Sort],
    args: Args,
) -> Result<Shape, AllocError>
    ensures { IfOk result (λ s. s ≡ spec.applied signature.now head sorts.now args) }
{
    let sort = node_sort(alloc, signature, head, sorts)?;
    let sorts = copy_sorts(alloc, sorts)?;
    Ok(Shape {
        head: NodeHead::Of(head),
        sorts,
        args,
        sort,
    })
}

/// The place of an application to the terms of these places, which is entered where it is new.
fn enter_applied(
    alloc: Global,
    signature: &Signature,
    nodes: &mut Nodes,
    head: Head,
    sorts: &[Sort],
    args: Args,
    generation: u32,
) -> Result<usize, AllocError>
    requires sound { IsSound signature.now (shapes nodes.old) }
    requires args { AllByRecursion (λ a. a < length nodes.old) args }
    requires sorted { IsOfSort signature.now (Apply head sorts.now (map (named (terms (shapes nodes.old))) args)) (spec.node_sort signature.now head sorts.now) }
    ensures sound { IsSound signature.now (shapes nodes.new) }
    ensures front { IsFront nodes.old nodes.new }
    ensures place { IfOk result (λ n. slice_get (shapes nodes.new) n ≡ Some (spec.applied signature.now head sorts.now args)) }
    ensures only { IfOk result (λ n. OnlyNew nodes.old nodes.new n) }
    ensures given { IfOk result (λ n. AreGiven generation nodes.old nodes.new) }
    ensures term { IfOk result (λ n. slice_get (terms (shapes nodes.new)) n ≡ Some (Apply head sorts.now (map (named (terms (shapes nodes.old))) args))) }
{
    let shape = apply_shape(alloc, signature, head, sorts, args)?;
    enter(alloc, signature, nodes, shape, generation)
}

/// The place of a field of the term of a place.
fn enter_field(
    alloc: Global,
    signature: &Signature,
    nodes: &mut Nodes,
    field: Head,
    sorts: &[Sort],
    owner: usize,
    generation: u32,
) -> Result<usize, AllocError>
    requires sound { IsSound signature.now (shapes nodes.old) }
    requires owner { owner < length nodes.old }
    requires sorted { IsOfSort signature.now (Apply field sorts.now (named (terms (shapes nodes.old)) owner ∷ [])) (spec.node_sort signature.now field sorts.now) }
    ensures sound { IsSound signature.now (shapes nodes.new) }
    ensures front { IsFront nodes.old nodes.new }
    ensures place { IfOk result (λ n. slice_get (shapes nodes.new) n ≡ Some (spec.applied signature.now field sorts.now (owner ∷ []))) }
    ensures only { IfOk result (λ n. OnlyNew nodes.old nodes.new n) }
    ensures given { IfOk result (λ n. AreGiven generation nodes.old nodes.new) }
{
    let mut args = Args::new(alloc);
    args.push(owner)?;
    enter_applied(alloc, signature, nodes, field, sorts, args, generation)
}

/// How many fields a sort has.
#[tactic(auto, using(crate::proofs::FieldLaws::count_rules))]
fn field_count(signature: &Signature, sort: &Sort) -> usize
    ensures { result ≡ fields.field_count signature.now sort.now }
{
    match sort {
        Sort::Named { head, .. } => match signature.types.get(*head) {
            None => 0,
            Some(entry) => match &entry.kind {
                Kind::Abstract => 0,
                Kind::Choices(_) => 0,
                Kind::Fields(list) => list.len(),
            },
        },
        Sort::Var(_) => 0,
        Sort::Rigid(_) => 0,
        Sort::Int => 0,
        Sort::Real => 0,
        Sort::Bool => 0,
        Sort::Unit => 0,
    }
}

/// The field at this place of a record sort.
#[tactic(auto, using(crate::proofs::FieldLaws::head_rules))]
fn field_head(sort: &Sort, place: usize) -> Head
    ensures { result ≡ fields.field_head sort.now place }
{
    match sort {
        Sort::Named { head, .. } => Head::Field { of: *head, place },
        Sort::Var(_) => Head::Void,
        Sort::Rigid(_) => Head::Void,
        Sort::Int => Head::Void,
        Sort::Real => Head::Void,
        Sort::Bool => Head::Void,
        Sort::Unit => Head::Void,
    }
}

/// The arguments of a named sort.
#[tactic(auto, using(crate::proofs::FieldLaws::args_rules))]
fn sort_args(sort: &Sort) -> &[Sort]
    ensures { result.now ≡ fields.sort_args sort.now }
{
    match sort {
        Sort::Named { args, .. } => args.as_slice(),
        Sort::Var(_) => &[],
        Sort::Rigid(_) => &[],
        Sort::Int => &[],
        Sort::Real => &[],
        Sort::Bool => &[],
        Sort::Unit => &[],
    }
}

/// Enters the fields of a place's term, which has this sort, and theirs. Their places come behind `touched`.
pub fn enter_fields(
    alloc: Global,
    signature: &Signature,
    nodes: &mut Nodes,
    sort: &Sort,
    owner: usize,
    generation: u32,
    touched: &mut List<usize>,
) -> Result<(), AllocError>
    requires lawful { IsLawful signature.now }
    requires sound { IsSound signature.now (shapes nodes.old) }
    requires owner { owner < length nodes.old }
    requires sort { (x : Shape) → slice_get (shapes nodes.old) owner ≡ Some x → x.sort ≡ sort.now }
    requires touched { AreWithin (length nodes.old) touched.old }
    requires among { IsIn owner touched.old }
    ensures sound { IsSound signature.now (shapes nodes.new) }
    ensures front { IsFront nodes.old nodes.new }
    ensures touched { AreWithin (length nodes.new) touched.new }
    ensures complete { OnOk result (IsComplete signature.now (shapes nodes.new) owner) }
    ensures news { OnOk result (News signature.now nodes.old nodes.new) }
    ensures added { OnOk result (Added signature.now generation nodes.old nodes.new touched.old touched.new (owner ∷ [])) }
    ensures inside { OnOk result (HasFieldsIn signature.now (shapes nodes.new) touched.new owner sort.now) }
{
    for i in 0..field_count(signature, sort) {
        let field = field_head(sort, i);
        let place = enter_field(
            alloc,
            signature,
            nodes,
            field,
            sort_args(sort),
            owner,
            generation,
        )?;
        touched.push(place)?;
        let inner = node_sort(alloc, signature, field, sort_args(sort))?;
        enter_fields(alloc, signature, nodes, &inner, place, generation, touched)?;
    }
    Ok(())
}

/// The place of a shape's node, which is entered where there is none, with its fields.
fn enter_whole(
    alloc: Global,
    signature: &Signature,
    nodes: &mut Nodes,
    shape: Shape,
    generation: u32,
    touched: &mut List<usize>,
) -> Result<usize, AllocError>
    requires lawful { IsLawful signature.now }
    requires sound { IsSound signature.now (shapes nodes.old) }
    requires shape { IsShapeAt signature.now (length nodes.old) shape }
    requires sorted { IsOfSort signature.now (term_of (terms (shapes nodes.old)) shape) shape.sort }
    requires touched { AreWithin (length nodes.old) touched.old }
    requires among { AreIn shape.args touched.old }
    ensures sound { IsSound signature.now (shapes nodes.new) }
    ensures front { IsFront nodes.old nodes.new }
    ensures touched { AreWithin (length nodes.new) touched.new }
    ensures news { OnOk result (News signature.now nodes.old nodes.new) }
    ensures added { IfOk result (λ n. Added signature.now generation nodes.old nodes.new touched.old touched.new (n ∷ [])) }
    ensures among { IfOk result (λ n. IsIn n touched.new) }
    ensures place { IfOk result (λ n. slice_get (shapes nodes.new) n ≡ Some shape) }
    ensures term { IfOk result (λ n. slice_get (terms (shapes nodes.new)) n ≡ Some (term_of (terms (shapes nodes.old)) shape)) }
{
    let sort = copy_sort(alloc, &shape.sort)?;
    let place = enter(alloc, signature, nodes, shape, generation)?;
    touched.push(place)?;
    enter_fields(alloc, signature, nodes, &sort, place, generation, touched)?;
    Ok(place)
}

/// The place of an application to the terms of these places, which is entered where it is new, with its fields.
fn enter_application(
    alloc: Global,
    signature: &Signature,
    nodes: &mut Nodes,
    head: Head,
    sorts: &[Sort],
    args: Args,
    generation: u32,
    touched: &mut List<usize>,
) -> Result<usize, AllocError>
    requires lawful { IsLawful signature.now }
    requires sound { IsSound signature.now (shapes nodes.old) }
    requires args { AllByRecursion (λ a. a < length nodes.old) args }
    requires sorted { IsOfSort signature.now (Apply head sorts.now (map (named (terms (shapes nodes.old))) args)) (spec.node_sort signature.now head sorts.now) }
    requires touched { AreWithin (length nodes.old) touched.old }
    requires among { AreIn args touched.old }
    ensures sound { IsSound signature.now (shapes nodes.new) }
    ensures front { IsFront nodes.old nodes.new }
    ensures touched { AreWithin (length nodes.new) touched.new }
    ensures news { OnOk result (News signature.now nodes.old nodes.new) }
    ensures added { IfOk result (λ n. Added signature.now generation nodes.old nodes.new touched.old touched.new (n ∷ [])) }
    ensures among { IfOk result (λ n. IsIn n touched.new) }
    ensures place { IfOk result (λ n. slice_get (shapes nodes.new) n ≡ Some (spec.applied signature.now head sorts.now args)) }
    ensures term { IfOk result (λ n. slice_get (terms (shapes nodes.new)) n ≡ Some (Apply head sorts.now (map (named (terms (shapes nodes.old))) args))) }
{
    let shape = apply_shape(alloc, signature, head, sorts, args)?;
    enter_whole(alloc, signature, nodes, shape, generation, touched)
}

/// The place of a closed and well-sorted term, which is entered with its subterms and the fields of each as far
/// as they are new. All their places come behind `touched`.
pub fn enter_term(
    alloc: Global,
    signature: &Signature,
    nodes: &mut Nodes,
    term: &Term,
    generation: u32,
    touched: &mut List<usize>,
) -> Result<usize, AllocError>
    requires lawful { IsLawful signature.now }
    requires sound { IsSound signature.now (shapes nodes.old) }
    requires known { enterable signature.now term.now ≡ true }
    requires touched { AreWithin (length nodes.old) touched.old }
    ensures sound { IsSound signature.now (shapes nodes.new) }
    ensures front { IsFront nodes.old nodes.new }
    ensures touched { AreWithin (length nodes.new) touched.new }
    ensures news { OnOk result (News signature.now nodes.old nodes.new) }
    ensures added { IfOk result (λ n. Added signature.now generation nodes.old nodes.new touched.old touched.new (n ∷ [])) }
    ensures among { IfOk result (λ n. IsIn n touched.new) }
    ensures term { IfOk result (λ n. slice_get (terms (shapes nodes.new)) n ≡ Some term.now) }
{
    match term {
        Term::Bound(_) => unreachable!(),
        Term::Num { top, bottom, real } => {
            let shape = number_shape(alloc, *top, *bottom, *real);
            enter_whole(alloc, signature, nodes, shape, generation, touched)
        }
        Term::Fresh { number, sort } => {
            let shape = fresh_shape(alloc, *number, sort.get())?;
            enter_whole(alloc, signature, nodes, shape, generation, touched)
        }
        Term::Apply { head, sorts, args } => {
            let mut names = Args::new(alloc);
            for arg in args.as_slice() {
                let name = enter_term(alloc, signature, nodes, arg, generation, touched)?;
                names.push(name)?;
            }
            let name = enter_application(
                alloc,
                signature,
                nodes,
                *head,
                sorts.as_slice(),
                names,
                generation,
                touched,
            )?;
            Ok(name)
        }
    }
}
