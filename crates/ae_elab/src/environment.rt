//! The bound names of a place in the text, and the typed trees.

ghost use Rattle.std.specs.Prelude.{◌≡◌, ◌++◌, ◌∷◌, [], List, length, IfOk, OnOk, OnErr};
ghost use Rattle.ae_elab.specs.Inner.Locals.{DropsLast};
ghost use Rattle.ae_elab.specs.Environments.{IsMeaning, meaning_in, entries, locals, locals_inside, Finds, FindsAmong};
ghost use Rattle.ae_elab.specs.Nodes.{Entry};
ghost use Rattle.std.specs.List.{AllByRecursion};
ghost use Rattle.ae_elab.specs.Nodes.{entries_of, entry_of};
ghost use Rattle.ae_elab.specs.Scope as scope;
ghost use Rattle.ae_elab.specs.Scope.{named};

use crate::nodes::Node;
use ae_core::copies::copy_sort;
use ae_core::lists::List;
use ae_core::terms::Sort;
use std::alloc::{AllocError, Global};
use std::marker::Model;

/// What an expression is before it is typed.
#[derive(Clone, Copy)]
pub enum Class {
    /// A formula that is no term.
    Formula,
    /// Made of `true` and `false` alone, so that it may stand for either.
    Either,
    Term,
}

/// What a bound name stands for.
#[derive(Drop)]
pub enum Meaning {
    /// A block's variable.
    Variable {
        number: usize,
        sort: Sort,
    },
    /// The value of a `let`, a term at a place among the nodes.
    Term {
        class: Class,
        tree: usize,
        sort: Sort,
    },
    /// The value of a `let`, a formula at a place among the nodes.
    Formula(usize),
    /// The value of a `let` of which only the class is looked at.
    Untyped(Class),
}

/// A bound name.
#[derive(Drop)]
pub struct Local<'a> {
    pub name: &'a str,
    pub meaning: Meaning,
}

/// The bound names, and the typed trees that some of them stand for.
#[derive(Drop)]
pub struct Environment<'a> {
    nodes: List<Node>,
    locals: List<Local<'a>>,
}

impl<'a> Model for Environment<'a> {
    ghost use Rattle.std.specs.Coded.{codes};
    ghost use Rattle.std.specs.List.{AllByRecursion};
    ghost use Rattle.ae_core.specs.contracts.terms.Sort as sort_contract;
    ghost use Rattle.ae_elab.specs.Environments.{Bench, IsMeaning};
    ghost use Rattle.ae_elab.specs.Nodes.{entries_of};

    ghost Value = { Bench };

    ghost coded = { Prim.hlevel (codes, sort_contract.the_row.coded) };

    ghost view = { λ e. record { nodes = e.nodes; locals = e.locals } };

    ghost invariant = { λ e. AllByRecursion (λ l. IsMeaning (entries_of e.nodes) l.meaning) e.locals };
}

// A copy of what a name stands for.
fn copy_meaning(alloc: Global, meaning: &Meaning) -> Result<Meaning, AllocError>
    ensures { IfOk result (λ copy. copy ≡ meaning.now) }
{
    match meaning {
        Meaning::Variable { number, sort } => {
            let sort = copy_sort(alloc, sort)?;
            Ok(Meaning::Variable {
                number: *number,
                sort,
            })
        }
        Meaning::Term { class, tree, sort } => {
            let sort = copy_sort(alloc, sort)?;
            Ok(Meaning::Term {
                class: *class,
                tree: *tree,
                sort,
            })
        }
        Meaning::Formula(claim) => Ok(Meaning::Formula(*claim)),
        Meaning::Untyped(class) => Ok(Meaning::Untyped(*class)),
    }
}

// What the innermost of these names that is this one stands for; the last is the innermost.
fn find<'a>(
    alloc: Global,
    locals: &[Local<'a>],
    name: &'a str,
) -> Result<Option<Meaning>, AllocError>
    ensures { IfOk result (λ o. (es : List Entry) → AllByRecursion (λ l. IsMeaning es l.meaning) locals.now → FindsAmong es (locals_inside es [] locals.now) name.now o) }
{
    let mut found = None;
    for local in locals {
        if name == local.name {
            found = Some(copy_meaning(alloc, &local.meaning)?);
        }
    }
    Ok(found)
}

// Drops the last bound name.
fn drop_last<'a>(locals: &mut List<Local<'a>>)
    ensures { DropsLast locals.old locals.new }
{
    match locals.pop() {
        Some(_last) => {}
        None => {}
    }
}

impl<'a> Environment<'a> {
    /// No nodes and no bound names.
    pub fn new(alloc: Global) -> Environment<'a>
        ensures nodes { entries result ≡ [] }
        ensures locals { locals result ≡ [] }
    {
        Environment {
            nodes: List::new(alloc),
            locals: List::new(alloc),
        }
    }

    /// The nodes.
    pub fn nodes(&self) -> &[Node]
        ensures { entries_of result.now ≡ entries self.now }
    {
        self.nodes.as_slice()
    }

    /// A node behind the others, and its place.
    pub fn push(&mut self, node: Node) -> Result<usize, AllocError>
        ensures place { IfOk result (λ n. n ≡ length (entries self.old)) }
        ensures nodes { OnOk result (entries self.new ≡ entries self.old ++ entry_of (entries self.old) node ∷ []) }
        ensures locals { locals self.new ≡ locals self.old }
    {
        let place = self.nodes.len();
        self.nodes.push(node)?;
        Ok(place)
    }

    /// Binds a name inside the other ones.
    pub fn enter(&mut self, name: &'a str, meaning: Meaning) -> Result<(), AllocError>
        requires stands { IsMeaning (entries self.old) meaning }
        ensures nodes { entries self.new ≡ entries self.old }
        ensures locals { OnOk result (locals self.new ≡ named name.now (meaning_in (entries self.old) meaning) ∷ locals self.old) }
    {
        self.locals.push(Local { name, meaning })?;
        Ok(())
    }

    /// Leaves the innermost bound name.
    pub fn leave(&mut self)
        ensures nodes { entries self.new ≡ entries self.old }
        ensures locals { (l : scope.Local) (ls : List scope.Local) → locals self.old ≡ l ∷ ls → locals self.new ≡ ls }
    {
        drop_last(&mut self.locals);
    }

    /// What a name stands for among the bound names, in time linear in how many there are; the innermost counts.
    pub fn look_up(&self, alloc: Global, name: &'a str) -> Result<Option<Meaning>, AllocError>
        ensures { IfOk result (Finds self.now name.now) }
    {
        find(alloc, self.locals.as_slice(), name)
    }
}
