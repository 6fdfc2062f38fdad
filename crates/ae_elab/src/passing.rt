//! What the typing of a declaration passes on from part to part.

ghost use Rattle.std.specs.Prelude.{◌≡◌, ℕ, suc, [], IfOk, OnOk, length};
ghost use Rattle.ae_elab.specs.Rules as rule;
ghost use Rattle.ae_elab.specs.Steps.{IsTaken};

use crate::names::Names;
use ae_core::terms::Sort;
use std::alloc::{AllocError, Global};
use std::marker::Model;

/// The first number that names nothing yet, and the type variables that the declaration has written so far, in the
/// order of their first occurrence.
#[derive(Drop)]
pub struct Passing<'a> {
    next: usize,
    written: Names<'a>,
}

impl<'a> Model for Passing<'a> {
    ghost use Rattle.ae_elab.specs.Rules.{Passed};

    ghost Value = { Passed };

    ghost view = { λ p. record { next = p.next; written = p.written } };
}

impl<'a> Passing<'a> {
    /// What a declaration begins with: the first number, and no type variable.
    pub fn new(alloc: Global, next: usize) -> Passing<'a>
        ensures next { result.next ≡ next }
        ensures written { result.written ≡ [] }
    {
        Passing {
            next,
            written: Names::new(alloc),
        }
    }

    /// The first number that names nothing yet.
    pub fn next(&self) -> usize
        ensures { result ≡ self.now.next }
    {
        self.next
    }

    /// A number that names nothing yet. After the last number there is no memory for what it would name.
    #[tactic(auto, using(crate::proofs::NumberingRules::fresh_taken))]
    pub fn fresh(&mut self) -> Result<usize, AllocError>
        ensures { IfOk result (λ n. IsTaken rule.fresh self.old self.new n) }
    {
        let number = self.next;
        self.next = number.checked_add(1).ok_or(AllocError)?;
        Ok(number)
    }

    /// The sort that a written type variable is: its number in the declaration.
    pub fn written_variable(&mut self, name: &'a str) -> Result<Sort, AllocError>
        ensures { IfOk result (λ s. IsTaken (rule.written_variable name.now) self.old self.new s) }
    {
        match self.written.number_of(name) {
            Some(number) => Ok(Sort::Rigid(number)),
            None => {
                let number = self.written.len();
                self.written.push(name)?;
                Ok(Sort::Rigid(number))
            }
        }
    }

    /// How many type variables the declaration has so far.
    #[tactic(auto, using(crate::proofs::NumberingRules::count_taken))]
    pub fn count_written(&self) -> usize
        ensures { IsTaken rule.count_written self.now self.now result }
    {
        self.written.len()
    }
}
