//! Laws of the problems of typed files.

ghost use Rattle.std.specs.Prelude.{ℕ, List};
ghost use Rattle.std.specs.List.{AllByRecursion};
ghost use Rattle.ae_core.specs.Signatures.{IsLawfulProblem};
ghost use Rattle.ae_core.specs.declared.problems.Problem.{Problem};
ghost use Rattle.ae_elab.specs.Problems.{IsTyped};
ghost use Rattle.ae_lawful_problems.specs.SortedItems.{IsSortedItem};
ghost use Rattle.ae_lex.specs.Lexis.{IsTokenized};
ghost use Rattle.ae_lex.specs.declared.kinds.Token.{Token};
ghost use Rattle.ae_syntax.specs.Files.{IsParsed};
ghost use Rattle.ae_syntax.specs.declared.decls.File.{File};

/// The formula of each axiom and goal of a file's problem is closed and well sorted, with the type variables that are counted,
/// and no fresh constant occurs in it.
pub fn formulas_are_sorted()
    ensures { (text : List ℕ) (tokens : List Token) (file : File) (p : Problem) → IsTokenized text tokens → IsParsed tokens file
        → IsTyped text file p → AllByRecursion (IsSortedItem p.signature) p.items }
{}

/// The problem of a file is lawful: its signature is; the formula of each axiom and goal is closed and well sorted, with the type
/// variables that are counted, and no fresh constant occurs in it; and the terms of each trigger are applications, in which each
/// variable of the trigger's block occurs.
pub fn problems_are_lawful()
    ensures { (text : List ℕ) (tokens : List Token) (file : File) (p : Problem)
        → IsTokenized text tokens → IsParsed tokens file → IsTyped text file p → IsLawfulProblem p }
{}
