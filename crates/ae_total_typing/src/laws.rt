//! Laws of typing: there is always an answer, and the size of a formula is told from its typed tree.

ghost use Rattle.std.specs.Prelude.{ℕ, List, ◌≡◌, ◌⊎◌};
ghost use Rattle.ae_core.specs.declared.problems.Problem.{Problem};
ghost use Rattle.ae_core.specs.declared.terms.Sort.{Sort};
ghost use Rattle.ae_elab.specs.Conditions.{Condition, IsPrincipal, IsRefused};
ghost use Rattle.ae_elab.specs.Elaboration.{formula_in};
ghost use Rattle.ae_elab.specs.Problems.{IsTypeFault, IsTyped};
ghost use Rattle.ae_elab.specs.Sizes.{formula_size};
ghost use Rattle.ae_elab.specs.Trees.{Claim};
ghost use Rattle.ae_elab.specs.declared.faults.TypeFault.{TypeFault};
ghost use Rattle.ae_lex.specs.Lexis.{IsTokenized};
ghost use Rattle.ae_lex.specs.declared.kinds.Token.{Token};
ghost use Rattle.ae_syntax.specs.Files.{IsParsed};
ghost use Rattle.ae_syntax.specs.declared.decls.File.{File};
ghost use Rattle.ae_total_typing.specs.Told.{told_size};
ghost use Rattle.ae_types.specs.Substitutions.{Respects, Unifies};
ghost use Rattle.ae_types.specs.declared.pairs.SortPair.{SortPair};

/// Pairs of sorts have a unifier of which all others are instances, or they have none.
pub fn unifiers_exist()
    ensures { (pairs : List SortPair) → ((m : ℕ → Sort) × Unifies m pairs × ((f : ℕ → Sort) → Unifies f pairs → Respects f m))
        ⊎ ((f : ℕ → Sort) → ¬ Unifies f pairs) }
{}

/// Conditions have a most general typing, or the first of them that has none shows its fault.
pub fn conditions_are_answered()
    ensures { (cs : List Condition) → ((m : ℕ → Sort) × IsPrincipal cs m) ⊎ ((e : TypeFault) × IsRefused cs e) }
{}

/// The file of a text has a problem or a fault.
pub fn every_file_is_answered()
    ensures { (text : List ℕ) (tokens : List Token) (file : File) → IsTokenized text tokens → IsParsed tokens file
        → ((p : Problem) × IsTyped text file p) ⊎ ((e : TypeFault) × IsTypeFault text file e) }
{}

/// The size of a formula is told from its typed tree, whatever sorts are put for the unknowns.
pub fn sizes_are_told()
    ensures { (f : ℕ → Sort) (env : List ℕ) (c : Claim) → formula_size (formula_in f env c) ≡ told_size f c }
{}
