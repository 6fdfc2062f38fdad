//! Laws of typed files.

ghost use Rattle.std.specs.Prelude.{ℕ, List, ◌≤◌, length, IfSome};
ghost use Rattle.std.specs.List.{AllByRecursion};
ghost use Rattle.ae_core.specs.Signatures.{IsLawful};
ghost use Rattle.ae_core.specs.declared.problems.Problem.{Problem};
ghost use Rattle.ae_core.specs.declared.terms.Sort.{Sort};
ghost use Rattle.ae_elab.specs.Declarations.{conditions_of};
ghost use Rattle.ae_elab.specs.Problems.{IsTypeFault, IsTyped};
ghost use Rattle.ae_elab.specs.declared.faults.TypeFault.{TypeFault};
ghost use Rattle.ae_fault_lines.specs.Lines.{fault_place};
ghost use Rattle.ae_lex.specs.Lexis.{IsTokenized};
ghost use Rattle.ae_lex.specs.declared.kinds.Token.{Token};
ghost use Rattle.ae_syntax.specs.Files.{IsParsed};
ghost use Rattle.ae_syntax.specs.declared.decls.File.{File};
ghost use Rattle.ae_typed_laws.specs.Refusals.{IsOfTyping};

/// The place of a fault of typing stands in the text, or at its end.
pub fn faults_stand()
    ensures { (text : List ℕ) (tokens : List Token) (file : File) (e : TypeFault) → IsTokenized text tokens → IsParsed tokens file
        → IsTypeFault text file e → IfSome (fault_place e) (λ at. at ≤ length text) }
{}

/// No condition of a file is refused because a declaration is too large, or by want of memory.
pub fn never_too_large()
    ensures { (text : List ℕ) (tokens : List Token) (file : File) → IsTokenized text tokens → IsParsed tokens file
        → AllByRecursion (λ c. (f : ℕ → Sort) → IsOfTyping (c.refusal f)) (conditions_of text file) }
{}

/// The signature of a file's problem is lawful: its names are names, each declared once, and its types and symbols are as they must be.
pub fn signatures_are_lawful()
    ensures { (text : List ℕ) (tokens : List Token) (file : File) (p : Problem) → IsTokenized text tokens → IsParsed tokens file
        → IsTyped text file p → IsLawful p.signature }
{}
