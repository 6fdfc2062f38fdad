//! Laws of the numerals of typed files.

ghost use Rattle.std.specs.Prelude.{ℕ, List};
ghost use Rattle.ae_core.specs.declared.problems.Problem.{Problem};
ghost use Rattle.ae_elab.specs.Problems.{IsTyped};
ghost use Rattle.ae_lex.specs.Lexis.{IsTokenized};
ghost use Rattle.ae_lex.specs.declared.kinds.Token.{Token};
ghost use Rattle.ae_syntax.specs.Files.{IsParsed};
ghost use Rattle.ae_syntax.specs.declared.decls.File.{File};
ghost use Rattle.ae_writable.specs.Numbers.{HasLowestNumerals};

/// Each numeral in the axioms and goals of a file's problem is in lowest terms, those of triggers too.
pub fn typed_problems_have_lowest_numerals()
    ensures { (text : List ℕ) (tokens : List Token) (file : File) (p : Problem)
        → IsTokenized text tokens → IsParsed tokens file → IsTyped text file p → HasLowestNumerals p }
{}
