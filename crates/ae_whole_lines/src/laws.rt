//! Laws of texts as whole lines. These functions do nothing: each one's contract is a theorem.

ghost use Rattle.std.specs.Prelude.{List, ℕ, ◌++◌, codes};
ghost use Rattle.ae_core.specs.declared.problems.Problem.{Problem};
ghost use Rattle.ae_elab.specs.Problems.{IsTyped};
ghost use Rattle.ae_lex.specs.Lexis.{IsTokenized};
ghost use Rattle.ae_lex.specs.declared.kinds.Token.{Token};
ghost use Rattle.ae_separator.specs.Separators.{HasNoSeparator, IsParted};
ghost use Rattle.ae_syntax.specs.Files.{IsParsed};
ghost use Rattle.ae_syntax.specs.declared.decls.File.{File};
ghost use Rattle.ae_whole_lines.specs.WholeLines.{IsInLines};

/// A text has the same tokens and the same problem as whole lines, with a line break behind it where it doesn't end with one.
pub fn whole_lines_change_nothing()
    ensures tokens { (text lines : List ℕ) (tokens : List Token) → IsInLines text lines → IsTokenized text tokens → IsTokenized lines tokens }
    ensures problem { (text lines : List ℕ) (tokens : List Token) (file : File) (p : Problem) → IsInLines text lines
        → IsTokenized text tokens → IsParsed tokens file → IsTyped text file p → IsTyped lines file p }
{}

/// Whole lines of a text of which none is exactly `%%`, such a line, and any bytes behind it are parted at that line.
pub fn inputs_are_parted()
    ensures { (text lines bytes : List ℕ) → IsInLines text lines → HasNoSeparator text → IsParted (lines ++ (codes "%%\n" ++ bytes)) lines bytes }
{}
