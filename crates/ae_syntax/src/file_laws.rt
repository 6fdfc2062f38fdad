//! Laws of files and of the faults of syntax.

ghost use Rattle.std.specs.Prelude.{ℕ, List, ◌≡◌, ◌≤◌, length, IfSome};
ghost use Rattle.ae_lex.specs.Lexis.{IsTokenized, IsFault};
ghost use Rattle.ae_lex.specs.Lexis as lexis;
ghost use Rattle.ae_lex.specs.declared.kinds.LexFault.{LexFault};
ghost use Rattle.ae_lex.specs.declared.kinds.Token.{Token};
ghost use Rattle.ae_syntax.specs.Files.{IsParsed, IsSyntaxFault, fault_place};
ghost use Rattle.ae_syntax.specs.declared.decls.File.{File};
ghost use Rattle.ae_syntax.specs.declared.faults.SyntaxFault.{SyntaxFault};

/// Tokens are at most one file, have at most one fault, and never both.
pub fn one_answer()
    ensures one_file { (ts : List Token) (f g : File) → IsParsed ts f → IsParsed ts g → f ≡ g }
    ensures one_fault { (text : List ℕ) (ts : List Token) (d e : SyntaxFault) → IsSyntaxFault text ts d → IsSyntaxFault text ts e → d ≡ e }
    ensures never_both { (text : List ℕ) (ts : List Token) (f : File) (e : SyntaxFault) → IsParsed ts f → ¬ IsSyntaxFault text ts e }
{}

/// The faults of a text stand in it, or at its end.
pub fn faults_within()
    ensures syntax { (text : List ℕ) (ts : List Token) (e : SyntaxFault) → IsTokenized text ts → IsSyntaxFault text ts e → IfSome (fault_place e) (λ at. at ≤ length text) }
    ensures lexis { (text : List ℕ) (f : LexFault) → IsFault text f → IfSome (lexis.fault_place f) (λ at. at ≤ length text) }
{}
