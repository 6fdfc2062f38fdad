//! Laws of the grammar.

ghost use Rattle.std.specs.Prelude.{ℕ, List, ◌≡◌, take};
ghost use Rattle.ae_lex.specs.declared.kinds.Token.{Token};
ghost use Rattle.ae_syntax.specs.Depth.{depths};
ghost use Rattle.ae_syntax.specs.Grammar.{IsFileOfTokens};
ghost use Rattle.ae_syntax.specs.declared.decls.Decl.{Decl};

/// The grammar is unambiguous: tokens are at most one file, however deep they are, and each of them has
/// one depth, which hangs on the tokens up to it alone.
pub fn one_tree()
    ensures tree { (w : List Token) (ds es : List Decl) → IsFileOfTokens w ds → IsFileOfTokens w es → ds ≡ es }
    ensures depth { (w : List Token) (ds es : List Decl) (h : IsFileOfTokens w ds) (k : IsFileOfTokens w es) → depths h 0 ≡ depths k 0 }
    ensures prefix { (n : ℕ) (w x : List Token) (ds es : List Decl) (h : IsFileOfTokens w ds) (k : IsFileOfTokens x es) → take n w ≡ take n x → take n (depths h 0) ≡ take n (depths k 0) }
{}
