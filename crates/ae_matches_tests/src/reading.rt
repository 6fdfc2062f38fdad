//! The problems of texts.
ghost use Rattle.std.specs.Prelude.{IfSome};
ghost use Rattle.std.specs.List.{AllByRecursion};
ghost use Rattle.ae_core.specs.Signatures.{IsLawful};
ghost use Rattle.ae_elab.specs.Names.{IsName, names_in_file};
ghost use Rattle.ae_elab.specs.Problems.{IsTyped};
ghost use Rattle.ae_lex.specs.Lexis.{IsTokenized};

use ae_core::problems::Problem;
use ae_elab::names_stand;
use ae_elaborate::elaborate;
use ae_lex::token_list::TokenList;
use ae_lex::tokens;
use ae_syntax::decls::File;
use ae_syntax::parse;
use ae_typed_laws::signatures_are_lawful;
use std::alloc::Global;

fn problem_of_file(alloc: Global, text: &[u8], file: &File) -> Option<Problem>
    requires { AllByRecursion (IsName text.now) (names_in_file file.now) }
    ensures { IfSome result (IsTyped text.now file.now) }
{
    match elaborate(alloc, text, file) {
        Ok(problem) => Some(problem),
        Err(_fault) => None,
    }
}

fn problem_of_tokens(alloc: Global, text: &[u8], tokens: &TokenList) -> Option<Problem>
    requires { IsTokenized text.now tokens.now }
    ensures { IfSome result (λ p. IsLawful p.signature) }
{
    names_stand();
    signatures_are_lawful();
    match parse(alloc, text, tokens) {
        Ok(file) => problem_of_file(alloc, text, &file),
        Err(_fault) => None,
    }
}

/// The problem of a text; `None` where it is refused, or where there is no memory.
pub fn problem_of(alloc: Global, text: &[u8]) -> Option<Problem>
    ensures { IfSome result (λ p. IsLawful p.signature) }
{
    match tokens(alloc, text) {
        Ok(tokens) => problem_of_tokens(alloc, text, &tokens),
        Err(_fault) => None,
    }
}
