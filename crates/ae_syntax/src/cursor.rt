//! The next token, by its place in the list.

ghost use Rattle.std.specs.Prelude.{◌≡◌, ◌≢◌, suc, ◌≤◌, ◌<◌, ◌+◌, ◌∷◌, [], true, length, drop, IfSome, IfNone, IfOk, IfErr};
ghost use Rattle.std.specs.Bool.{MatchBool};
ghost use Rattle.ae_lex.specs.declared.kinds.TokenKind.TheVariants as kind;
ghost use Rattle.ae_syntax.specs.declared.faults.Refusal.TheVariants.{Wrong, Deep};
ghost use Rattle.ae_syntax.specs.Inner.Reading.{IsAt, Stands, Lacks};
ghost use Rattle.ae_syntax.specs.Kinds.{arrow, relation, additive, multiplicative, quantifies};
ghost use Rattle.ae_syntax.specs.Inner.SameKinds.{same};

use crate::exprs::{BinaryOp, Quantifier};
use crate::faults::Refusal;
use ae_lex::{Reserved, Sign, Token, TokenKind, TokenList};

/// The greatest depth that a token may have.
pub const DEPTH_LIMIT: usize = 1000;

/// The token at a place, or none at the end.
pub fn next(tokens: &TokenList, at: usize) -> Option<Token>
    requires { at ≤ length tokens.now }
    ensures some { IfSome result (λ t. IsAt tokens.now at t) }
    ensures none { IfNone result (drop at tokens.now ≡ []) }
{
    if at < tokens.len() {
        tokens.get(at)
    } else {
        None
    }
}

/// Whether two kinds are the same word or sign, or both identifiers or type variables.
pub fn same(a: TokenKind, b: TokenKind) -> bool
    ensures { result ≡ same a b }
{
    match (a, b) {
        (TokenKind::Ident, TokenKind::Ident) => true,
        (TokenKind::TypeVar, TokenKind::TypeVar) => true,
        (TokenKind::Reserved(a), TokenKind::Reserved(b)) => a == b,
        (TokenKind::Sign(a), TokenKind::Sign(b)) => a == b,
        _ => false,
    }
}

/// Whether a token of this kind stands there.
pub fn stands(tokens: &TokenList, at: usize, kind: TokenKind) -> bool
    requires { at ≤ length tokens.now }
    ensures { MatchBool result (Stands kind tokens.now at) (Lacks kind tokens.now at) }
{
    match next(tokens, at) {
        Some(token) => same(token.kind, kind),
        None => false,
    }
}

/// The token of this kind at a place.
pub fn take(tokens: &TokenList, at: usize, kind: TokenKind) -> Result<Token, Refusal>
    requires { at ≤ length tokens.now }
    ensures is { IfOk result (λ t. IsAt tokens.now at t) }
    ensures kind { IfOk result (λ t. same t.kind kind ≡ true) }
    ensures wrong { IfErr result (λ e. e ≡ Wrong at) }
    ensures lacks { IfErr result (λ e. Lacks kind tokens.now at) }
{
    let Some(token) = next(tokens, at) else {
        return Err(Refusal::Wrong { at });
    };
    if same(token.kind, kind) {
        Ok(token)
    } else {
        Err(Refusal::Wrong { at })
    }
}

/// Whether this word stands there.
pub fn stands_word(tokens: &TokenList, at: usize, word: Reserved) -> bool
    requires { at ≤ length tokens.now }
    ensures { MatchBool result (Stands (kind.Reserved word) tokens.now at) (Lacks (kind.Reserved word) tokens.now at) }
{
    stands(tokens, at, TokenKind::Reserved(word))
}

/// Whether this sign stands there.
pub fn stands_sign(tokens: &TokenList, at: usize, sign: Sign) -> bool
    requires { at ≤ length tokens.now }
    ensures { MatchBool result (Stands (kind.Sign sign) tokens.now at) (Lacks (kind.Sign sign) tokens.now at) }
{
    stands(tokens, at, TokenKind::Sign(sign))
}

/// This word, which must stand there.
pub fn take_word(tokens: &TokenList, at: usize, word: Reserved) -> Result<Token, Refusal>
    requires { at ≤ length tokens.now }
    ensures is { IfOk result (λ t. IsAt tokens.now at t) }
    ensures kind { IfOk result (λ t. same t.kind (kind.Reserved word) ≡ true) }
    ensures wrong { IfErr result (λ e. e ≡ Wrong at) }
    ensures lacks { IfErr result (λ e. Lacks (kind.Reserved word) tokens.now at) }
{
    take(tokens, at, TokenKind::Reserved(word))
}

/// This sign, which must stand there.
pub fn take_sign(tokens: &TokenList, at: usize, sign: Sign) -> Result<Token, Refusal>
    requires { at ≤ length tokens.now }
    ensures is { IfOk result (λ t. IsAt tokens.now at t) }
    ensures kind { IfOk result (λ t. same t.kind (kind.Sign sign) ≡ true) }
    ensures wrong { IfErr result (λ e. e ≡ Wrong at) }
    ensures lacks { IfErr result (λ e. Lacks (kind.Sign sign) tokens.now at) }
{
    take(tokens, at, TokenKind::Sign(sign))
}

/// Whether a token is this word, and whether it is this sign.
pub fn is_word(token: Token, word: Reserved) -> bool
    ensures { result ≡ same token.kind (kind.Reserved word) }
{
    same(token.kind, TokenKind::Reserved(word))
}

pub fn is_sign(token: Token, sign: Sign) -> bool
    ensures { result ≡ same token.kind (kind.Sign sign) }
{
    same(token.kind, TokenKind::Sign(sign))
}

/// A depth and one more, if the token there may have it.
pub fn deeper(depth: usize, at: usize) -> Result<usize, Refusal>
    ensures more { IfOk result (λ n. n ≡ suc depth) }
    ensures room { IfOk result (λ n. n ≤ DEPTH_LIMIT) }
    ensures deep { IfErr result (λ e. e ≡ Deep at) }
    ensures full { IfErr result (λ e. DEPTH_LIMIT < suc depth) }
{
    if depth < DEPTH_LIMIT {
        Ok(depth + 1)
    } else {
        Err(Refusal::Deep { at })
    }
}

/// The operator of a chain to the right.
pub fn arrow(kind: TokenKind) -> Option<BinaryOp>
    ensures { result ≡ arrow kind }
{
    match kind {
        TokenKind::Sign(Sign::Arrow) => Some(BinaryOp::Implies),
        TokenKind::Sign(Sign::Iff) => Some(BinaryOp::Iff),
        TokenKind::Reserved(Reserved::Xor) => Some(BinaryOp::Xor),
        _ => None,
    }
}

/// The relation that a token is.
pub fn relation(kind: TokenKind) -> Option<BinaryOp>
    ensures { result ≡ relation kind }
{
    match kind {
        TokenKind::Sign(Sign::Equal) => Some(BinaryOp::Equal),
        TokenKind::Sign(Sign::NotEqual) => Some(BinaryOp::NotEqual),
        TokenKind::Sign(Sign::Less) => Some(BinaryOp::Less),
        TokenKind::Sign(Sign::AtMost) => Some(BinaryOp::AtMost),
        TokenKind::Sign(Sign::Greater) => Some(BinaryOp::Greater),
        TokenKind::Sign(Sign::AtLeast) => Some(BinaryOp::AtLeast),
        _ => None,
    }
}

/// The operator of a sum.
pub fn additive(kind: TokenKind) -> Option<BinaryOp>
    ensures { result ≡ additive kind }
{
    match kind {
        TokenKind::Sign(Sign::Plus) => Some(BinaryOp::Add),
        TokenKind::Sign(Sign::Minus) => Some(BinaryOp::Sub),
        _ => None,
    }
}

/// The operator of a product.
pub fn multiplicative(kind: TokenKind) -> Option<BinaryOp>
    ensures { result ≡ multiplicative kind }
{
    match kind {
        TokenKind::Sign(Sign::Star) => Some(BinaryOp::Mul),
        TokenKind::Sign(Sign::Slash) => Some(BinaryOp::Div),
        TokenKind::Sign(Sign::Percent) => Some(BinaryOp::Rem),
        _ => None,
    }
}

/// The quantifier that a word is.
pub fn quantifies(kind: TokenKind) -> Option<Quantifier>
    ensures { result ≡ quantifies kind }
{
    match kind {
        TokenKind::Reserved(Reserved::Forall) => Some(Quantifier::Forall),
        TokenKind::Reserved(Reserved::Exists) => Some(Quantifier::Exists),
        _ => None,
    }
}
