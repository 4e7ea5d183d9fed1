//! Where a list of tokens is cut.

ghost use Rattle.std.specs.Prelude.{◌≡◌, ◌+◌, ◌<◌, ◌≤◌, ◌^◌, ◌↔◌, IsTrue, length, take, drop, slice_index_or as get_or};
ghost use Rattle.xpath_grammar.specs.Grammar.{ends, depth_after};
ghost use Rattle.xpath_grammar.specs.Cutting.{rank, is_minus, leading_minuses, Gives, AreCuts, FoundFirst};

use std::alloc::Global;
use xpath_tokens::{Comparison, Fault, Operator, Token};

/// How tightly a token binds where it is outside all brackets, or 20 where no list is cut at it. `after` says that the
/// token before it ends an operand.
pub fn rank(after: bool, token: &Token) -> u8
    ensures { result ≡ rank after token.now }
{
    match token {
        Token::Comma => 0,
        Token::Or => 1,
        Token::And => 2,
        Token::Compare(Comparison::Equal | Comparison::Unequal) => 3,
        Token::Compare(_) => 4,
        Token::Arithmetic(Operator::Add) => 5,
        Token::Arithmetic(Operator::Subtract) => { if after { 5 } else { 20 } }
        Token::Arithmetic(_) => 6,
        Token::Bar => 8,
        Token::Slash | Token::SlashSlash => 9,
        Token::OpenSquare => 10,
        _ => 20,
    }
}

/// Whether a token ends an operand, so that a minus after it is binary.
pub fn ends(token: &Token) -> bool
    ensures { result ≡ ends token.now }
{
    !matches!(
        token,
        Token::At
            | Token::ColonColon
            | Token::Open
            | Token::OpenSquare
            | Token::Comma
            | Token::Or
            | Token::And
            | Token::Compare(_)
            | Token::Arithmetic(_)
            | Token::Bar
            | Token::SlashSlash
    )
}

/// How many brackets are open after a token.
pub fn depth_after(depth: usize, token: &Token) -> usize
    requires { depth + 1 < 2 ^ 64 }
    ensures { result ≡ depth_after depth token.now }
{
    match token {
        Token::Open | Token::OpenSquare => depth + 1,
        Token::Close | Token::CloseSquare => { if depth == 0 { 0 } else { depth - 1 } }
        _ => depth,
    }
}

/// Whether a token has the rank and is outside all brackets.
fn is_cut(wanted: u8, depth: usize, after: bool, token: &Token) -> bool
    ensures { IsTrue result ↔ ((depth ≡ 0) × (rank after token.now ≡ wanted)) }
{
    depth == 0 && rank(after, token) == wanted
}

/// The places of all tokens of a rank outside all brackets.
pub fn operators(alloc: Global, wanted: u8, tokens: &[Token]) -> Result<Vec<usize>, Fault>
    ensures { Gives result (λ found. AreCuts wanted tokens.now found.items) }
{
    let mut found = Vec::new(alloc);
    let mut depth: usize = 0;
    let mut after = false;
    for (i, token) in tokens.iter().enumerate() {
        if is_cut(wanted, depth, after, token) {
            found.push(i)?;
        }
        depth = depth_after(depth, token);
        after = ends(token);
    }
    Ok(found)
}

/// Whether a token is a minus sign.
fn is_minus(token: &Token) -> bool
    ensures { result ≡ is_minus token.now }
{
    matches!(token, Token::Arithmetic(Operator::Subtract))
}

/// How many minus signs are at the start.
fn leading_minuses(tokens: &[Token]) -> usize
    ensures count { result ≡ leading_minuses tokens.now }
    ensures within { result ≤ length tokens.now }
{
    let mut count: usize = 0;
    while count < tokens.len() && is_minus(&tokens[count]) {
        count += 1;
    }
    count
}

/// The tokens after the minus signs at the start, and how many signs there are.
pub fn after_minuses<'a>(tokens: &'a [Token]) -> (usize, &'a [Token])
    ensures count { result.0 ≡ leading_minuses tokens.now }
    ensures rest { result.1.now ≡ drop (leading_minuses tokens.now) tokens.now }
{
    let count = leading_minuses(tokens);
    (count, &tokens[count..])
}

/// A token of a list, with what is before it and after it.
pub struct Around<'a> {
    /// The tokens before it.
    pub prefix: &'a [Token],
    /// The token.
    pub token: &'a Token,
    /// The tokens after it.
    pub back: &'a [Token],
}

/// The token at a place, with what is before it and after it.
pub fn parts_at<'a>(tokens: &'a [Token], place: usize) -> Around<'a>
    requires { place < length tokens.now }
    ensures prefix { result.prefix.now ≡ take place tokens.now }
    ensures token { result.token.now ≡ get_or tokens.now place result.token.now }
    ensures back { result.back.now ≡ drop (place + 1) tokens.now }
{
    Around {
        prefix: &tokens[..place],
        token: &tokens[place],
        back: &tokens[place + 1..],
    }
}

/// The place of the first token of a rank outside all brackets.
pub fn first_operator(wanted: u8, tokens: &[Token]) -> Option<usize>
    ensures { FoundFirst wanted tokens.now result }
{
    let mut depth: usize = 0;
    let mut after = false;
    for (i, token) in tokens.iter().enumerate() {
        if is_cut(wanted, depth, after, token) {
            return Some(i);
        }
        depth = depth_after(depth, token);
        after = ends(token);
    }
    None
}
