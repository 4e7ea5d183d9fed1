//! The parser of texts.

ghost use Rattle.std.specs.Prelude.{◌≡◌, ◌<◌, ◌↔◌, IsTrue, IfOk, IfErr, Err, length};
ghost use Rattle.xpath_grammar.specs.declared.entry.GrammarFault.TheVariants.{Long};
ghost use Rattle.xpath_grammar.specs.Parse.{opens, closes, longest_text, IsParse, IsRefusal};
ghost use Rattle.xpath_grammar.specs.TokenParse.{deep_from, fault_of, ParsesTokens};
ghost use Rattle.xpath_grammar.specs.Passes.{WellFormed};
ghost use Rattle.xpath_grammar.specs.Tree.{tree_of};

use crate::expr::Expr;
use crate::parser::{Binary, chain};
use std::alloc::Global;
use xpath_tokens::{Fault, Token, tokens_of};

/// The longest text, in bytes.
const LONGEST: usize = 4096;

/// How many brackets may be open.
const DEEPEST: usize = 64;

/// Why a text is refused.
#[derive(Clone, Copy, Debug, PartialEq)]
pub enum GrammarFault {
    /// The text has more than 4,096 bytes.
    Long,
    /// The text splits into tokens, and in some prefix of them the opening brackets outnumber the closing ones by
    /// more than 64.
    Deep,
    /// The text splits into no tokens, or they derive no expression.
    Syntax,
    /// Memory was not to be had.
    NoMemory,
}

/// The refusal of a text whose tokens, or whose parse, had that fault.
fn fault_of(fault: Fault) -> GrammarFault
    ensures { result ≡ fault_of fault }
{
    match fault {
        Fault::Syntax => GrammarFault::Syntax,
        Fault::NoMemory => GrammarFault::NoMemory,
    }
}

/// Whether a token is an opening bracket.
fn opens(token: &Token) -> bool
    ensures { result ≡ opens token.now }
{
    matches!(token, Token::Open | Token::OpenSquare)
}

/// Whether a token is a closing bracket.
fn closes(token: &Token) -> bool
    ensures { result ≡ closes token.now }
{
    matches!(token, Token::Close | Token::CloseSquare)
}

/// Whether in some prefix the opening brackets outnumber the closing ones by more than 64.
fn is_deep(tokens: &[Token]) -> bool
    ensures { result ≡ deep_from 0 0 tokens.now }
{
    let mut opened: usize = 0;
    let mut closed: usize = 0;
    for token in tokens {
        if opens(token) {
            opened += 1;
        }
        if closes(token) {
            closed += 1;
        }
        if closed + DEEPEST < opened {
            return true;
        }
    }
    false
}

/// The expression that tokens derive, where their brackets are not too deep.
fn parse_tokens(alloc: Global, tokens: &[Token]) -> Result<Expr, GrammarFault>
    ensures { ParsesTokens tokens.now result }
{
    if is_deep(tokens) {
        return Err(GrammarFault::Deep);
    }
    match chain(alloc, Binary::Or, tokens) {
        Ok(expr) => Ok(expr),
        Err(fault) => Err(fault_of(fault)),
    }
}

/// The expression that a text is (XPath 1.0, sections 2 and 3), with the abbreviations expanded and the brackets
/// dropped. A chain of operators is read once a level; the text has at most 4,096 bytes.
///
/// # Errors
/// `Long` exactly where the text has more than 4,096 bytes. Else `Deep` exactly where it splits into tokens of which
/// some prefix has more than 64 opening brackets beyond its closing ones. Else `Syntax` exactly where it splits into no
/// tokens, or they derive no expression. `NoMemory` may come in place of any other answer but `Long`.
pub fn parse(alloc: Global, text: &str) -> Result<Expr, GrammarFault>
    ensures long { (result ≡ Err Long) ↔ (longest_text < length text.now) }
    ensures expression { IfOk result (IsParse text.now) }
    ensures formed { IfOk result (λ e. WellFormed (tree_of e)) }
    ensures refusal { IfErr result (IsRefusal text.now) }
{
    if LONGEST < text.len() {
        return Err(GrammarFault::Long);
    }
    match tokens_of(alloc, text) {
        Ok(tokens) => parse_tokens(alloc, tokens.as_slice()),
        Err(fault) => Err(fault_of(fault)),
    }
}
