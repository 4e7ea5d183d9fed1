//! Which token a word is, and all tokens of a text.

ghost use Rattle.std.specs.Prelude.{◌≡◌, ◌≤◌, length, drop, List, IfOk, Some, Err, false};
ghost use Rattle.std.specs.Str.{chars};
ghost use Rattle.xpath_tokens.specs.declared.Token.{Token};
ghost use Rattle.xpath_tokens.specs.declared.Token.TheVariants.{AnyIn};
ghost use Rattle.xpath_tokens.specs.declared.Fault.TheVariants.{Syntax};
ghost use Rattle.xml_model.specs.Chars.{prefix_of, local_of, has_colon};
ghost use Rattle.xpath_tokens.specs.Tokens.{is_symbol, find_named, delimiters, operator_signs, operator_names};
ghost use Rattle.xpath_tokens.specs.Tokens.{node_types, axis_names, after_space, closes_operand, starts_open};
ghost use Rattle.xpath_tokens.specs.Tokens.{starts_colons, Splits};
ghost use Rattle.xpath_tokens.specs.Reading.{fixed_token, place, name_token, kind_of, symbol_token, star_token};
ghost use Rattle.xpath_tokens.specs.Reading.{token_of, without_last, has_star};
ghost use Rattle.xpath_tokens.specs.Words.{IsFound};

use crate::text::equals;
use crate::words::{
    after, is_digit, is_pair, is_quote, is_single, run_before, space_run, word_length,
};
use crate::{Comparison, Fault, NodeType, Operator, StepAxis, Token};
use std::alloc::{AllocError, Global};
use xml_model::Axis;
use xml_model::texts::text_of;

/// Whether the token can end an operand (XPath 1.0, section 3.7).
pub fn closes_operand(token: &Token) -> bool
    ensures { result ≡ closes_operand token.now }
{
    !matches!(
        token,
        Token::At
            | Token::ColonColon
            | Token::Open
            | Token::OpenSquare
            | Token::Comma
            | Token::Or
            | Token::And
            | Token::Compare(_)
            | Token::Arithmetic(_)
            | Token::Bar
            | Token::Slash
            | Token::SlashSlash
    )
}

/// The bracket, point, two points, `@`, comma or `::` that a word is (XPath 1.0, production 28); None where it is none.
fn delimiter(word: &[char]) -> Option<Token>
    ensures { result ≡ find_named delimiters word.now }
{
    if equals(word, "(") {
        Some(Token::Open)
    } else if equals(word, ")") {
        Some(Token::Close)
    } else if equals(word, "[") {
        Some(Token::OpenSquare)
    } else if equals(word, "]") {
        Some(Token::CloseSquare)
    } else if equals(word, ".") {
        Some(Token::Dot)
    } else if equals(word, "..") {
        Some(Token::DotDot)
    } else if equals(word, "@") {
        Some(Token::At)
    } else if equals(word, ",") {
        Some(Token::Comma)
    } else if equals(word, "::") {
        Some(Token::ColonColon)
    } else {
        None
    }
}

/// The operator of signs other than `*` that a word is (XPath 1.0, production 32); None where it is none.
fn operator_sign(word: &[char]) -> Option<Token>
    ensures { result ≡ find_named operator_signs word.now }
{
    if equals(word, "|") {
        Some(Token::Bar)
    } else if equals(word, "/") {
        Some(Token::Slash)
    } else if equals(word, "//") {
        Some(Token::SlashSlash)
    } else if equals(word, "+") {
        Some(Token::Arithmetic(Operator::Add))
    } else if equals(word, "-") {
        Some(Token::Arithmetic(Operator::Subtract))
    } else if equals(word, "=") {
        Some(Token::Compare(Comparison::Equal))
    } else if equals(word, "!=") {
        Some(Token::Compare(Comparison::Unequal))
    } else if equals(word, "<") {
        Some(Token::Compare(Comparison::Less))
    } else if equals(word, ">") {
        Some(Token::Compare(Comparison::Greater))
    } else if equals(word, "<=") {
        Some(Token::Compare(Comparison::AtMost))
    } else if equals(word, ">=") {
        Some(Token::Compare(Comparison::AtLeast))
    } else {
        None
    }
}

/// The token that a symbol other than `*` is; None where a word is no such symbol.
fn fixed_token(word: &[char]) -> Option<Token>
    ensures { result ≡ fixed_token word.now }
{
    match delimiter(word) {
        Some(token) => Some(token),
        None => operator_sign(word),
    }
}

/// The operator of that name (XPath 1.0, production 33); None where there is none.
fn operator_name(word: &[char]) -> Option<Token>
    ensures { result ≡ find_named operator_names word.now }
{
    if equals(word, "or") {
        Some(Token::Or)
    } else if equals(word, "and") {
        Some(Token::And)
    } else if equals(word, "div") {
        Some(Token::Arithmetic(Operator::Divide))
    } else if equals(word, "mod") {
        Some(Token::Arithmetic(Operator::Modulo))
    } else {
        None
    }
}

/// The node type of that name (XPath 1.0, production 38); None where there is none.
fn node_type(word: &[char]) -> Option<NodeType>
    ensures { result ≡ find_named node_types word.now }
{
    if equals(word, "comment") {
        Some(NodeType::Comment)
    } else if equals(word, "text") {
        Some(NodeType::Text)
    } else if equals(word, "processing-instruction") {
        Some(NodeType::Instruction)
    } else if equals(word, "node") {
        Some(NodeType::Node)
    } else {
        None
    }
}

/// The axis of that name (XPath 1.0, production 6); None where there is none.
fn axis_name(word: &[char]) -> Option<StepAxis>
    ensures { result ≡ find_named axis_names word.now }
{
    if equals(word, "child") {
        Some(StepAxis::Known(Axis::Child))
    } else if equals(word, "descendant") {
        Some(StepAxis::Known(Axis::Descendant))
    } else if equals(word, "parent") {
        Some(StepAxis::Known(Axis::Parent))
    } else if equals(word, "ancestor") {
        Some(StepAxis::Known(Axis::Ancestor))
    } else if equals(word, "following-sibling") {
        Some(StepAxis::Known(Axis::FollowingSibling))
    } else if equals(word, "preceding-sibling") {
        Some(StepAxis::Known(Axis::PrecedingSibling))
    } else if equals(word, "following") {
        Some(StepAxis::Known(Axis::Following))
    } else if equals(word, "preceding") {
        Some(StepAxis::Known(Axis::Preceding))
    } else if equals(word, "attribute") {
        Some(StepAxis::Known(Axis::Attribute))
    } else if equals(word, "self") {
        Some(StepAxis::Known(Axis::Itself))
    } else if equals(word, "descendant-or-self") {
        Some(StepAxis::Known(Axis::DescendantOrSelf))
    } else if equals(word, "ancestor-or-self") {
        Some(StepAxis::Known(Axis::AncestorOrSelf))
    } else if equals(word, "namespace") {
        Some(StepAxis::Namespace)
    } else {
        None
    }
}

/// Whether a word is a symbol: a bracket, a point or two, `@`, `,`, `::`, `*`, or an operator of signs.
fn is_symbol(word: &[char]) -> bool
    ensures { result ≡ is_symbol word.now }
{
    match word {
        [c] => is_single(*c),
        [c, d] => is_pair(*c, *d),
        _ => false,
    }
}

/// What is after the white space at the start.
#[tactic(auto, using(crate::proofs::Spaces::after_space_run))]
fn after_space(chars: &[char]) -> &[char]
    ensures rest { result.now ≡ after_space chars.now }
    ensures within { length result.now ≤ length chars.now }
{
    after(chars, space_run(chars))
}

/// Whether a name has a colon.
#[tactic(auto, using(crate::proofs::Spaces::has_colon_run))]
fn has_colon(word: &[char]) -> bool
    ensures { result ≡ has_colon word.now }
{
    run_before(':', word) < word.len()
}

/// The prefix of a name, empty where there is no colon, and the part after it.
fn name_parts<'a>(word: &'a [char]) -> (&'a [char], &'a [char])
    ensures prefix { result.0.now ≡ prefix_of word.now }
    ensures local { result.1.now ≡ local_of word.now }
{
    let count = run_before(':', word);
    if count < word.len() {
        (&word[..count], &word[count + 1..])
    } else {
        (&word[..0], word)
    }
}

/// All but the last character.
fn without_last<'a>(chars: &'a [char]) -> &'a [char]
    ensures { result.now ≡ without_last chars.now }
{
    if chars.is_empty() {
        chars
    } else {
        &chars[..chars.len() - 1]
    }
}

/// Whether a `*` is among the characters.
fn has_star(word: &[char]) -> bool
    ensures { result ≡ has_star word.now }
{
    word.iter().any(|c| *c == '*')
}

/// Whether `(` comes first.
fn starts_open(chars: &[char]) -> bool
    ensures { result ≡ starts_open chars.now }
{
    match chars {
        [c, ..] => *c == '(',
        [] => false,
    }
}

/// Whether `::` comes first.
fn starts_colons(chars: &[char]) -> bool
    ensures { result ≡ starts_colons chars.now }
{
    match chars {
        [c, d, ..] => *c == ':' && *d == ':',
        _ => false,
    }
}

/// The token that `*` is: an operator after an operand, and else a name test (XPath 1.0, section 3.7).
fn star_token(after: bool) -> Token
    ensures { result ≡ star_token after }
{
    if after {
        Token::Arithmetic(Operator::Multiply)
    } else {
        Token::Any
    }
}

/// The token that a name is (the three rules of XPath 1.0, section 3.7).
fn name_token(alloc: Global, after: bool, word: &[char], rest: &[char]) -> Result<Token, Fault>
    ensures { IsFound (name_token word.now (place after rest.now)) result }
{
    if after {
        return operator_name(word).ok_or(Fault::Syntax);
    }
    let rest = after_space(rest);
    if starts_open(rest) {
        return match node_type(word) {
            Some(kind) => Ok(Token::Kind(kind)),
            None => Ok(Token::Function(text_of(alloc, word)?)),
        };
    }
    if starts_colons(rest) && !has_colon(word) {
        return match axis_name(word) {
            Some(axis) => Ok(Token::AxisName(axis)),
            None => Err(Fault::Syntax),
        };
    }
    let (prefix, local) = name_parts(word);
    let prefix = text_of(alloc, prefix)?;
    let local = text_of(alloc, local)?;
    Ok(Token::Named(prefix, local))
}

/// The token that a prefix with `:*` is.
fn prefix_token(alloc: Global, word: &[char]) -> Result<Token, Fault>
    ensures { IsFound (Some (AnyIn (prefix_of word.now))) result }
{
    let (prefix, _) = name_parts(word);
    Ok(Token::AnyIn(text_of(alloc, prefix)?))
}

/// The kinds of words (XPath 1.0, productions 28 to 37).
#[derive(Clone, Copy)]
pub enum WordKind {
    /// A bracket, a point or two, `@`, `,`, `::`, `*`, or an operator of signs.
    Symbol,
    /// A text between quotes.
    Literal,
    /// A name after `$`.
    Variable,
    /// Digits, with a point or without.
    Number,
    /// A prefix with `:*`.
    AnyIn,
    /// A name, with a prefix or without.
    Name,
}

/// The kind of a word.
fn word_kind(word: &[char]) -> WordKind
    ensures { result ≡ kind_of word.now }
{
    if is_symbol(word) {
        return WordKind::Symbol;
    }
    match word {
        [] => WordKind::Name,
        [first, inner @ ..] => {
            if is_quote(*first) {
                WordKind::Literal
            } else if *first == '$' {
                WordKind::Variable
            } else if is_digit(*first) || *first == '.' {
                WordKind::Number
            } else if has_star(inner) {
                WordKind::AnyIn
            } else {
                WordKind::Name
            }
        }
    }
}

/// All but the first character.
fn tail(chars: &[char]) -> &[char]
    ensures { result.now ≡ drop 1 chars.now }
{
    match chars {
        [] => chars,
        [_, rest @ ..] => rest,
    }
}

/// The token that a symbol is, after an operand or not; None where a word is no symbol.
fn symbol_token(after: bool, word: &[char]) -> Option<Token>
    ensures { result ≡ symbol_token after word.now }
{
    if equals(word, "*") {
        Some(star_token(after))
    } else {
        fixed_token(word)
    }
}

/// The token that a word is, after an operand or not, and before the rest.
fn token(alloc: Global, after: bool, word: &[char], rest: &[char]) -> Result<Token, Fault>
    ensures { IsFound (token_of after word.now rest.now) result }
{
    match word_kind(word) {
        WordKind::Symbol => symbol_token(after, word).ok_or(Fault::Syntax),
        WordKind::Literal => Ok(Token::Literal(text_of(alloc, without_last(tail(word)))?)),
        WordKind::Variable => Ok(Token::Variable(text_of(alloc, tail(word))?)),
        WordKind::Number => Ok(Token::Number(text_of(alloc, word)?)),
        WordKind::AnyIn => prefix_token(alloc, word),
        WordKind::Name => name_token(alloc, after, word, rest),
    }
}

/// The tokens that characters split into.
fn tokens(alloc: Global, text: &[char]) -> Result<Vec<Token>, Fault>
    ensures tokens { IfOk result (λ found. Splits false text.now found.items) }
    ensures syntax { result ≡ Err Syntax → (ts : List Token) → Splits false text.now ts → ⊥ }
{
    let mut found = Vec::new(alloc);
    let mut after = false;
    let mut rest = after_space(text);
    while !rest.is_empty() {
        let count = word_length(rest);
        if count == 0 {
            return Err(Fault::Syntax);
        }
        let (word, back) = rest.split_at(count);
        let next = token(alloc, after, word, back)?;
        after = closes_operand(&next);
        found.push(next)?;
        rest = after_space(back);
    }
    Ok(found)
}

/// The characters of a text.
fn chars_of(alloc: Global, text: &str) -> Result<Vec<char>, AllocError>
    ensures { IfOk result (λ v. v.items ≡ chars text.now) }
{
    text.chars().collect(alloc)
}

/// The tokens that a text splits into, each as long as it can be (XPath 1.0, section 3.7). It takes linear time.
///
/// # Errors
/// `Syntax` exactly where it splits into none; `NoMemory` where memory is not to be had.
pub fn tokens_of(alloc: Global, text: &str) -> Result<Vec<Token>, Fault>
    ensures tokens { IfOk result (λ found. Splits false (chars text.now) found.items) }
    ensures syntax { result ≡ Err Syntax → (ts : List Token) → Splits false (chars text.now) ts → ⊥ }
{
    let all = chars_of(alloc, text)?;
    tokens(alloc, all.as_slice())
}
