//! The forms that the first and the last tokens show.

ghost use Rattle.std.specs.Prelude.{◌≡◌, ◌≤◌, length};
ghost use Rattle.xpath_grammar.specs.Shape.{IsPrefix, IsBack, IsPrimaryShape, IsClosed, IsUnsquared, IsPathShape};
ghost use Rattle.xpath_grammar.specs.Shape.{dot_axis, axis_of, after_axis, IsStepTest, after_test};
ghost use Rattle.xpath_grammar.specs.Grammar.{kind_test};

use crate::expr::StepTest;
use std::alloc::Global;
use xml_model::texts::copy_text;
use xml_model::{Axis, Text};
use xpath_tokens::{Fault, NodeType, StepAxis, Token};

/// The first token and those after it; None where there is no token.
pub fn first_and_rest<'a>(tokens: &'a [Token]) -> Option<(&'a Token, &'a [Token])>
    ensures { IsPrefix tokens.now result }
{
    tokens.split_first()
}

/// The last token and those before it; None where there is no token.
pub fn back<'a>(tokens: &'a [Token]) -> Option<(&'a Token, &'a [Token])>
    ensures { IsBack tokens.now result }
{
    tokens.split_last()
}

/// A primary expression, by its first and last tokens (XPath 1.0, production 15).
pub enum PrimaryShape<'a> {
    /// A variable reference, by the name.
    Variable(&'a Text),
    /// A literal, by what is between the quotes.
    Literal(&'a Text),
    /// A number, as it is spelled.
    Number(&'a Text),
    /// What is between `(` and `)`.
    Bracketed(&'a [Token]),
    /// The name of a function, and what is between `(` and `)`.
    Call(&'a Text, &'a [Token]),
    /// No primary expression.
    Other,
}

/// The tokens before a `)` at the end; None where the last token is another.
#[tactic(auto, using(crate::proofs::Ends::same_last))]
fn closed<'a>(tokens: &'a [Token]) -> Option<&'a [Token]>
    ensures { IsClosed tokens.now result }
{
    match back(tokens) {
        Some((Token::Close, inner)) => Some(inner),
        _ => None,
    }
}

/// The shape that tokens have as a primary expression (XPath 1.0, production 15).
pub fn primary_shape<'a>(tokens: &'a [Token]) -> PrimaryShape<'a>
    ensures { IsPrimaryShape tokens.now result }
{
    match tokens {
        [Token::Variable(name)] => PrimaryShape::Variable(name),
        [Token::Literal(text)] => PrimaryShape::Literal(text),
        [Token::Number(text)] => PrimaryShape::Number(text),
        [Token::Open, rest @ ..] => match closed(rest) {
            Some(inner) => PrimaryShape::Bracketed(inner),
            None => PrimaryShape::Other,
        },
        [Token::Function(name), Token::Open, rest @ ..] => match closed(rest) {
            Some(inner) => PrimaryShape::Call(name, inner),
            None => PrimaryShape::Other,
        },
        _ => PrimaryShape::Other,
    }
}

/// The tokens before a `]` at the end; None where the last token is another.
#[tactic(auto, using(crate::proofs::Ends::same_last))]
pub fn unsquared<'a>(tokens: &'a [Token]) -> Option<&'a [Token]>
    ensures { IsUnsquared tokens.now result }
{
    match back(tokens) {
        Some((Token::CloseSquare, inner)) => Some(inner),
        _ => None,
    }
}

/// A path, by its first token (XPath 1.0, productions 1, 2, 10, 19 and 20).
pub enum PathShape<'a> {
    /// `/` alone.
    Root,
    /// The steps after `/`.
    Absolute(&'a [Token]),
    /// The steps after `//`.
    Deep(&'a [Token]),
    /// A primary expression comes first.
    Filter,
    /// Anything else, which can only be steps.
    Steps,
}

/// The shape that tokens have as a path (XPath 1.0, production 19).
pub fn path_shape<'a>(tokens: &'a [Token]) -> PathShape<'a>
    ensures { IsPathShape tokens.now result }
{
    match first_and_rest(tokens) {
        Some((Token::Slash, rest)) => {
            if rest.is_empty() {
                PathShape::Root
            } else {
                PathShape::Absolute(rest)
            }
        }
        Some((Token::SlashSlash, rest)) => PathShape::Deep(rest),
        Some(
            (
                Token::Open
                | Token::Variable(_)
                | Token::Literal(_)
                | Token::Number(_)
                | Token::Function(_),
                _,
            ),
        ) => PathShape::Filter,
        _ => PathShape::Steps,
    }
}

/// The axis that `.` or `..` alone stands for (XPath 1.0, production 12).
pub fn dot_axis(tokens: &[Token]) -> Option<Axis>
    ensures { result ≡ dot_axis tokens.now }
{
    match tokens {
        [Token::Dot] => Some(Axis::Itself),
        [Token::DotDot] => Some(Axis::Parent),
        _ => None,
    }
}

/// The axis of a step, and the tokens after it (XPath 1.0, productions 5 and 13).
pub fn axis_part<'a>(tokens: &'a [Token]) -> (StepAxis, &'a [Token])
    ensures axis { result.0 ≡ axis_of tokens.now }
    ensures rest { result.1.now ≡ after_axis tokens.now }
    ensures within { length result.1.now ≤ length tokens.now }
{
    match tokens {
        [Token::AxisName(axis), Token::ColonColon, rest @ ..] => (*axis, rest),
        [Token::At, rest @ ..] => (StepAxis::Known(Axis::Attribute), rest),
        _ => (StepAxis::Known(Axis::Child), tokens),
    }
}

/// The node test that a node type with empty brackets is.
fn kind_test(kind: NodeType) -> StepTest
    ensures { result ≡ kind_test kind }
{
    match kind {
        NodeType::Comment => StepTest::Comment,
        NodeType::Text => StepTest::Text,
        NodeType::Instruction => StepTest::Instruction,
        NodeType::Node => StepTest::Node,
    }
}

/// The node test that the first tokens are (XPath 1.0, productions 7 and 37).
pub fn step_test(alloc: Global, tokens: &[Token]) -> Result<StepTest, Fault>
    ensures { IsStepTest tokens.now result }
{
    Ok(match tokens {
        [Token::Any, ..] => StepTest::Any,
        [Token::AnyIn(prefix), ..] => StepTest::AnyIn(copy_text(alloc, prefix)?),
        [Token::Named(prefix, local), ..] => StepTest::Named {
            prefix: copy_text(alloc, prefix)?,
            local: copy_text(alloc, local)?,
        },
        [Token::Kind(kind), Token::Open, Token::Close, ..] => kind_test(*kind),
        [
            Token::Kind(NodeType::Instruction),
            Token::Open,
            Token::Literal(target),
            Token::Close,
            ..
        ] => { StepTest::Target(copy_text(alloc, target)?) }
        _ => return Err(Fault::Syntax),
    })
}

/// The tokens after the node test at the start.
pub fn after_test<'a>(tokens: &'a [Token]) -> &'a [Token]
    ensures rest { result.now ≡ after_test tokens.now }
    ensures within { length result.now ≤ length tokens.now }
{
    match tokens {
        [Token::Kind(_), Token::Open, Token::Close, rest @ ..] => rest,
        [
            Token::Kind(_),
            Token::Open,
            Token::Literal(_),
            Token::Close,
            rest @ ..,
        ] => rest,
        [_, rest @ ..] => rest,
        [] => tokens,
    }
}
