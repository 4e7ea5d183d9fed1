//! The tokens of XPath 1.0 (section 3.7), and how a text splits into them.
#![tactic(auto)]

pub mod laws;
mod lexer;
mod numbers;
mod text;
mod words;

ghost use Rattle.std.specs.Prelude.{◌≡◌};
ghost use Rattle.xpath_tokens.specs.declared.Fault.TheVariants.{NoMemory};

pub use lexer::tokens_of;
pub use numbers::{
    GREATEST, NumberFault, NumberScan, number_value, scan_next, scan_start, scan_value,
};
use std::alloc::{AllocError, AllocFailed};
pub use words::number_length;
use xml_model::{Axis, Text};

/// How two values are compared (XPath 1.0, productions 23 and 24).
#[derive(Clone, Copy, PartialEq)]
pub enum Comparison {
    /// `=`
    Equal,
    /// `!=`
    Unequal,
    /// `<`
    Less,
    /// `>`
    Greater,
    /// `<=`
    AtMost,
    /// `>=`
    AtLeast,
}

/// An operator on two numbers (XPath 1.0, productions 25 and 26).
#[derive(Clone, Copy, PartialEq)]
pub enum Operator {
    /// `+`
    Add,
    /// `-`
    Subtract,
    /// `*`
    Multiply,
    /// `div`
    Divide,
    /// `mod`
    Modulo,
}

/// The axis of a step (XPath 1.0, section 2.2).
#[derive(Clone, Copy, PartialEq)]
pub enum StepAxis {
    /// One of the twelve that have nodes here.
    Known(Axis),
    /// `namespace`, which has no nodes here.
    Namespace,
}

/// A word that is a test of a kind of node before `(` (XPath 1.0, production 38).
#[derive(Clone, Copy)]
pub enum NodeType {
    /// `comment`
    Comment,
    /// `text`
    Text,
    /// `processing-instruction`
    Instruction,
    /// `node`
    Node,
}

/// A token of an expression (XPath 1.0, production 28). Texts are without the quotes, the `$` and the `:*`.
#[derive(Drop)]
pub enum Token {
    /// `(`
    Open,
    /// `)`
    Close,
    /// `[`
    OpenSquare,
    /// `]`
    CloseSquare,
    /// `.`
    Dot,
    /// `..`
    DotDot,
    /// `@`
    At,
    /// `,`
    Comma,
    /// `::`
    ColonColon,
    /// `*` as a name test.
    Any,
    /// `prefix:*`
    AnyIn(Text),
    /// A name test; the prefix is empty where there is none.
    Named(Text, Text),
    /// A node type before `(`.
    Kind(NodeType),
    /// `or`
    Or,
    /// `and`
    And,
    /// `=`, `!=`, `<`, `>`, `<=` or `>=`.
    Compare(Comparison),
    /// `+`, `-`, `div`, `mod`, or `*` as an operator.
    Arithmetic(Operator),
    /// `|`
    Bar,
    /// `/`
    Slash,
    /// `//`
    SlashSlash,
    /// A function's name before `(`, as it is written.
    Function(Text),
    /// An axis name before `::`.
    AxisName(StepAxis),
    /// What is between the quotes.
    Literal(Text),
    /// A number as it is spelled.
    Number(Text),
    /// A name after `$`, as it is written.
    Variable(Text),
}

/// Why there is no answer.
#[derive(Clone, Copy, Debug, PartialEq)]
pub enum Fault {
    /// The text splits into no tokens, or they derive no expression.
    Syntax,
    /// Memory was not to be had.
    NoMemory,
}

impl From<AllocError> for Fault {
    ghost from_gives = { λ _ e. e ≡ NoMemory };

    fn from(_e: AllocError) -> Fault {
        Fault::NoMemory
    }
}

impl<T: Drop> From<AllocFailed<T>> for Fault {
    ghost from_gives = { λ _ e. e ≡ NoMemory };

    fn from(_e: AllocFailed<T>) -> Fault {
        Fault::NoMemory
    }
}
