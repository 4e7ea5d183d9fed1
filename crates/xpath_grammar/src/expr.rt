//! Expressions.

use xml_model::Text;
use xpath_tokens::{Comparison, Operator, StepAxis};

/// An expression (XPath 1.0, production 14), with the abbreviations expanded and the brackets dropped.
#[cycle(expr)]
#[derive(Drop)]
pub enum Expr {
    /// `or` between two expressions (XPath 1.0, production 21).
    Or(Box<Expr>, Box<Expr>),
    /// `and` between two expressions (XPath 1.0, production 22).
    And(Box<Expr>, Box<Expr>),
    /// A comparison of two expressions (XPath 1.0, productions 23 and 24).
    Compare(Comparison, Box<Expr>, Box<Expr>),
    /// An operator on two numbers (XPath 1.0, productions 25 and 26).
    Arithmetic(Operator, Box<Expr>, Box<Expr>),
    /// A minus sign before an expression (XPath 1.0, production 27).
    Negate(Box<Expr>),
    /// `|` between two expressions (XPath 1.0, production 18).
    Union(Box<Expr>, Box<Expr>),
    /// A location path (XPath 1.0, production 1), from the root where it is absolute, else from the context node. One
    /// that is not absolute has a step.
    Path { absolute: bool, steps: Steps },
    /// Steps from the nodes of an expression (XPath 1.0, production 19).
    From { start: Box<Expr>, steps: Steps },
    /// An expression with predicates after it, at least one (XPath 1.0, production 20).
    Filter { start: Box<Expr>, predicates: Exprs },
    /// A text, without its quotes.
    Literal(Text),
    /// A number as it is spelled.
    Number(Text),
    /// A variable's name, without the `$`.
    Variable(Text),
    /// A function call (XPath 1.0, production 16), with the function's name as it is written.
    Call { name: Text, arguments: Exprs },
}

/// A list of expressions.
#[cycle(expr)]
#[derive(Drop)]
pub enum Exprs {
    /// No expression.
    End,
    /// The first expression and the list of the others.
    More(Box<Expr>, Box<Exprs>),
}

/// A list of steps.
#[cycle(expr)]
#[derive(Drop)]
pub enum Steps {
    /// No step.
    End,
    /// The first step and the list of the others.
    More(Box<Step>, Box<Steps>),
}

/// A step of a path (XPath 1.0, production 4).
#[cycle(expr)]
#[derive(Drop)]
pub struct Step {
    /// The axis on which its nodes lie.
    pub axis: StepAxis,
    /// What its nodes pass.
    pub test: StepTest,
    /// The predicates after the test, in their order.
    pub predicates: Exprs,
}

/// What the nodes of a step pass (XPath 1.0, production 7).
#[derive(Drop)]
pub enum StepTest {
    /// `node()`
    Node,
    /// `text()`
    Text,
    /// `comment()`
    Comment,
    /// `processing-instruction()`
    Instruction,
    /// `processing-instruction` with a target between the brackets.
    Target(Text),
    /// `*`
    Any,
    /// `prefix:*`
    AnyIn(Text),
    /// A name; the prefix is empty where there is none.
    Named { prefix: Text, local: Text },
}
