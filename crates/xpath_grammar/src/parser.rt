//! The parser: each function cuts its tokens at the operators of one symbol of the grammar, and parses the parts.

ghost use Rattle.std.specs.Prelude.{◌≡◌, true};
ghost use Rattle.xpath_grammar.specs.Shape.{first, starts_primary};
ghost use Rattle.xpath_grammar.specs.Grammar.{UnaryExpr, PathExpr, PrimaryExpr, Arguments, RelativeLocationPath};
ghost use Rattle.xpath_grammar.specs.Grammar.{StepPart, Predicates};
ghost use Rattle.xpath_grammar.specs.Cutting.{AnswersFilter, as_step, Answers, as_expr, as_exprs, as_walk, form};
ghost use Rattle.xpath_grammar.specs.Cutting.{symbol, operand, rank_of};

use crate::build::{
    after_slash, applied, call, deep, filtered, from, literal, more, negated_times, number,
    step_more, variable,
};
use crate::expr::{Expr, Exprs, Step, StepTest, Steps};
use crate::scan::{Around, after_minuses, first_operator, operators, parts_at};
use crate::shape::{
    PathShape, PrimaryShape, after_test, axis_part, dot_axis, path_shape, primary_shape, step_test,
    unsquared,
};
use std::alloc::Global;
use xpath_tokens::{Fault, StepAxis, Token};

/// The forms of an expression with an operator between two parts.
#[derive(Clone, Copy)]
pub enum Binary {
    /// `or` (XPath 1.0, production 21).
    Or,
    /// `and` (XPath 1.0, production 22).
    And,
    /// `=` and `!=` (XPath 1.0, production 23).
    Equality,
    /// `<`, `>`, `<=` and `>=` (XPath 1.0, production 24).
    Relational,
    /// `+` and `-` (XPath 1.0, production 25).
    Additive,
    /// `*`, `div` and `mod` (XPath 1.0, production 26).
    Multiplicative,
    /// `|` (XPath 1.0, production 18).
    Union,
}

impl Binary {
    /// The rank of the operators, as `scan::rank` has it.
    fn rank(self) -> u8
        ensures { result ≡ rank_of (form self) }
    {
        match self {
            Binary::Or => 1,
            Binary::And => 2,
            Binary::Equality => 3,
            Binary::Relational => 4,
            Binary::Additive => 5,
            Binary::Multiplicative => 6,
            Binary::Union => 8,
        }
    }
}

/// The expression that tokens derive as operands of a form with its operators between.
#[cycle(parser)]
pub fn chain(alloc: Global, level: Binary, tokens: &[Token]) -> Result<Expr, Fault>
    ensures { Answers (symbol (form level)) as_expr tokens.now result }
{
    let mut cuts = operators(alloc, level.rank(), tokens)?;
    let mut after = Vec::new(alloc);
    let mut rest = tokens;
    while let Some(i) = cuts.pop() {
        let Around {
            prefix,
            token,
            back,
        } = parts_at(rest, i);
        let part = operand(alloc, level, back)?;
        after.push((token, part))?;
        rest = prefix;
    }
    let first = operand(alloc, level, rest)?;
    applied(alloc, first, after)
}

/// The expression that tokens derive as an operand of a form.
#[cycle(parser)]
fn operand(alloc: Global, level: Binary, tokens: &[Token]) -> Result<Expr, Fault>
    ensures { Answers (operand (form level)) as_expr tokens.now result }
{
    match level {
        Binary::Or => chain(alloc, Binary::And, tokens),
        Binary::And => chain(alloc, Binary::Equality, tokens),
        Binary::Equality => chain(alloc, Binary::Relational, tokens),
        Binary::Relational => chain(alloc, Binary::Additive, tokens),
        Binary::Additive => chain(alloc, Binary::Multiplicative, tokens),
        Binary::Multiplicative => unary(alloc, tokens),
        Binary::Union => path(alloc, tokens),
    }
}

/// The expression that tokens derive with its minus signs (XPath 1.0, production 27).
#[cycle(parser)]
fn unary(alloc: Global, tokens: &[Token]) -> Result<Expr, Fault>
    ensures { Answers UnaryExpr as_expr tokens.now result }
{
    let (count, rest) = after_minuses(tokens);
    let part = chain(alloc, Binary::Union, rest)?;
    negated_times(alloc, count, part)
}

/// The expression that tokens derive without operators outside all brackets (XPath 1.0, production 19).
#[cycle(parser)]
fn path(alloc: Global, tokens: &[Token]) -> Result<Expr, Fault>
    ensures { Answers PathExpr as_expr tokens.now result }
{
    match path_shape(tokens) {
        PathShape::Root => Ok(Expr::Path {
            absolute: true,
            steps: Steps::End,
        }),
        PathShape::Absolute(rest) => {
            let steps = relative(alloc, rest)?;
            Ok(Expr::Path {
                absolute: true,
                steps,
            })
        }
        PathShape::Deep(rest) => {
            let steps = relative(alloc, rest)?;
            deep(alloc, steps)
        }
        PathShape::Steps => {
            let steps = relative(alloc, tokens)?;
            Ok(Expr::Path {
                absolute: false,
                steps,
            })
        }
        PathShape::Filter => from_filter(alloc, tokens),
    }
}

/// A path that begins with a primary expression (XPath 1.0, productions 19 and 20).
#[cycle(parser)]
fn from_filter(alloc: Global, tokens: &[Token]) -> Result<Expr, Fault>
    requires { first starts_primary tokens.now ≡ true }
    ensures { Answers PathExpr as_expr tokens.now result }
{
    match first_operator(9, tokens) {
        None => filter(alloc, tokens),
        Some(i) => {
            let Around {
                prefix,
                token,
                back,
            } = parts_at(tokens, i);
            let start = filter(alloc, prefix)?;
            let steps = relative(alloc, back)?;
            let steps = after_slash(alloc, token, steps)?;
            from(alloc, start, steps)
        }
    }
}

/// A primary expression with its predicates (XPath 1.0, production 20).
#[cycle(parser)]
fn filter(alloc: Global, tokens: &[Token]) -> Result<Expr, Fault>
    ensures { AnswersFilter tokens.now result }
{
    match first_operator(10, tokens) {
        None => primary(alloc, tokens),
        Some(i) => {
            let start = primary(alloc, &tokens[..i])?;
            let predicates = predicates(alloc, &tokens[i..])?;
            filtered(alloc, start, predicates)
        }
    }
}

/// A primary expression (XPath 1.0, production 15).
#[cycle(parser)]
fn primary(alloc: Global, tokens: &[Token]) -> Result<Expr, Fault>
    ensures { Answers PrimaryExpr as_expr tokens.now result }
{
    match primary_shape(tokens) {
        PrimaryShape::Variable(name) => variable(alloc, name),
        PrimaryShape::Literal(text) => literal(alloc, text),
        PrimaryShape::Number(text) => number(alloc, text),
        PrimaryShape::Bracketed(inner) => chain(alloc, Binary::Or, inner),
        PrimaryShape::Call(name, inner) => {
            if inner.is_empty() {
                return call(alloc, name, Exprs::End);
            }
            let arguments = arguments(alloc, inner)?;
            call(alloc, name, arguments)
        }
        PrimaryShape::Other => Err(Fault::Syntax),
    }
}

/// The arguments of a call, at least one (XPath 1.0, productions 16 and 17).
#[cycle(parser)]
fn arguments(alloc: Global, tokens: &[Token]) -> Result<Exprs, Fault>
    ensures { Answers Arguments as_exprs tokens.now result }
{
    let mut cuts = operators(alloc, 0, tokens)?;
    let mut all = Exprs::End;
    let mut rest = tokens;
    while let Some(i) = cuts.pop() {
        let Around {
            prefix,
            token: _,
            back,
        } = parts_at(rest, i);
        let part = chain(alloc, Binary::Or, back)?;
        all = more(alloc, part, all)?;
        rest = prefix;
    }
    let part = chain(alloc, Binary::Or, rest)?;
    more(alloc, part, all)
}

/// Predicates, one after another (XPath 1.0, production 8).
#[cycle(parser)]
fn predicates(alloc: Global, tokens: &[Token]) -> Result<Exprs, Fault>
    ensures { Answers Predicates as_exprs tokens.now result }
{
    let mut cuts = operators(alloc, 10, tokens)?;
    let mut all = Exprs::End;
    let mut rest = tokens;
    while let Some(i) = cuts.pop() {
        let Around {
            prefix,
            token: _,
            back,
        } = parts_at(rest, i);
        let Some(inner) = unsquared(back) else {
            return Err(Fault::Syntax);
        };
        let part = chain(alloc, Binary::Or, inner)?;
        all = more(alloc, part, all)?;
        rest = prefix;
    }
    if rest.is_empty() {
        Ok(all)
    } else {
        Err(Fault::Syntax)
    }
}

/// Steps with `/` or `//` between (XPath 1.0, productions 3 and 11).
#[cycle(parser)]
fn relative(alloc: Global, tokens: &[Token]) -> Result<Steps, Fault>
    ensures { Answers RelativeLocationPath as_walk tokens.now result }
{
    let mut cuts = operators(alloc, 9, tokens)?;
    let mut all = Steps::End;
    let mut rest = tokens;
    while let Some(i) = cuts.pop() {
        let Around {
            prefix,
            token,
            back,
        } = parts_at(rest, i);
        let part = step(alloc, back)?;
        let after = step_more(alloc, part, all)?;
        all = after_slash(alloc, token, after)?;
        rest = prefix;
    }
    let part = step(alloc, rest)?;
    step_more(alloc, part, all)
}

/// A step (XPath 1.0, productions 4 and 12).
#[cycle(parser)]
fn step(alloc: Global, tokens: &[Token]) -> Result<Step, Fault>
    ensures { Answers StepPart as_step tokens.now result }
{
    if let Some(axis) = dot_axis(tokens) {
        return Ok(Step {
            axis: StepAxis::Known(axis),
            test: StepTest::Node,
            predicates: Exprs::End,
        });
    }
    let (axis, rest) = axis_part(tokens);
    let test = step_test(alloc, rest)?;
    let predicates = predicates(alloc, after_test(rest))?;
    Ok(Step {
        axis,
        test,
        predicates,
    })
}
