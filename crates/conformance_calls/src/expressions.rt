//! Expressions of XPath 1.0: what they parse to, why they are refused, and bindings of prefixes.

use std::alloc::{AllocError, Global};
use xml_model::{Axis, Text};
use xpath_grammar::{
    BindFault, Bindings, Comparison, Expr, Exprs, GrammarFault, Operator, StaticFault, StepAxis,
    StepTest, Steps, check, parse,
};

fn axis_word(axis: StepAxis) -> &'static str {
    match axis {
        StepAxis::Namespace => "namespace",
        StepAxis::Known(Axis::Child) => "child",
        StepAxis::Known(Axis::Descendant) => "descendant",
        StepAxis::Known(Axis::Parent) => "parent",
        StepAxis::Known(Axis::Ancestor) => "ancestor",
        StepAxis::Known(Axis::FollowingSibling) => "following-sibling",
        StepAxis::Known(Axis::PrecedingSibling) => "preceding-sibling",
        StepAxis::Known(Axis::Following) => "following",
        StepAxis::Known(Axis::Preceding) => "preceding",
        StepAxis::Known(Axis::Attribute) => "attribute",
        StepAxis::Known(Axis::Itself) => "self",
        StepAxis::Known(Axis::DescendantOrSelf) => "descendant-or-self",
        StepAxis::Known(Axis::AncestorOrSelf) => "ancestor-or-self",
    }
}

fn comparison_sign(how: Comparison) -> &'static str {
    match how {
        Comparison::Equal => "=",
        Comparison::Unequal => "!=",
        Comparison::Less => "<",
        Comparison::Greater => ">",
        Comparison::AtMost => "<=",
        Comparison::AtLeast => ">=",
    }
}

fn operator_sign(how: Operator) -> &'static str {
    match how {
        Operator::Add => "+",
        Operator::Subtract => "-",
        Operator::Multiply => "*",
        Operator::Divide => "div",
        Operator::Modulo => "mod",
    }
}

fn write_text(out: &mut String, before: &str, text: &Text, after: &str) -> Result<(), AllocError> {
    out.push_str(before)?;
    out.push_str(text.held.as_str())?;
    out.push_str(after)
}

fn write_test(out: &mut String, test: &StepTest) -> Result<(), AllocError> {
    match test {
        StepTest::Node => out.push_str("node()"),
        StepTest::Text => out.push_str("text()"),
        StepTest::Comment => out.push_str("comment()"),
        StepTest::Instruction => out.push_str("processing-instruction()"),
        StepTest::Target(target) => write_text(out, "processing-instruction('", target, "')"),
        StepTest::Any => out.push_str("*"),
        StepTest::AnyIn(prefix) => write_text(out, "", prefix, ":*"),
        StepTest::Named { prefix, local } => {
            if !prefix.held.as_str().is_empty() {
                write_text(out, "", prefix, ":")?;
            }
            write_text(out, "", local, "")
        }
    }
}

#[cycle(write)]
fn write_list(out: &mut String, before: &str, list: &Exprs, after: &str) -> Result<(), AllocError> {
    match list {
        Exprs::End => Ok(()),
        Exprs::More(first, rest) => {
            out.push_str(before)?;
            write_expr(out, first)?;
            out.push_str(after)?;
            write_list(out, before, rest, after)
        }
    }
}

#[cycle(write)]
fn write_steps(out: &mut String, before: &str, steps: &Steps) -> Result<(), AllocError> {
    match steps {
        Steps::End => Ok(()),
        Steps::More(step, rest) => {
            out.push_str(before)?;
            out.push_str(axis_word(step.axis))?;
            out.push_str("::")?;
            write_test(out, &step.test)?;
            write_list(out, "[", &step.predicates, "]")?;
            write_steps(out, "/", rest)
        }
    }
}

/// An opening bracket and an operator.
fn write_operator(out: &mut String, sign: &str) -> Result<(), AllocError> {
    out.push_str("(")?;
    out.push_str(sign)?;
    out.push_str(" ")
}

/// An expression in braces, before its steps or its predicates.
#[cycle(write)]
fn write_start(out: &mut String, start: &Expr) -> Result<(), AllocError> {
    out.push_str("{")?;
    write_expr(out, start)?;
    out.push_str("}")
}

#[cycle(write)]
fn write_expr(out: &mut String, expr: &Expr) -> Result<(), AllocError> {
    match expr {
        Expr::Or(left, right) => {
            write_operator(out, "or")?;
            write_expr(out, left)?;
            out.push_str(" ")?;
            write_expr(out, right)?;
            out.push_str(")")
        }
        Expr::And(left, right) => {
            write_operator(out, "and")?;
            write_expr(out, left)?;
            out.push_str(" ")?;
            write_expr(out, right)?;
            out.push_str(")")
        }
        Expr::Compare(how, left, right) => {
            write_operator(out, comparison_sign(*how))?;
            write_expr(out, left)?;
            out.push_str(" ")?;
            write_expr(out, right)?;
            out.push_str(")")
        }
        Expr::Arithmetic(how, left, right) => {
            write_operator(out, operator_sign(*how))?;
            write_expr(out, left)?;
            out.push_str(" ")?;
            write_expr(out, right)?;
            out.push_str(")")
        }
        Expr::Union(left, right) => {
            write_operator(out, "|")?;
            write_expr(out, left)?;
            out.push_str(" ")?;
            write_expr(out, right)?;
            out.push_str(")")
        }
        Expr::Negate(part) => {
            out.push_str("-")?;
            write_expr(out, part)
        }
        Expr::Path { absolute, steps } => {
            if *absolute {
                out.push_str("/")?;
            }
            write_steps(out, "", steps)
        }
        Expr::From { start, steps } => {
            write_start(out, start)?;
            write_steps(out, "/", steps)
        }
        Expr::Filter { start, predicates } => {
            write_start(out, start)?;
            write_list(out, "[", predicates, "]")
        }
        Expr::Literal(text) => write_text(out, "'", text, "'"),
        Expr::Number(text) => write_text(out, "", text, ""),
        Expr::Variable(name) => write_text(out, "$", name, ""),
        Expr::Call { name, arguments } => {
            write_text(out, "", name, "(")?;
            write_list(out, "", arguments, ",")?;
            out.push_str(")")
        }
    }
}

fn fault_word(fault: GrammarFault) -> &'static str {
    match fault {
        GrammarFault::Long => "long",
        GrammarFault::Deep => "deep",
        GrammarFault::Syntax => "syntax",
        GrammarFault::NoMemory => "no memory",
    }
}

fn static_word(fault: StaticFault) -> &'static str {
    match fault {
        StaticFault::Axis => "axis",
        StaticFault::Variable => "variable",
        StaticFault::Function => "function",
        StaticFault::Arguments => "arguments",
        StaticFault::Prefix => "prefix",
        StaticFault::Fraction => "literal-fraction",
        StaticFault::Range => "literal-range",
        StaticFault::NotNodes => "type",
    }
}

/// What a text parses to, or why it is refused.
fn write_tree(alloc: Global, out: &mut String, text: &str) -> Result<(), AllocError> {
    match parse(alloc, text) {
        Ok(expr) => write_expr(out, &expr),
        Err(fault) => out.push_str(fault_word(fault)),
    }
}

/// Whether a text is an expression, or why it is none.
fn parsed_word(alloc: Global, text: &str) -> &'static str {
    match parse(alloc, text) {
        Ok(_) => "ok",
        Err(fault) => fault_word(fault),
    }
}

/// Binds a prefix, and answers the word of a refusal.
fn bind(bindings: &mut Bindings, prefix: &str, uri: &str) -> &'static str {
    match bindings.set(prefix, uri) {
        Ok(()) => "",
        Err(BindFault::Name) => "refused;",
        Err(BindFault::NoMemory) => "no memory;",
    }
}

/// Binds prefixes, written as `prefix=uri`, and writes the URIs of those that are asked for, as `prefix?`.
fn write_bindings(
    out: &mut String,
    bindings: &mut Bindings,
    words: &str,
) -> Result<(), AllocError> {
    for word in words.split_whitespace() {
        if let Some((prefix, uri)) = word.split_once("=") {
            out.push_str(bind(bindings, prefix, uri))?;
        } else if let Some(prefix) = word.strip_suffix("?") {
            out.push_str(bindings.uri_of(prefix).unwrap_or("none"))?;
            out.push_str(";")?;
        }
    }
    Ok(())
}

/// What shows before an expression meets a document, with the prefixes that are bound.
fn checked_word(alloc: Global, bindings: &Bindings, text: &str) -> &'static str {
    let Ok(expr) = parse(alloc, text) else {
        return "no expression";
    };
    match check(&expr, bindings) {
        Ok(()) => "ok",
        Err(fault) => static_word(fault),
    }
}

/// The answer of a table of expressions.
pub fn answer(
    alloc: Global,
    out: &mut String,
    table: &str,
    given: &[u8],
    input: &str,
) -> Result<(), AllocError> {
    let mut bindings = Bindings::new(alloc);
    write_bindings(out, &mut bindings, str::from_utf8(given).unwrap_or(""))?;
    match table {
        "trees" => write_tree(alloc, out, input),
        "parsed" => out.push_str(parsed_word(alloc, input)),
        "checked" => out.push_str(checked_word(alloc, &bindings, input)),
        "bindings" => write_bindings(out, &mut bindings, input),
        _ => out.push_str("no such table"),
    }
}
