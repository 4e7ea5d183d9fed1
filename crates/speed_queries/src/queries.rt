//! Expressions over a document.

use std::io;
use std::rt::Clock;
use std::time::Instant;
use vtd_builder::build;
use vtd_location::Nav;
use vtd_words::Words;
use xml_model::texts::as_str;
use xpath_eval::evaluate;
use xpath_grammar::{Bindings, Expr, check, parse};
use xpath_values::{Value, string_of};

/// Writes a value.
fn write_value<R: Print + AllocGlobal, W: Words>(
    rt: &R,
    nav: &Nav<'_, W>,
    expression: &str,
    value: &Value,
) -> io::Result<()> {
    if let Value::Nodes(list) = value {
        return println!(rt; "{expression}: {} nodes", list.held.len());
    }
    match string_of(rt.alloc(), nav.table(), value) {
        Ok(text) => println!(rt; "{expression}: {}", as_str(&text)),
        Err(_) => println!(rt; "{expression}: no memory"),
    }
}

/// Evaluates an expression, and times it.
fn time_expr<R: Clock + Print + Eprint + AllocGlobal, W: Words>(
    rt: &R,
    nav: &Nav<'_, W>,
    bindings: &Bindings,
    expression: &str,
    expr: &Expr,
) -> io::Result<()> {
    if check(expr, bindings).is_err() {
        return println!(rt; "{expression}: refused");
    }
    let start = Instant::now(rt)?;
    let result = evaluate(rt.alloc(), nav, expr, bindings);
    let took = start.elapsed(rt)?;
    eprintln!(rt; "{expression}\t{}", took.as_micros())?;
    match result {
        Ok(value) => write_value(rt, nav, expression, &value),
        Err(_) => println!(rt; "{expression}: a fault"),
    }
}

/// Times the lines of a text, which are expressions.
fn time_all<R: Clock + Print + Eprint + AllocGlobal, W: Words>(
    rt: &R,
    nav: &Nav<'_, W>,
    text: &str,
) -> io::Result<()> {
    let bindings = Bindings::new(rt.alloc());
    for line in text.lines() {
        if line.is_empty() || line.starts_with("#") {
            continue;
        }
        match parse(rt.alloc(), line) {
            Ok(expr) => time_expr(rt, nav, &bindings, line, &expr)?,
            Err(_) => println!(rt; "{line}: no expression")?,
        }
    }
    Ok(())
}

/// Times expressions over a document.
pub fn time<R: Clock + Print + Eprint + AllocGlobal>(
    rt: &R,
    bytes: Vec<u8>,
    expressions: Vec<u8>,
) -> io::Result<()> {
    if bytes.len() >= 1 << 30 {
        return eprintln!(rt; "too long");
    }
    let Ok(text) = str::from_utf8(&expressions) else {
        return eprintln!(rt; "no text");
    };
    match build(rt.alloc(), bytes) {
        Ok(doc) => time_all(rt, &doc.nav(), text),
        Err(_) => eprintln!(rt; "refused"),
    }
}
