//! Numbers and texts of XPath 1.0: what the calls on them answer. A row's parts are separated by `|`.

ghost use Rattle.std.specs.Prelude.{IfSome};
ghost use Rattle.xpath_values.specs.Numbers.{IsNumber};

use std::alloc::{AllocError, Global};
use xml_model::texts::make_text;
use xml_model::{NoMemory, Text};
use xpath_grammar::Operator;
use xpath_tokens::GREATEST;
use xpath_values::{
    Number, ValueFault, arithmetic, ceiling, concat, contains, floor, negative, normalize_space,
    number_of_text, round, starts_with, string_length, substring, substring_after,
    substring_before, text_of_number, translate,
};

fn fault_word(fault: ValueFault) -> &'static str {
    match fault {
        ValueFault::Fraction => "fraction",
        ValueFault::Infinite => "infinite",
        ValueFault::Range => "range",
        ValueFault::NoMemory => "no memory",
    }
}

/// A number's text, or the word of its fault.
fn write_number(
    alloc: Global,
    out: &mut String,
    number: Result<Number, ValueFault>,
) -> Result<(), AllocError> {
    match number {
        Ok(number) => write_text(out, text_of_number(alloc, number)),
        Err(fault) => out.push_str(fault_word(fault)),
    }
}

fn write_text(out: &mut String, text: Result<Text, NoMemory>) -> Result<(), AllocError> {
    match text {
        Ok(text) => out.push_str(text.held.as_str()),
        Err(_) => out.push_str("no memory"),
    }
}

fn write_truth(out: &mut String, truth: bool) -> Result<(), AllocError> {
    out.push_str(if truth { "true" } else { "false" })
}

/// The number that a part of a row is, where it is one in range.
fn number_in(part: &str) -> Option<Number>
    ensures { IfSome result IsNumber }
{
    match number_of_text(part) {
        Ok(Number::Nan) => Some(Number::Nan),
        Ok(Number::Millionths(millionths)) => {
            if millionths.unsigned_abs() <= GREATEST {
                Some(Number::Millionths(millionths))
            } else {
                None
            }
        }
        Err(_) => None,
    }
}

fn operator_in(part: &str) -> Option<Operator> {
    match part {
        "+" => Some(Operator::Add),
        "-" => Some(Operator::Subtract),
        "*" => Some(Operator::Multiply),
        "div" => Some(Operator::Divide),
        "mod" => Some(Operator::Modulo),
        _ => None,
    }
}

/// The answer of an operator between two numbers.
fn write_arithmetic(
    alloc: Global,
    out: &mut String,
    left: &str,
    how: &str,
    right: &str,
) -> Result<(), AllocError> {
    let Some(how) = operator_in(how) else {
        return out.push_str("no operator");
    };
    let Some(left) = number_in(left) else {
        return out.push_str("no number");
    };
    let Some(right) = number_in(right) else {
        return out.push_str("no number");
    };
    write_number(alloc, out, arithmetic(how, left, right))
}

/// The answer of a function on one number.
fn write_whole(
    alloc: Global,
    out: &mut String,
    function: &str,
    part: &str,
) -> Result<(), AllocError> {
    let Some(number) = number_in(part) else {
        return out.push_str("no number");
    };
    let answer = match function {
        "floor" => floor(number),
        "ceiling" => ceiling(number),
        "round" => round(number),
        _ => negative(number),
    };
    write_text(out, text_of_number(alloc, answer))
}

/// The answer of `substring`.
fn write_substring(
    alloc: Global,
    out: &mut String,
    text: &Text,
    from: &str,
    count: Option<&str>,
) -> Result<(), AllocError> {
    let Some(from) = number_in(from) else {
        return out.push_str("no number");
    };
    let Some(count) = count else {
        return write_text(out, substring(alloc, text, from, None));
    };
    let Some(count) = number_in(count) else {
        return out.push_str("no number");
    };
    write_text(out, substring(alloc, text, from, Some(count)))
}

/// The answer of a function on two texts.
fn write_pair(
    alloc: Global,
    out: &mut String,
    function: &str,
    one: &Text,
    other: &Text,
) -> Result<(), AllocError> {
    match function {
        "concat" => write_text(out, concat(alloc, one, other)),
        "starts-with" => write_truth(out, starts_with(one, other)),
        "contains" => write_truth(out, contains(one, other)),
        "substring-before" => write_text(out, substring_before(alloc, one, other)),
        "substring-after" => write_text(out, substring_after(alloc, one, other)),
        _ => out.push_str("no such function"),
    }
}

/// The answer of a function on texts.
fn write_function(alloc: Global, out: &mut String, parts: &[&str]) -> Result<(), AllocError> {
    match parts {
        ["string-length", one] => {
            write_number(alloc, out, string_length(&make_text(alloc, one)?))
        }
        ["normalize-space", one] => {
            write_text(out, normalize_space(alloc, &make_text(alloc, one)?))
        }
        ["substring", text, from] => {
            write_substring(alloc, out, &make_text(alloc, text)?, from, None)
        }
        ["substring", text, from, count] => {
            write_substring(alloc, out, &make_text(alloc, text)?, from, Some(count))
        }
        ["translate", text, from, to] => write_text(
            out,
            translate(
                alloc,
                &make_text(alloc, text)?,
                &make_text(alloc, from)?,
                &make_text(alloc, to)?,
            ),
        ),
        [function, one, other] => write_pair(
            alloc,
            out,
            function,
            &make_text(alloc, one)?,
            &make_text(alloc, other)?,
        ),
        _ => out.push_str("no such function"),
    }
}

/// The answer of a table of values.
pub fn answer(alloc: Global, out: &mut String, table: &str, input: &str) -> Result<(), AllocError> {
    let parts = input.split("|").collect::<Vec<&str>>(alloc)?;
    match (table, parts.as_slice()) {
        ("numbers", _) => write_number(alloc, out, number_of_text(input)),
        ("arithmetic", [left, how, right]) => write_arithmetic(alloc, out, left, how, right),
        ("whole", [function, part]) => write_whole(alloc, out, function, part),
        ("texts", parts) => write_function(alloc, out, parts),
        _ => out.push_str("no such table"),
    }
}
