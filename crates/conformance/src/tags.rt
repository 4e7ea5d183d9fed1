//! Documents of one tag with many names, by their numbers.

use std::alloc::{AllocError, Global};

/// The number of the name at a place of a tag: the place itself, or what one of the pairs `place=number` has for it.
fn number_at(pairs: &str, place: u32) -> u32 {
    for pair in pairs.split(" ") {
        if let Some((of, number)) = pair.split_once("=") {
            if of.parse::<u32>().unwrap_or(u32::MAX) == place {
                return number.parse::<u32>().unwrap_or(0);
            }
        }
    }
    place
}

/// Adds a name of as many letters as its number and one.
fn push_long(out: &mut String, number: u32) -> Result<(), AllocError> {
    for _ in 0..number {
        out.push_str("a")?;
    }
    out.push_str("a")
}

/// Adds the name with a number, below 100,000: of five digits, which go up with the numbers, go down, or are mixed; or of
/// letters, the more the greater the number is. With prefixes it is `q` where the name is not at its own place.
fn push_name(out: &mut String, order: &str, place: u32, number: u32) -> Result<(), AllocError> {
    let number = number % 100_000;
    match order {
        "up" => write!(out, "n{number:05}"),
        "bound" | "apart" if place == number => write!(out, "p:n{number:05}"),
        "bound" | "apart" => write!(out, "q:n{number:05}"),
        "down" => write!(out, "n{:05}", 99_999 - number),
        "mixed" => write!(out, "n{:05}", number * 7_919 % 100_000),
        _ => push_long(out, number),
    }
}

/// What the tag begins with: two declarations of one URI, or of two, where the names have prefixes.
fn opening(order: &str) -> &'static str {
    match order {
        "bound" => "<a xmlns:p='u' xmlns:q='u'",
        "apart" => "<a xmlns:p='u' xmlns:q='v'",
        _ => "<a",
    }
}

/// The document that a text asks for: the order of the names, how many they are, and pairs of a place and the number of
/// the name that stands there in place of its own.
pub fn tag_of(alloc: Global, text: &str) -> Result<String, AllocError> {
    let mut out = String::new(alloc);
    let (order, rest) = text.split_once(" ").unwrap_or((text, ""));
    let (count, pairs) = rest.split_once(" ").unwrap_or((rest, ""));
    out.push_str(opening(order))?;
    for place in 0..count.parse::<u32>().unwrap_or(0) {
        out.push_str(" ")?;
        push_name(&mut out, order, place, number_at(pairs, place))?;
        out.push_str("=''")?;
    }
    out.push_str("/>")?;
    Ok(out)
}
