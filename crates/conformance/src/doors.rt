//! Which crate answers a table.

ghost use Rattle.std.specs.Prelude.{◌<◌, ◌^◌, length};

use crate::documents::built;
use crate::{characters, documents, items, moves, names, nodes, texts};
use std::alloc::{AllocError, Global};
use tables::Answers;
use views::{Lent, nav_over};
use vtd_location::Nav;
use vtd_words::Words;

/// What the rows of a table have in common: its name in two parts, and what they are asked of.
#[derive(Clone, Copy)]
struct Asked<'a> {
    group: &'a str,
    name: &'a str,
    given: &'a [u8],
}

/// The answer to a text that is asked of a document.
fn answer_nav<W: Words>(
    alloc: Global,
    out: &mut String,
    asked: Asked<'_>,
    nav: &Nav<'_, W>,
    input: &str,
) -> Result<(), AllocError> {
    let name = asked.name;
    match asked.group {
        "nodes" => nodes::answer(out, name, nav, asked.given, input),
        "texts" => texts::answer(alloc, out, name, nav.table(), input),
        "names" => names::answer(out, name, nav.table(), input),
        "moves" => moves::answer(alloc, out, nav, input),
        _ => out.push_str("no such table"),
    }
}

/// The answer to a text that is asked of a document, and what is answered over a view of the same words, where that
/// is something else.
fn answer_document(
    alloc: Global,
    out: &mut String,
    asked: Asked<'_>,
    input: &str,
) -> Result<(), AllocError>
    requires { length asked.given.now < 2 ^ 30 }
{
    let Ok(doc) = built(alloc, asked.given)? else {
        return out.push_str("refused");
    };
    let nav = doc.nav();
    answer_nav(alloc, out, asked, &nav, input)?;
    let lent = Lent::of(alloc, doc.words())?;
    let Some(view) = lent.view() else {
        return out.push_str(", no view");
    };
    let Some(other) = nav_over(&nav, &view) else {
        return out.push_str(", other words");
    };
    let mut again = String::new(alloc);
    answer_nav(alloc, &mut again, asked, &other, input)?;
    if again.as_str() == out.as_str() {
        return Ok(());
    }
    out.push_str(", over a view ")?;
    out.push_str(again.as_str())
}

/// The answer to a text that is asked of another.
fn answer_text(
    alloc: Global,
    out: &mut String,
    table: &str,
    given: &[u8],
    input: &str,
) -> Result<(), AllocError>
    requires given { length given.now < 2 ^ 30 }
    requires input { length input.now < 2 ^ 30 }
{
    let Some((group, name)) = table.split_once(" ") else {
        return out.push_str("no such table");
    };
    match group {
        "characters" => characters::answer(out, name, input),
        "items" => items::answer(out, name, input),
        _ => answer_document(alloc, out, Asked { group, name, given }, input),
    }
}

/// What the rows are asked of.
pub struct Doors;

impl Answers for Doors {
    fn answer(
        &self,
        alloc: Global,
        table: &str,
        given: &[u8],
        input: &[u8],
    ) -> Result<String, AllocError> {
        let mut out = String::new(alloc);
        if given.len() >= 1 << 30 || input.len() >= 1 << 30 {
            out.push_str("too long")?;
        } else if let Some(name) = table.strip_prefix("documents ") {
            documents::answer(alloc, &mut out, name, given, input)?;
        } else if let Ok(text) = str::from_utf8(input) {
            answer_text(alloc, &mut out, table, given, text)?;
        } else {
            out.push_str("no text")?;
        }
        Ok(out)
    }
}
