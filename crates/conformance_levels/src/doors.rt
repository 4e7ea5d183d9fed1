//! Which module answers a table.

ghost use Rattle.std.specs.Prelude.{◌<◌, ◌^◌, length};

use crate::levels;
use std::alloc::{AllocError, Global};
use tables::Answers;
use views::{Lent, nav_over};
use vtd_builder::build;

/// The answer to a text that is asked of a document, and what is answered over a view of the same words, where that
/// is something else.
fn answer_document(
    alloc: Global,
    out: &mut String,
    table: &str,
    given: &[u8],
    input: &str,
) -> Result<(), AllocError>
    requires { length given.now < 2 ^ 30 }
{
    let Ok(doc) = build(alloc, given.to_vec(alloc)?) else {
        return out.push_str("refused");
    };
    let nav = doc.nav();
    levels::answer(alloc, out, table, &nav, input)?;
    let lent = Lent::of(alloc, doc.words())?;
    let Some(view) = lent.view() else {
        return out.push_str(", no view");
    };
    let Some(other) = nav_over(&nav, &view) else {
        return out.push_str(", other words");
    };
    let mut again = String::new(alloc);
    levels::answer(alloc, &mut again, table, &other, input)?;
    if again.as_str() == out.as_str() {
        return Ok(());
    }
    out.push_str(", over a view ")?;
    out.push_str(again.as_str())
}

/// What the rows are asked of.
pub struct Doors;

impl Answers for Doors {
    fn answer(
        &self,
        alloc: Global,
        table: &str,
        given: &[u8],
        input: &[u8],
    ) -> Result<String, AllocError> {
        let mut out = String::new(alloc);
        if given.len() >= 1 << 30 {
            out.push_str("too long")?;
            return Ok(out);
        }
        let Ok(text) = str::from_utf8(input) else {
            out.push_str("no text")?;
            return Ok(out);
        };
        answer_document(alloc, &mut out, table, given, text)?;
        Ok(out)
    }
}
