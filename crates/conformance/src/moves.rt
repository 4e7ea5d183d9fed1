//! Moves over the nodes of a document.

use std::alloc::{AllocError, Global};
use vtd_cursor::Cursor;
use vtd_location::Nav;
use vtd_words::Words;

/// Whether the node of a move is there, and the cursor then on it; for `push` whether its place was kept.
fn go<W: Words>(cursor: &mut Cursor<'_, '_, W>, to: &str) -> bool {
    match to {
        "parent" => cursor.to_parent(),
        "first" => cursor.to_first_child(),
        "last" => cursor.to_last_child(),
        "next" => cursor.to_next(),
        "previous" => cursor.to_previous(),
        "attribute" => cursor.to_first_attribute(),
        "other" => cursor.to_next_attribute(),
        "push" => cursor.push().is_ok(),
        "pop" => cursor.pop(),
        _ => {
            cursor.to_root();
            true
        }
    }
}

/// The record after each move, with a `!` where there was no such node.
pub fn answer<W: Words>(
    alloc: Global,
    out: &mut String,
    nav: &Nav<'_, W>,
    moves: &str,
) -> Result<(), AllocError> {
    let mut cursor = Cursor::new(alloc, nav);
    for to in moves.split_whitespace() {
        let mark = if go(&mut cursor, to) { "" } else { "!" };
        write!(out, "{}{mark};", cursor.node().at)?;
    }
    Ok(())
}
