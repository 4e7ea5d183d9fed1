//! The lines of a file of tables.
//!
//! `table: characters names` names what the rows after it ask, `given: <a/>` is what they are asked of, and a row is an
//! input, ` => ` and the answer. Every other line says what the rows are for.

use crate::Answers;
use crate::fields::bytes_of;
use std::io;

/// What the rows of a table have in common.
#[derive(Drop)]
struct Table<'a> {
    name: &'a str,
    given: Vec<u8>,
}

/// Asks one row, and prints it where it answers otherwise.
fn ask<R: Print + AllocGlobal, A: Answers>(
    rt: &R,
    answers: &A,
    table: &Table<'_>,
    input: &str,
    expected: &str,
) -> io::Result<()> {
    let asked = bytes_of(rt.alloc(), input)?;
    let wanted = bytes_of(rt.alloc(), expected)?;
    let got = answers.answer(rt.alloc(), table.name, &table.given, &asked)?;
    if got.as_bytes() != wanted.as_slice() {
        let name = table.name;
        println!(rt; "{name}: {input} answers {got}, not {expected}")?;
    }
    Ok(())
}

/// Asks all rows of a file, prints those that are answered otherwise, and answers how many rows there are. No clause
/// says what is printed.
pub fn walk<R: Print + AllocGlobal, A: Answers>(
    rt: &R,
    answers: &A,
    file: &str,
) -> io::Result<u64> {
    let mut table = Table {
        name: "",
        given: Vec::new(rt.alloc()),
    };
    let mut rows = 0u64;
    for line in file.lines() {
        if let Some(name) = line.strip_prefix("table: ") {
            table.name = name;
        } else if let Some(field) = line.strip_prefix("given: ") {
            table.given = bytes_of(rt.alloc(), field)?;
        } else if let Some((input, expected)) = line.split_once(" => ") {
            ask(rt, answers, &table, input, expected)?;
            rows = rows.wrapping_add(1);
        }
    }
    Ok(rows)
}
