//! How fast other crates are. The first word names what is timed: `items FILE`, `texts FILE`, `words FILE`,
//! `bindings COUNT`, or `all FILE COUNT`. The times go to standard error, and what was counted to standard output.
#![tactic(auto)]

mod bindings;
mod items;
mod texts;
mod words;

use std::{env, fs, io};

fn main(rt: HostRuntime) -> io::Result<()> {
    let words = env::args(&rt)?.collect::<Vec<String>>(rt.alloc())?;
    let mut texts = Vec::new(rt.alloc());
    for word in &words {
        texts.push(word.as_str())?;
    }
    match texts.as_slice() {
        [_, "items", file] => items::time(&rt, &fs::read(&rt, *file)?),
        [_, "texts", file] => texts::time(&rt, fs::read(&rt, *file)?),
        [_, "words", file] => words::time(&rt, fs::read(&rt, *file)?),
        [_, "bindings", count] => bindings::time(&rt, count),
        [_, "all", file, count] => {
            items::time(&rt, &fs::read(&rt, *file)?)?;
            texts::time(&rt, fs::read(&rt, *file)?)?;
            words::time(&rt, fs::read(&rt, *file)?)?;
            bindings::time(&rt, count)
        }
        _ => eprintln!(rt;
            "usage: speed items FILE | texts FILE | words FILE | bindings COUNT | all FILE COUNT"
        ),
    }
}
