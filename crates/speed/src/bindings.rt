//! Binding prefixes and looking them up: so many calls of `Bindings::set` with a prefix of its own each, and as many of
//! `uri_of`.

use std::alloc::{AllocError, Global};
use std::io;
use std::rt::Clock;
use std::time::Instant;
use xpath_grammar::Bindings;

/// So many prefixes, no two of them the same.
fn prefixes(alloc: Global, count: u32) -> Result<Vec<String>, AllocError> {
    let mut all = Vec::new(alloc);
    for number in 0..count {
        all.push(format!(in alloc; "p{number}")?)?;
    }
    Ok(all)
}

/// Binds each prefix to itself, and answers how many were bound.
fn bind_all(bindings: &mut Bindings, prefixes: &[String]) -> u64 {
    let mut bound = 0u64;
    for prefix in prefixes {
        if bindings.set(prefix.as_str(), prefix.as_str()).is_ok() {
            bound = bound.wrapping_add(1);
        }
    }
    bound
}

/// How many prefixes are bound to themselves.
fn count_bound(bindings: &Bindings, prefixes: &[String]) -> u64 {
    let mut found = 0u64;
    for prefix in prefixes {
        if bindings.uri_of(prefix.as_str()) == Some(prefix.as_str()) {
            found = found.wrapping_add(1);
        }
    }
    found
}

/// Times so many bindings, written as a number.
pub fn time<R: Clock + Print + Eprint + AllocGlobal>(rt: &R, count: &str) -> io::Result<()> {
    let prefixes = prefixes(rt.alloc(), count.parse::<u32>().unwrap_or(0))?;
    let mut bindings = Bindings::new(rt.alloc());
    let start = Instant::now(rt)?;
    let bound = bind_all(&mut bindings, &prefixes);
    let set = start.elapsed(rt)?;
    let start = Instant::now(rt)?;
    let found = count_bound(&bindings, &prefixes);
    let looked_up = start.elapsed(rt)?;
    println!(rt; "bindings: bound {bound}, found {found}")?;
    eprintln!(rt; "bindings: set {set:?}, uri_of {looked_up:?}")
}
