//! The words of the records of a text.

ghost use Rattle.std.specs.Prelude.{◌≡◌, ◌+◌, ◌<◌, ◌≤◌, ◌^◌, ◌∷◌, [], ◌++◌, map, IfOk, OnOk};
ghost use Rattle.xml_model.specs.Records.{cut, depth_at, word};
ghost use Rattle.vtd_patch.specs.Changes.{text_run};

use std::alloc::Global;
use vtd_words::{Parts, pack};
use xml_model::{NoMemory, TokenKind};

/// The most bytes of one record of a text.
const CUT_LIMIT: u32 = 1_048_575;

/// The depth in the record of a text, with so many elements open around it: 255 outside of all elements.
fn depth_of(level: u32) -> u8
    requires { level ≤ 256 }
    ensures { result ≡ depth_at level }
{
    match level {
        0 => 255,
        _ => (level - 1) as u8,
    }
}

/// Appends the word of a record of a text.
fn push_cut(words: &mut Vec<u64>, depth: u8, len: u32, at: u32) -> Result<(), NoMemory>
    requires at { at < 2 ^ 30 }
    requires len { len ≤ 1048575 }
    ensures { OnOk result (words.new.items ≡ words.old.items ++ word (cut 5 depth len at) ∷ []) }
{
    let parts = Parts {
        token: TokenKind::Text as u8,
        depth,
        prefix: 0,
        length: len,
        offset: at,
    };
    let Some(word) = pack(parts) else {
        unreachable!()
    };
    words.push(word).map_err(|_| NoMemory)
}

/// The words of the records of a text of so many bytes from a place on, which so many elements hold: one for each
/// 1,048,575 bytes, and one for the rest; none for an empty text.
pub(crate) fn text_words(
    alloc: Global,
    level: u32,
    start: u32,
    len: u32,
) -> Result<Vec<u64>, NoMemory>
    requires level { level ≤ 255 }
    requires within { start + len < 2 ^ 30 }
    ensures { IfOk result (λ words. words.items ≡ map word (text_run level start len)) }
{
    let mut words = Vec::new(alloc);
    if len == 0 {
        return Ok(words);
    }
    let depth = depth_of(level);
    let mut at = start;
    let mut left = len;
    'cuts: while left > CUT_LIMIT {
        push_cut(&mut words, depth, CUT_LIMIT, at)?;
        at += CUT_LIMIT;
        left -= CUT_LIMIT;
    }
    push_cut(&mut words, depth, left, at)?;
    Ok(words)
}
