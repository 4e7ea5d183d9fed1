//! Words in place of others, and words whose numbers are moved. Nothing here takes memory.

ghost use Rattle.std.specs.Prelude.{◌≡◌, ℕ, ◌+◌, ◌-◌, ◌*◌, ◌/◌, ◌%◌, ◌^◌, ◌<◌, ◌≤◌, List, ◌++◌, map, take, drop, length};
ghost use Rattle.std.specs.Prelude.{vec_len, vec_capacity, All, replicate};
ghost use Rattle.vtd_words.specs.Exchanged.{moved_by, CanMove, CanShift, renumbered, CanRenumber};
ghost use Rattle.vtd_words.specs.Exchanged.{renumbered_pair, CanRenumberPair};

/// Two to the power 32: the index in an entry is a multiple of it.
const HALF: u64 = 1 << 32;

/// Appends zeros, for which there is room.
fn grow(items: &mut Vec<u64>, count: usize)
    requires { vec_len items.old + count ≤ vec_capacity items.old }
    ensures items { items.new.items ≡ items.old.items ++ replicate count 0 }
    ensures capacity { vec_capacity items.old ≤ vec_capacity items.new }
{
    for _ in 0..count {
        if items.push(0).is_err() {
            unreachable!()
        }
    }
}

/// Puts other words for those from `start` to `end`; there is room for the growth.
pub fn put(items: &mut Vec<u64>, start: usize, end: usize, new: &[u64])
    requires start { start ≤ end }
    requires end { end ≤ vec_len items.old }
    requires room { vec_len items.old - (end - start) + length new.now ≤ vec_capacity items.old }
    ensures items { items.new.items ≡ take start items.old.items ++ (new.now ++ drop end items.old.items) }
    ensures capacity { vec_capacity items.old ≤ vec_capacity items.new }
{
    let len = items.len();
    if new.len() > end - start {
        grow(items, new.len() - (end - start));
    }
    items.copy_within(end..len, start + new.len());
    items.truncate(len - (end - start) + new.len());
    items[start..start + new.len()].copy_from_slice(new);
}

/// A number, moved.
fn moved_number(number: u64, by: i64) -> u64
    requires { CanMove by (2 ^ 64) number }
    ensures { result ≡ moved_by by number }
{
    if by >= 0 {
        number + by.unsigned_abs()
    } else {
        number - by.unsigned_abs()
    }
}

/// A record with its offset moved.
fn shifted(word: u64, by: i64) -> u64
    requires { CanShift by word }
    ensures { result ≡ moved_by by word }
{
    moved_number(word, by)
}

/// Moves the offset of each record.
pub fn shift_offsets(words: &mut [u64], by: i64)
    requires { All (CanShift by) words.old }
    ensures { words.new ≡ map (moved_by by) words.old }
{
    for word in words.iter_mut() {
        *word = shifted(*word, by);
    }
}

/// An index, moved where it is at least `from`.
fn renumbered(index: u32, from: u32, by: i64) -> u32
    requires { CanRenumber from by index }
    ensures { result ≡ renumbered from by index }
{
    if from <= index {
        moved_number(u64::from(index), by) as u32
    } else {
        index
    }
}

/// An entry with its index moved so.
fn renumbered_pair(entry: u64, from: u32, by: i64) -> u64
    requires { CanRenumberPair from by entry }
    ensures { result ≡ renumbered_pair from by entry }
{
    let index = renumbered((entry / HALF) as u32, from, by);
    u64::from(index) * HALF + entry % HALF
}

/// Moves the indexes in entries of the first four levels.
pub fn renumber_pairs(entries: &mut [u64], from: u32, by: i64)
    requires { All (CanRenumberPair from by) entries.old }
    ensures { entries.new ≡ map (renumbered_pair from by) entries.old }
{
    for entry in entries.iter_mut() {
        *entry = renumbered_pair(*entry, from, by);
    }
}

/// Moves the indexes in entries of the fifth level.
pub fn renumber_indexes(entries: &mut [u32], from: u32, by: i64)
    requires { All (CanRenumber from by) entries.old }
    ensures { entries.new ≡ map (renumbered from by) entries.old }
{
    for entry in entries.iter_mut() {
        *entry = renumbered(*entry, from, by);
    }
}
