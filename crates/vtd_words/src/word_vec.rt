//! The words of a document: the trait through which they are read, and the lists that hold them.

ghost use Rattle.std.specs.Prelude.{◌≡◌, ℕ, ◌+◌, ◌-◌, ◌^◌, ◌<◌, ◌≤◌, List, [], ◌∷◌, ◌++◌, length, slice_index};
ghost use Rattle.std.specs.Prelude.{vec_len, vec_capacity, OnOk, OnErr, All, map, take, drop};
ghost use Rattle.vtd_words.specs.Exchanged.{moved_by, CanShift, CanRenumberLists, exchanged, exchanged_room};
ghost use Rattle.vtd_words.specs.Exchanged.{CanRenumber, CanRenumberPair, renumbered, renumbered_pair, renumbered_lists};
ghost use Rattle.vtd_words.specs.Lists.{Lists, list_of, with_word, HasRoom, KeepsRoom, no_room, room_of, less_one};
ghost use Rattle.vtd_words.specs.Lists.{TakesWord, none};

use crate::moving::{put, renumber_indexes, renumber_pairs, shift_offsets};
use std::alloc::Global;
use std::marker::Model;
use xml_model::{Counts, NoMemory};

/// The lists of a document's words: its records, and the elements of depth 1 to 5.
#[derive(Clone, Copy, Debug, PartialEq, Eq)]
pub enum Part {
    Records,
    Level1,
    Level2,
    Level3,
    Level4,
    Level5,
}

/// Words that can be read.
pub trait Words {
    ghost lists: { Self → Lists };

    /// The number of words of a part.
    fn len(&self, part: Part) -> u32
        ensures { result ≡ length (list_of part (lists self.now)) };

    /// The word of a part at an index, which is below the part's length. A word of the fifth level is below 2 to the
    /// power 32.
    fn word(&self, part: Part, at: u32) -> u64
        requires { at < length (list_of part (lists self.now)) }
        ensures value { result ≡ slice_index (list_of part (lists self.now)) at }
        ensures small { TakesWord part result };
}

/// A list that keeps room for further words.
#[derive(Drop)]
struct Lane<T> {
    items: Vec<T>,
    room: usize,
    ghost has_room: { vec_len items + room ≤ vec_capacity items },
    ghost few: { vec_len items < 2 ^ 32 },
}

impl<T: Drop> Lane<T> {
    fn new(alloc: Global) -> Lane<T>
        ensures items { result.items.items ≡ [] }
        ensures room { result.room ≡ 0 }
    {
        Lane {
            items: Vec::new(alloc),
            room: 0,
        }
    }

    /// Takes the memory for further words, without counting it as room yet.
    fn grow(&mut self, count: u32) -> Result<(), NoMemory>
        ensures items { self.new.items.items ≡ self.old.items.items }
        ensures room { self.new.room ≡ self.old.room }
        ensures ok { OnOk result (vec_len self.new.items + count ≤ vec_capacity self.new.items) }
        ensures full { OnErr result (self.old.room < count) }
    {
        if self.items.reserve(count as usize).is_err() {
            return Err(NoMemory);
        }
        Ok(())
    }

    /// Counts memory that was taken as room.
    fn settle(&mut self, count: u32)
        requires { vec_len self.old.items + count ≤ vec_capacity self.old.items }
        ensures items { self.new.items.items ≡ self.old.items.items }
        ensures kept { self.old.room ≤ self.new.room }
        ensures counted { count ≤ self.new.room }
    {
        self.room = self.room.max(count as usize);
    }

    fn push(&mut self, word: T)
        requires room { 0 < self.old.room }
        requires few { vec_len self.old.items < 2 ^ 32 - 1 }
        ensures items { self.new.items.items ≡ self.old.items.items ++ word ∷ [] }
        ensures room { self.new.room ≡ self.old.room - 1 }
    {
        if self.items.push(word).is_err() {
            unreachable!()
        }
        self.room -= 1;
    }
}

impl Lane<u64> {
    /// Puts other words for those from `start` to `end`, and moves the offsets of those after them.
    fn exchange(&mut self, start: u32, end: u32, new: &[u64], shift: i64)
        requires start { start ≤ end }
        requires end { end ≤ vec_len self.old.items }
        requires room { length new.now ≤ end - start + self.old.room }
        requires few { vec_len self.old.items - (end - start) + length new.now < 2 ^ 32 }
        requires offsets { All (CanShift shift) (drop end self.old.items.items) }
        ensures items { self.new.items.items ≡ take start self.old.items.items ++ (new.now ++ map (moved_by shift)
            (drop end self.old.items.items)) }
        ensures room { self.new.room ≡ self.old.room + (end - start) - length new.now }
    {
        shift_offsets(&mut self.items[end as usize..], shift);
        put(&mut self.items, start as usize, end as usize, new);
        self.room = self.room + (end - start) as usize - new.len();
    }

    /// Changes the index in each entry of a level that is at least `from`.
    fn renumber_pairs(&mut self, from: u32, by: i64)
        requires { All (CanRenumberPair from by) self.old.items.items }
        ensures items { self.new.items.items ≡ map (renumbered_pair from by) self.old.items.items }
        ensures room { self.new.room ≡ self.old.room }
    {
        renumber_pairs(&mut self.items, from, by);
    }
}

impl Lane<u32> {
    /// Changes each index of the fifth level that is at least `from`.
    fn renumber_indexes(&mut self, from: u32, by: i64)
        requires { All (CanRenumber from by) self.old.items.items }
        ensures items { self.new.items.items ≡ map (renumbered from by) self.old.items.items }
        ensures room { self.new.room ≡ self.old.room }
    {
        renumber_indexes(&mut self.items, from, by);
    }
}

/// The words of a document in memory. Contracts see its lists and the spare room of each.
#[derive(Drop)]
pub struct WordVec {
    records: Lane<u64>,
    level1: Lane<u64>,
    level2: Lane<u64>,
    level3: Lane<u64>,
    level4: Lane<u64>,
    level5: Lane<u32>,
}

impl Model for WordVec {
    ghost use Rattle.vtd_words.specs.Lists.{Growing};

    ghost Value = { Growing };

    ghost view = { λ w. record {
      lists = record {
        records = w.records.items.items;
        level1 = w.level1.items.items;
        level2 = w.level2.items.items;
        level3 = w.level3.items.items;
        level4 = w.level4.items.items;
        level5 = w.level5.items.items;
      };
      room = record {
        records = w.records.room;
        level1 = w.level1.room;
        level2 = w.level2.room;
        level3 = w.level3.room;
        level4 = w.level4.room;
        level5 = w.level5.room;
      };
    } };
}

impl WordVec {
    /// No words, and no room for any.
    pub fn new(alloc: Global) -> WordVec
        ensures lists { result.lists ≡ none }
        ensures room { result.room ≡ no_room }
    {
        WordVec {
            records: Lane::new(alloc),
            level1: Lane::new(alloc),
            level2: Lane::new(alloc),
            level3: Lane::new(alloc),
            level4: Lane::new(alloc),
            level5: Lane::new(alloc),
        }
    }

    /// Makes room for so many further words of each part. After `NoMemory` the lists and their room are as before; it
    /// comes only where some part had less room.
    pub fn reserve(&mut self, counts: Counts) -> Result<(), NoMemory>
        ensures lists { self.new.lists ≡ self.old.lists }
        ensures room { OnOk result (HasRoom counts self.new.room) }
        ensures kept { KeepsRoom self.old.room self.new.room }
        ensures err { OnErr result (self.new ≡ self.old) }
        ensures full { OnErr result (HasRoom counts self.old.room → ⊥) }
    {
        self.records.grow(counts.records)?;
        self.level1.grow(counts.level1)?;
        self.level2.grow(counts.level2)?;
        self.level3.grow(counts.level3)?;
        self.level4.grow(counts.level4)?;
        self.level5.grow(counts.level5)?;
        self.records.settle(counts.records);
        self.level1.settle(counts.level1);
        self.level2.settle(counts.level2);
        self.level3.settle(counts.level3);
        self.level4.settle(counts.level4);
        self.level5.settle(counts.level5);
        Ok(())
    }

    /// Appends a word to a part and takes one from its room. It cannot fail: the part has room, and fewer than
    /// `u32::MAX` words; a word of the fifth level is below 2 to the power 32.
    pub fn push(&mut self, part: Part, word: u64)
        requires room { 0 < room_of part self.old.room }
        requires few { length (list_of part self.old.lists) < 2 ^ 32 - 1 }
        requires small { TakesWord part word }
        ensures lists { self.new.lists ≡ with_word part word self.old.lists }
        ensures room { self.new.room ≡ less_one part self.old.room }
    {
        match part {
            Part::Records => self.records.push(word),
            Part::Level1 => self.level1.push(word),
            Part::Level2 => self.level2.push(word),
            Part::Level3 => self.level3.push(word),
            Part::Level4 => self.level4.push(word),
            Part::Level5 => self.level5.push(word as u32),
        }
    }

    /// Puts other records for those from `start` to `end`, and changes the offset of each record after them by `shift`.
    /// It takes no memory: there is room for the growth, and what is not needed any more is room again. Its time is
    /// that of the records from `start` on.
    pub fn exchange_records(&mut self, start: u32, end: u32, new: &[u64], shift: i64)
        requires start { start ≤ end }
        requires end { end ≤ length self.old.lists.records }
        requires room { length new.now ≤ end - start + self.old.room.records }
        requires few { length self.old.lists.records - (end - start) + length new.now < 2 ^ 32 }
        requires offsets { All (CanShift shift) (drop end self.old.lists.records) }
        ensures lists { self.new.lists ≡ exchanged start end new.now shift self.old.lists }
        ensures room { self.new.room ≡ exchanged_room start end (length new.now) self.old.room }
    {
        self.records.exchange(start, end, new, shift);
    }

    /// Changes each index of a record, in all levels, that is at least `from`, by `by`. It takes no memory.
    pub fn renumber(&mut self, from: u32, by: i64)
        requires { CanRenumberLists from by self.old.lists }
        ensures lists { self.new.lists ≡ renumbered_lists from by self.old.lists }
        ensures room { self.new.room ≡ self.old.room }
    {
        self.level1.renumber_pairs(from, by);
        self.level2.renumber_pairs(from, by);
        self.level3.renumber_pairs(from, by);
        self.level4.renumber_pairs(from, by);
        self.level5.renumber_indexes(from, by);
    }
}

impl Words for WordVec {
    ghost lists = { λ w. w.lists };

    fn len(&self, part: Part) -> u32 {
        match part {
            Part::Records => self.records.items.len() as u32,
            Part::Level1 => self.level1.items.len() as u32,
            Part::Level2 => self.level2.items.len() as u32,
            Part::Level3 => self.level3.items.len() as u32,
            Part::Level4 => self.level4.items.len() as u32,
            Part::Level5 => self.level5.items.len() as u32,
        }
    }

    fn word(&self, part: Part, at: u32) -> u64 {
        let at = at as usize;
        match part {
            Part::Records => self.records.items[at],
            Part::Level1 => self.level1.items[at],
            Part::Level2 => self.level2.items[at],
            Part::Level3 => self.level3.items[at],
            Part::Level4 => self.level4.items[at],
            Part::Level5 => self.level5.items[at] as u64,
        }
    }
}
