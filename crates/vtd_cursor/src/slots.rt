//! The elements of a list that are open at a place of a pass along the records.

ghost use Rattle.std.specs.Prelude.{◌≡◌, ◌+◌, ◌-◌, ◌<◌, ◌≤◌, slice_set};
ghost use Rattle.vtd_cursor.specs.Passes.{free_slot, slot_at, AreSlots};

/// A listed element that is open, by its level.
#[derive(Clone, Copy)]
struct Slot {
    /// The place of the element in the list, counted from 1; 0 where no listed element of the level is open.
    number: usize,
    /// The first level that is above that of the next listed element outside it; 0 where there is none.
    outer: u32,
}

/// No open element.
const FREE: Slot = Slot {
    number: 0,
    outer: 0,
};

/// The listed elements that are open, by their levels. The innermost is taken off first.
#[derive(Drop)]
pub struct OpenElements {
    slots: [Slot; 256],
    /// The first level above that of the innermost; 0 where none is open.
    bound: u32,
}

impl OpenElements {
    /// None is open.
    pub fn new() -> OpenElements
        ensures slots { AreSlots result.slots 0 }
        ensures bound { result.bound ≡ 0 }
    {
        OpenElements {
            slots: [FREE; 256],
            bound: 0,
        }
    }

    /// The first level above that of the innermost; 0 where none is open.
    pub fn bound(&self) -> u32
        ensures { result ≡ self.now.bound }
    {
        self.bound
    }

    /// Opens the element with a number, whose level is above those that are open.
    pub fn push(&mut self, number: usize, level: u32)
        requires { level ≤ 255 }
        ensures slots { self.new.slots ≡
            slice_set self.old.slots level (record { number = number; outer = self.old.bound }) }
        ensures bound { self.new.bound ≡ level + 1 }
    {
        self.slots[level as usize] = Slot {
            number,
            outer: self.bound,
        };
        self.bound = level + 1;
    }

    /// Takes the innermost off, and says its number.
    pub fn pop(&mut self) -> usize
        requires some { 0 < self.old.bound }
        requires small { self.old.bound ≤ 256 }
        ensures number { result ≡ (slot_at (self.old.bound - 1) self.old.slots).number }
        ensures slots { self.new.slots ≡ slice_set self.old.slots (self.old.bound - 1) free_slot }
        ensures bound { self.new.bound ≡ (slot_at (self.old.bound - 1) self.old.slots).outer }
    {
        let level = (self.bound - 1) as usize;
        let slot = self.slots[level];
        self.slots[level] = FREE;
        self.bound = slot.outer;
        slot.number
    }
}
