//! The staged splices of a document.

ghost use Rattle.std.specs.Prelude.{◌≡◌, ℕ, ◌+◌, ◌-◌, ◌^◌, ◌<◌, ◌≤◌, List, [], ◌∷◌, ◌++◌, length, take, drop, IfOk};
ghost use Rattle.std.specs.Prelude.{IfErr, OnErr, OnOk};
ghost use Rattle.std.specs.List.{All};
ghost use Rattle.vtd_edits.specs.Splices.{splice_at, spliced, AreEdits, IsWithin, Refuses};
ghost use Rattle.vtd_edits.specs.Order.{in_order};
ghost use Rattle.vtd_edits.specs.Plans.{IsPlan};

use crate::splice::{Splice, Splices, StageFault};
use crate::staging::{
    INDEXES, Plan, are_apart, first_overlap, keep_below, order_with, taken_by, text_by, text_with,
};
use std::alloc::Global;
use std::marker::Model;
use xml_model::NoMemory;

/// The staged splices of a document, of which no two overlap.
///
/// Contracts see the length of the document and the splices in staging order. A splice takes 48 bytes beside its text,
/// and room for as many more at most.
#[derive(Drop)]
pub struct Edits {
    alloc: Global,
    len: u32,
    /// In staging order.
    staged: Vec<Splice>,
    /// The keys of `staged` in the order of the bytes.
    order: Vec<u64>,
    /// How many bytes all texts have.
    text: u32,
    /// How many bytes of the document are replaced.
    taken: u32,
}

impl Model for Edits {
    ghost use Rattle.vtd_edits.specs.Splices.{Staged};
    ghost use Rattle.vtd_edits.specs.Order.{IsHeld};

    ghost Value = { Staged };

    ghost view = { λ e. record { len = e.len; splices = e.staged.items } };

    ghost invariant = { λ e. IsHeld e.len e.staged.items e.order.items e.text e.taken };
}

impl Edits {
    /// Nothing is staged, for a document of `length` bytes, at most 1,073,741,823.
    pub fn new(alloc: Global, length: u32) -> Edits
        requires { length < 2 ^ 30 }
        ensures { result ≡ record { len = length; splices = [] } }
    {
        Edits {
            alloc,
            len: length,
            staged: Vec::new(alloc),
            order: Vec::new(alloc),
            text: 0,
            taken: 0,
        }
    }

    /// Stages the splices of a list after those that are staged, all of them or none. Their places are within the
    /// document, and no range ends before it starts. It is linear in what is staged and in the list, where the list is
    /// in the order of the document or in the reverse of it, and else takes a sort.
    ///
    /// # Errors
    /// `Overlap` exactly where a splice of the list overlaps one that is staged or before it in the list; then
    /// `TextLong` exactly where all staged texts would have more than 268,435,456 bytes. `NoMemory` may come in place
    /// of any other answer, and does for more than 4,294,967,295 splices. The list comes back, and nothing of it is
    /// staged.
    pub fn stage(&mut self, list: Splices) -> Result<(), (Splices, StageFault)>
        requires { All (IsWithin self.old.len) list }
        ensures staged { OnOk result (self.new ≡ record self.old { splices = self.old.splices ++ list }) }
        ensures refused { IfErr result (λ e. Refuses (self.old.splices ++ list) e.1) }
        ensures given_back { IfErr result (λ e. e.0 ≡ list) }
        ensures unchanged { OnErr result (self.new ≡ self.old) }
        ensures edits { AreEdits self.new }
    {
        let _ = &self.alloc;
        match self.plan(list.held.as_slice()) {
            Ok(plan) => self.carry_out(list, plan),
            Err(fault) => Err((list, fault)),
        }
    }

    /// What is held after a list is staged, or why it is not staged.
    fn plan(&self, list: &[Splice]) -> Result<Plan, StageFault>
        requires { All (IsWithin self.now.len) list.now }
        ensures plan { IfOk result (IsPlan self.now.len (self.now.splices ++ list.now)) }
        ensures refused { IfErr result (Refuses (self.now.splices ++ list.now)) }
    {
        let staged = self.staged.as_slice();
        let Some(order) = order_with(self.alloc, self.order.as_slice(), staged, list) else {
            return Err(StageFault::NoMemory);
        };
        let keys = order.as_slice();
        if !are_apart(keys, staged, list, staged.len() + list.len()) {
            return Err(first_overlap(keys, staged, list));
        }
        let Some(text) = text_with(self.text, list) else {
            return Err(StageFault::TextLong);
        };
        let taken = self.taken + taken_by(list);
        Ok(Plan { order, text, taken })
    }

    /// Stages a list by its plan.
    fn carry_out(&mut self, mut list: Splices, plan: Plan) -> Result<(), (Splices, StageFault)>
        requires { IsPlan self.old.len (self.old.splices ++ list) plan }
        ensures staged { OnOk result (self.new ≡ record self.old { splices = self.old.splices ++ list }) }
        ensures refused { IfErr result (λ e. e.1 ≡ StageFault.NoMemory) }
        ensures given_back { IfErr result (λ e. e.0 ≡ list) }
        ensures unchanged { OnErr result (self.new ≡ self.old) }
        ensures edits { AreEdits self.new }
    {
        if self.staged.append(&mut list.held).is_err() {
            return Err((list, StageFault::NoMemory));
        }
        let Plan { order, text, taken } = plan;
        self.order = order;
        self.text = text;
        self.taken = taken;
        Ok(())
    }

    /// Takes the last `count` splices in staging order off, and hands them out in that order. At least so many are
    /// staged. It is linear in what is staged.
    ///
    /// # Errors
    /// `NoMemory`; all stays then.
    pub fn cut_off(&mut self, count: u64) -> Result<Splices, NoMemory>
        requires { count ≤ length self.old.splices }
        ensures taken { IfOk result (λ taken. taken ≡ drop (length self.old.splices - count) self.old.splices) }
        ensures left { OnOk result
            (self.new ≡ record self.old { splices = take (length self.old.splices - count) self.old.splices }) }
        ensures unchanged { OnErr result (self.new ≡ self.old) }
    {
        let left = self.staged.len() - count as usize;
        let Ok(held) = self.staged.split_off(left) else {
            return Err(NoMemory);
        };
        keep_below(&mut self.order, left as u64);
        self.text -= text_by(held.as_slice());
        self.taken -= taken_by(held.as_slice());
        Ok(Splices { held })
    }

    /// How many splices are staged.
    pub fn count(&self) -> u64
        ensures value { result ≡ length self.now.splices }
        ensures edits { AreEdits self.now }
    {
        self.staged.len() as u64
    }

    /// How many bytes the new bytes have. It takes constant time.
    pub fn length(&self) -> u32
        ensures { (bytes : List ℕ) → length bytes ≡ self.now.len → result ≡ length (spliced bytes self.now.splices) }
    {
        self.len + self.text - self.taken
    }

    /// How many splices there are in the order of the bytes, which are as many as are staged.
    pub fn turns(&self) -> usize
        ensures value { result ≡ length self.now.splices }
        ensures few { length self.now.splices < 2 ^ 32 }
        ensures edits { AreEdits self.now }
    {
        self.order.len()
    }

    /// The splice with an index in the order of the bytes: by where it starts, an insertion before an empty range
    /// before another range, and then in staging order.
    pub fn splice(&self, i: usize) -> &Splice
        requires { i < length self.now.splices }
        ensures { result.now ≡ splice_at (in_order self.now.splices) i }
    {
        &self.staged[(self.order[i] % INDEXES) as usize]
    }

    /// Drops all that is staged.
    pub fn clear(&mut self)
        ensures { self.new ≡ record self.old { splices = [] } }
    {
        self.staged.clear();
        self.order.clear();
        self.text = 0;
        self.taken = 0;
    }
}
