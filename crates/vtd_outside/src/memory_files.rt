//! Files that are held in memory.

ghost use Rattle.std.specs.Prelude.{◌≡◌, ℕ, List, ◌+◌, ◌-◌, ◌<◌, ◌≤◌, ◌↔◌, ◌||◌, Bool, true, false, []};
ghost use Rattle.std.specs.Prelude.{Some, None, min, max, length, is_none, is_some};
ghost use Rattle.std.specs.Prelude.{IfOk, IsErr, IsTrue, OnOk, OnErr, option_copied, if◌then◌else◌};
ghost use Rattle.vtd_outside.specs.Causes.{HasFileCause, is_missing};
ghost use Rattle.vtd_outside.specs.Known.{Begins, ReadsFile, OpenFile, BeginsWrite, Appends, Holds, SeenFiles};
ghost use Rattle.vtd_outside.specs.Known.{count_taken};
ghost use Rattle.vtd_outside.specs.Objects.{is_listed, after_call, raised, rest_length, lookup, put_into, rooms};
ghost use Rattle.vtd_outside.specs.Objects.{make_room, room_or_none, passes_room};
ghost use Rattle.vtd_outside.specs.Seen.{memory_seen};
ghost use Rattle.std.proofs.Common.{rules};

use crate::body::Body;
use crate::calls::FaultPlan;
use crate::file_list::FileList;
use crate::{Failed, Files};
use std::alloc::Global;
use std::marker::Model;
use xml_model::NoMemory;

/// Where the next read begins: in which file of the list, and where in that file.
#[derive(Clone, Copy)]
struct Place {
    file: usize,
    at: usize,
}

/// What is being done with the files.
#[derive(Clone, Copy)]
enum Activity {
    Idle,
    Reading(Place),
    /// The file of this index is being written.
    Writing(usize),
}

/// Files in memory, for tests: one call moves bytes in pieces, and fails at the calls that they were given and where
/// there is no room.
#[derive(Drop)]
pub struct MemoryFiles {
    files: FileList,
    activity: Activity,
    plan: FaultPlan,
    missed: u64,
    proper: u64,
}

impl Model for MemoryFiles {
    ghost use Rattle.std.specs.Prelude.{◌<◌};
    ghost use Rattle.vtd_outside.specs.Objects.{FilesState};
    ghost use Rattle.vtd_outside.specs.Held.{opened_in, written_in, IsActive};

    ghost Value = { FilesState };

    ghost view = { λ s. record {
      files = s.files;
      opened = opened_in s.files s.activity;
      writing = written_in s.files s.activity;
      calls = record { failing = s.plan.failing.items; piece = s.plan.piece; next = s.plan.next };
      missed = s.missed;
      proper = s.proper;
    } };

    ghost invariant = { λ s. IsActive s.files s.activity × (0 < s.plan.piece) };
}

impl MemoryFiles {
    /// No file is there, and none is being read or written; one call moves at most `piece` bytes, at least 1. The calls
    /// are numbered from 0, and those whose numbers are in `failing` fail. The counts of faults start at 0.
    pub fn new(alloc: Global, failing: Vec<u32>, piece: usize) -> MemoryFiles
        requires { 0 < piece }
        ensures { result ≡ record {
          files = [];
          opened = None;
          writing = None;
          calls = record { failing = failing.items; piece = piece; next = 0 };
          missed = 0;
          proper = 0;
        } }
    {
        MemoryFiles {
            files: FileList::new(alloc),
            activity: Activity::Idle,
            plan: FaultPlan::new(failing, piece),
            missed: 0,
            proper: 0,
        }
    }

    /// Makes `bytes` the file of that name, without room for more. All other files stay, and the room that was made for
    /// them.
    ///
    /// # Errors
    /// `NoMemory` only where the name was not there. The files are then as before.
    pub fn put(&mut self, name: &str, bytes: Vec<u8>) -> Result<(), NoMemory>
        requires not_read { self.old.opened ≡ None }
        requires not_written { self.old.writing ≡ None }
        ensures put { OnOk result (lookup self.new.files ≡ put_into (lookup self.old.files) name.now bytes.items) }
        ensures room { OnOk result (rooms self.new.files ≡ make_room (rooms self.old.files) name.now 0) }
        ensures rest_stays { self.new ≡ record self.old { files = self.new.files } }
        ensures err { OnErr result (self.new ≡ self.old) }
        ensures absent { OnErr result (lookup self.old.files name.now ≡ None) }
    {
        self.activity = Activity::Idle;
        if let Some(index) = self.files.slot(name) {
            self.files.replace(index, Body::of(bytes));
            return Ok(());
        }
        self.files.push(name, Body::of(bytes), true)
    }

    /// Makes room for a file of that name with `room` bytes; more room than that is kept. The files stay, and the room
    /// that was made for other names.
    ///
    /// # Errors
    /// `NoMemory`; all is then as before.
    pub fn prepare(&mut self, name: &str, room: u64) -> Result<(), NoMemory>
        ensures files_stay { lookup self.new.files ≡ lookup self.old.files }
        ensures room { OnOk result (rooms self.new.files ≡ make_room (rooms self.old.files) name.now
            (max (room_or_none (rooms self.old.files name.now)) room)) }
        ensures rest_stays { self.new ≡ record self.old { files = self.new.files } }
        ensures err { OnErr result (self.new ≡ self.old) }
    {
        if let Some(index) = self.files.slot(name) {
            return self.files.prepare(index, room as usize);
        }
        let mut body = self.files.no_body();
        body.prepare(room as usize)?;
        self.files.push(name, body, false)
    }

    /// The bytes of the file of that name, or None where the name is not there.
    pub fn bytes_of(&self, name: &str) -> Option<&[u8]>
        ensures { option_copied result ≡ lookup self.now.files name.now }
    {
        let index = self.files.there(name)?;
        Some(self.files.bytes_at(index))
    }
}

impl Files for MemoryFiles {
    ghost seen = { λ s. memory_seen s };

    ghost reading_known = { λ s known. Prim.search rules };

    ghost writing_known = { λ s known. Prim.search rules };

    ghost missed_known = { λ s unknown. Prim.cc };

    fn begin_read(&mut self, name: &str) -> Result<(), Failed>
        ensures begins { Begins (Some (lookup self.old.files)) name.now self.new.opened result }
        ensures ok { OnOk result (is_some self.new.opened ≡ true) }
        ensures err { OnErr result (is_some self.new.opened ≡ false) }
        ensures files_stay { self.new.files ≡ self.old.files }
        ensures none_written { self.new.writing ≡ None }
        ensures cause { HasFileCause
            (is_missing (Some (lookup self.old.files)) name.now) self.old.missed self.new.missed self.old.proper
            self.new.proper result }
        ensures fails { IsErr result ↔ IsTrue (is_listed self.old.calls || is_none (lookup self.old.files name.now)) }
        ensures missed { self.new.missed
            ≡ (if is_none (lookup self.old.files name.now) then raised self.old.missed else self.old.missed) }
        ensures proper { OnErr result (self.new.proper
            ≡ (if is_none (lookup self.old.files name.now) then self.old.proper else raised self.old.proper)) }
        ensures calls { self.new.calls ≡ after_call self.old.calls }
    {
        self.activity = Activity::Idle;
        let listed = self.plan.fails();
        let Some(file) = self.files.there(name) else {
            self.missed = self.missed.saturating_add(1);
            return Err(Failed);
        };
        if listed {
            self.proper = self.proper.saturating_add(1);
            return Err(Failed);
        }
        self.activity = Activity::Reading(Place { file, at: 0 });
        Ok(())
    }

    fn read(&mut self, into: &mut [u8]) -> Result<usize, Failed>
        requires { is_some self.old.opened ≡ true }
        ensures bound { IfOk result (λ n. n ≤ length into.old) }
        ensures bytes { ReadsFile self.old.opened self.new.opened into.old into.new result }
        ensures ok { OnOk result (is_some self.new.opened ≡ true) }
        ensures err { OnErr result (is_some self.new.opened ≡ false) }
        ensures files_stay { self.new.files ≡ self.old.files }
        ensures writing_stays { self.new.writing ≡ self.old.writing }
        ensures cause { HasFileCause false self.old.missed self.new.missed self.old.proper self.new.proper result }
        ensures fails { IsErr result ↔ IsTrue (is_listed self.old.calls) }
        ensures counts { OnErr result (self.new.proper ≡ raised self.old.proper) }
        ensures moves { IfOk result (λ n. n
            ≡ min (min (rest_length self.old.opened) (length into.old)) self.old.calls.piece) }
        ensures calls { self.new.calls ≡ after_call self.old.calls }
    {
        let Activity::Reading(place) = self.activity else {
            unreachable!()
        };
        if self.plan.fails() {
            self.activity = Activity::Idle;
            self.proper = self.proper.saturating_add(1);
            return Err(Failed);
        }
        let bytes = self.files.bytes_at(place.file);
        let count = (bytes.len() - place.at)
            .min(into.len())
            .min(self.plan.piece);
        let end = place.at + count;
        into[..count].copy_from_slice(&bytes[place.at..end]);
        self.activity = Activity::Reading(Place {
            file: place.file,
            at: end,
        });
        Ok(count)
    }

    fn begin_write(&mut self, name: &str) -> Result<(), Failed>
        ensures begins { BeginsWrite (Some (lookup self.old.files)) (Some (lookup self.new.files)) name.now
            self.new.writing result }
        ensures ok { OnOk result (is_some self.new.writing ≡ true) }
        ensures err { OnErr result (is_some self.new.writing ≡ false) }
        ensures none_read { self.new.opened ≡ None }
        ensures cause { HasFileCause false self.old.missed self.new.missed self.old.proper self.new.proper result }
        ensures fails { IsErr result ↔ IsTrue (is_listed self.old.calls || is_none (rooms self.old.files name.now)) }
        ensures counts { OnErr result (self.new.proper ≡ raised self.old.proper) }
        ensures room_stays { rooms self.new.files ≡ rooms self.old.files }
        ensures calls { self.new.calls ≡ after_call self.old.calls }
    {
        self.activity = Activity::Idle;
        if self.plan.fails() {
            self.proper = self.proper.saturating_add(1);
            return Err(Failed);
        }
        let Some(file) = self.files.slot(name) else {
            self.proper = self.proper.saturating_add(1);
            return Err(Failed);
        };
        self.files.clear(file);
        self.activity = Activity::Writing(file);
        Ok(())
    }

    fn append(&mut self, bytes: &[u8]) -> Result<usize, Failed>
        requires { is_some self.old.writing ≡ true }
        ensures bound { IfOk result (λ n. n ≤ length bytes.now) }
        ensures moves { 0 < length bytes.now → IfOk result (λ n. 0 < n) }
        ensures bytes { Appends (memory_seen self.old) (Some (lookup self.new.files)) bytes.now (count_taken result) }
        ensures same_file { OnOk result (self.new.writing ≡ self.old.writing) }
        ensures ok { OnOk result (is_some self.new.writing ≡ true) }
        ensures err { OnErr result (is_some self.new.writing ≡ false) }
        ensures none_read { self.new.opened ≡ None }
        ensures cause { HasFileCause false self.old.missed self.new.missed self.old.proper self.new.proper result }
        ensures fails { IsErr result ↔ IsTrue (is_listed self.old.calls
            || passes_room self.old.files self.old.writing (min (length bytes.now) self.old.calls.piece)) }
        ensures counts { OnErr result (self.new.proper ≡ raised self.old.proper) }
        ensures count { IfOk result (λ n. n ≡ min (length bytes.now) self.old.calls.piece) }
        ensures room_stays { rooms self.new.files ≡ rooms self.old.files }
        ensures calls { self.new.calls ≡ after_call self.old.calls }
    {
        let Activity::Writing(file) = self.activity else {
            unreachable!()
        };
        let count = bytes.len().min(self.plan.piece);
        let listed = self.plan.fails();
        let fits = self.files.has_room(file, count);
        if listed || !fits {
            self.activity = Activity::Idle;
            self.proper = self.proper.saturating_add(1);
            return Err(Failed);
        }
        self.files.add(file, &bytes[..count]);
        self.activity = Activity::Writing(file);
        Ok(count)
    }

    fn finish(&mut self) -> Result<(), Failed>
        requires { is_some self.old.writing ≡ true }
        ensures none_written { self.new.writing ≡ None }
        ensures files_stay { self.new.files ≡ self.old.files }
        ensures none_read { self.new.opened ≡ None }
        ensures cause { HasFileCause false self.old.missed self.new.missed self.old.proper self.new.proper result }
        ensures fails { IsErr result ↔ IsTrue (is_listed self.old.calls) }
        ensures counts { OnErr result (self.new.proper ≡ raised self.old.proper) }
        ensures calls { self.new.calls ≡ after_call self.old.calls }
    {
        self.activity = Activity::Idle;
        if self.plan.fails() {
            self.proper = self.proper.saturating_add(1);
            return Err(Failed);
        }
        Ok(())
    }
}
