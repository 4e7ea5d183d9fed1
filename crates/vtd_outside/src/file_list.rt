//! The files that are held in memory, in a list.

ghost use Rattle.std.specs.Prelude.{◌≡◌, ◌++◌, ◌∷◌, ◌+◌, ◌<◌, ◌≤◌, Bool, true, [], Some, None, length, map};
ghost use Rattle.std.specs.Prelude.{max, nat_le, position, IfSome, IfNone, OnOk, OnErr};
ghost use Rattle.vtd_outside.specs.Objects.{lookup, rooms, bytes_if};
ghost use Rattle.vtd_outside.specs.Held.{shown, has_name, name_at, held_at, body_at, there_at, with_body, IsSlot};
ghost use Rattle.vtd_outside.specs.Held.{IsAbsent};

use crate::body::Body;
use std::alloc::Global;
use std::marker::Model;
use xml_model::NoMemory;

/// A file, which is there or only prepared.
#[derive(Drop)]
struct File {
    name: String,
    body: Body,
    is_there: bool,
}

/// Files, each name once. Contracts see them as a list.
#[derive(Drop)]
pub struct FileList {
    alloc: Global,
    held: Vec<File>,
}

impl Model for FileList {
    ghost use Rattle.std.specs.Prelude.{List, map};
    ghost use Rattle.vtd_outside.specs.Objects.{NamedFile};
    ghost use Rattle.vtd_outside.specs.Held.{shown};

    ghost Value = { List NamedFile };

    ghost view = { λ s. map shown s.held.items };
}

/// The index of the first file of that name.
fn index_of(files: &[File], name: &str) -> Option<usize>
    ensures { result ≡ position (has_name name.now) files.now }
{
    files.iter().position(|file| file.name.as_str() == name)
}

impl FileList {
    /// No file is held.
    pub fn new(alloc: Global) -> FileList
        ensures { result ≡ [] }
    {
        FileList {
            alloc,
            held: Vec::new(alloc),
        }
    }

    /// A body without bytes and room.
    pub fn no_body(&self) -> Body
        ensures { result ≡ record { bytes = []; room = 0 } }
    {
        Body::empty(self.alloc)
    }

    /// Where in the list the first file of that name is.
    pub fn slot(&self, name: &str) -> Option<usize>
        ensures some { IfSome result (λ index. IsSlot self.now name.now index) }
        ensures none { IfNone result (IsAbsent self.now name.now) }
    {
        index_of(self.held.as_slice(), name)
    }

    /// Where in the list the file of that name is, if it is there.
    pub fn there(&self, name: &str) -> Option<usize>
        ensures found { IfSome result (λ index. lookup self.now name.now ≡ Some (held_at self.now index)) }
        ensures named { IfSome result (λ index. name_at self.now index ≡ name.now) }
        ensures within { IfSome result (λ index. index < length self.now) }
        ensures none { IfNone result (lookup self.now name.now ≡ None) }
    {
        let Some(index) = self.slot(name) else {
            return None;
        };
        if self.is_there(index) {
            return Some(index);
        }
        None
    }

    /// Whether the file of that index is there.
    fn is_there(&self, index: usize) -> bool
        requires { index < length self.now }
        ensures { result ≡ there_at self.now index }
    {
        self.held[index].is_there
    }

    /// The bytes of the file of that index.
    pub fn bytes_at(&self, index: usize) -> &[u8]
        requires { index < length self.now }
        ensures { result.now ≡ held_at self.now index }
    {
        self.held[index].body.as_slice()
    }

    /// Whether so many more bytes are within the room of the file of that index.
    pub fn has_room(&self, index: usize, count: usize) -> bool
        requires { index < length self.now }
        ensures { result ≡ nat_le (length (body_at self.now index).bytes + count) (body_at self.now index).room }
    {
        self.held[index].body.has_room(count)
    }

    /// Adds a file.
    ///
    /// # Errors
    /// `NoMemory`; all stays then.
    pub fn push(&mut self, name: &str, body: Body, is_there: bool) -> Result<(), NoMemory>
        ensures ok { OnOk result
            (self.new ≡ self.old ++ record { name = name.now; body = body; there = is_there } ∷ []) }
        ensures err { OnErr result (self.new ≡ self.old) }
    {
        let Ok(name) = String::from_str(self.alloc, name) else {
            return Err(NoMemory);
        };
        if self
            .held
            .push(File {
                name,
                body,
                is_there,
            })
            .is_err()
        {
            return Err(NoMemory);
        }
        Ok(())
    }

    /// Puts another body into the file of that index, which is then there.
    pub fn replace(&mut self, index: usize, body: Body)
        requires { index < length self.old }
        ensures { self.new ≡ with_body self.old index body true }
    {
        let file = &mut self.held[index];
        file.body = body;
        file.is_there = true;
    }

    /// Makes room in the file of that index.
    ///
    /// # Errors
    /// `NoMemory`; all stays then.
    pub fn prepare(&mut self, index: usize, room: usize) -> Result<(), NoMemory>
        requires { index < length self.old }
        ensures ok { OnOk result (self.new ≡ with_body self.old index (record (body_at self.old index) {
          room = max (body_at self.old index).room room;
        }) (there_at self.old index)) }
        ensures err { OnErr result (self.new ≡ self.old) }
    {
        self.held[index].body.prepare(room)
    }

    /// Empties the file of that index, which is then there.
    pub fn clear(&mut self, index: usize)
        requires { index < length self.old }
        ensures { self.new ≡ with_body self.old index (record (body_at self.old index) { bytes = [] }) true }
    {
        let file = &mut self.held[index];
        file.body.clear();
        file.is_there = true;
    }

    /// Adds bytes to the file of that index, which is then there.
    pub fn add(&mut self, index: usize, bytes: &[u8])
        requires within { index < length self.old }
        requires room { length (body_at self.old index).bytes + length bytes.now ≤ (body_at self.old index).room }
        ensures { self.new ≡ with_body self.old index
            (record (body_at self.old index) { bytes = (body_at self.old index).bytes ++ bytes.now }) true }
    {
        let file = &mut self.held[index];
        file.body.add(bytes);
        file.is_there = true;
    }
}
