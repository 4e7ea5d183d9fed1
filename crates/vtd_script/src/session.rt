//! A session: a document, the prefixes that are bound for it, and what is staged.

ghost use Rattle.std.specs.Prelude.{◌⊎◌, ◌≡◌, ℕ, ◌<◌, ◌≤◌, ◌^◌, List, [], length, encode_utf8_all, vec_len, Bool, true};
ghost use Rattle.std.specs.Prelude.{false, IfOk, IfErr};
ghost use Rattle.std.specs.Prelude.{OnErr, OnOk, Some};
ghost use Rattle.xml_model.specs.Accepted.{Accepted, IsRefusal};
ghost use Rattle.xml_model.specs.Nest.{Forest};
ghost use Rattle.xml_model.specs.declared.DocFault.{DocFault};
ghost use Rattle.vtd_outside.specs.Causes.{Rose};
ghost use Rattle.vtd_outside.specs.Known.{NameMap};
ghost use Rattle.vtd_script.specs.States.{first_work, new_bytes, opened_work, state_of, work_of};
ghost use Rattle.vtd_script.specs.Steps.{asks_file, asks_for, has_file, with_applied, with_document, Stages, Takes};
ghost use Rattle.vtd_script.specs.Steps.{TakesIndex};
ghost use Rattle.vtd_held.specs.Holding.{opened_bytes};
ghost use Rattle.vtd_words.specs.Numbers.{AreBytes};
ghost use Rattle.vtd_documents.specs.Loads.{IsFileOf};
ghost use Rattle.vtd_index.specs.Opening.{IsLoadFault};
ghost use Rattle.vtd_script.specs.Runs.{StepsKnown};
ghost use Rattle.vtd_script.specs.Changes.{Asks, ChangesKnown, CompletesKnown, MakesDocument, OpensDocument, Prepares};
ghost use Rattle.vtd_script.specs.Changes.{ReadsFile};
ghost use Rattle.vtd_script.specs.Changes.{PreparesStaging};
ghost use Rattle.vtd_script.specs.Changes.{RefusesKnown};
ghost use Rattle.vtd_script.specs.Changes.{FileCounts, SendCounts, StaysUnlessDone, StaysUnlessReady, fails_at_file};
ghost use Rattle.vtd_script.specs.Changes.{stops_at_file, touches_file, writes};
ghost use Rattle.vtd_lines.specs.declared.commands.Command.TheVariants.{Apply, Discard, Elements, Index, Load, Ns, Redo};
ghost use Rattle.vtd_lines.specs.declared.commands.Command.TheVariants.{Open, Save, Select, Undo};

use crate::asking::{operation_stop, selected_lines, stage_stop, staged_lines, valued_lines};
use crate::endings::{Ending, StepFault};
use crate::listing::{ok_lines, redone_lines, undone_lines};
use crate::preparing::{
    DOCUMENT_LIMIT, INDEX_LIMIT, indexed_lines, name_of, read_document, read_index, saved_lines,
    utf8_of,
};
use crate::ready::{Built, Change, Made, Ready, Stop};
use crate::refusals::{Refusal, refusal_line};
use std::alloc::Global;
use std::marker::Model;
use vtd_builder::BuildFault;
use vtd_documents::{Document, load};
use vtd_edits::spliced;
use vtd_held::Held;
use vtd_history::{RedoFault, UndoFault};
use vtd_index::{LoadFault, Opened};
use vtd_lines::{Command, LineFault, read_line};
use vtd_modifier::Operation;
use vtd_outside::{Failed, Files, GatherFault, Sink, gather_file, send};
use vtd_writing::write;
use xml_model::texts::as_str;
use xml_model::{Bytes, NoMemory, Text};
use xpath_grammar::{BindFault, Bindings};

/// A document with the prefixes that are bound for it and the splices that are staged. Contracts see its bytes, the
/// list of the prefixes that were set, each once with its URI, and the splices in staging order.
#[derive(Drop)]
pub struct Session {
    alloc: Global,
    held: Held,
    bindings: Bindings,
}

impl Model for Session {
    ghost use Rattle.vtd_script.specs.States.{Work, work_of};

    ghost Value = { Work };

    ghost view = { λ s. work_of s.bindings s.held };
}

/// A command whose first part is over.
fn ready(change: Change, lines: Vec<u8>) -> Ready
    ensures change { result.change ≡ change }
    ensures lines { result.lines ≡ lines.items }
{
    Ready {
        change,
        lines: Bytes { held: lines },
    }
}

/// What a line asks for.
fn read_command(alloc: Global, line: &[u8]) -> Result<Option<Command>, Stop>
    ensures { Asks result (asks_for line.now) }
{
    match read_line(alloc, line) {
        Ok(None) => Ok(None),
        Ok(Some(command)) => Ok(Some(command)),
        Err(LineFault::Long) => Err(Stop::Refused(Refusal::LineLong)),
        Err(LineFault::Utf8) => Err(Stop::Refused(Refusal::LineUtf8)),
        Err(LineFault::Command) => Err(Stop::Refused(Refusal::Command)),
        Err(LineFault::Escape) => Err(Stop::Refused(Refusal::Escape)),
        Err(LineFault::NoMemory) => Err(Stop::NoMemory),
    }
}

impl Session {
    /// A session over a document.
    fn over(alloc: Global, held: Held) -> Session
        ensures { result ≡ work_of [] held }
    {
        Session {
            alloc,
            held,
            bindings: Bindings::new(alloc),
        }
    }

    /// The document, lent.
    fn document(&self) -> Document<'_>
        ensures { result ≡ self.now.bytes }
    {
        Document::of(self.held.shown())
    }

    /// How many splices are staged.
    fn staged_count(&self) -> u64
        ensures { result ≡ length self.now.staged }
    {
        self.held.edits().count()
    }

    /// How many bytes the new bytes have.
    fn new_length(&self) -> u32
        ensures { result ≡ length (new_bytes self.now) }
    {
        self.held.edits().length()
    }

    /// The new bytes: those that the staged splices make of the document.
    fn new_bytes(&self) -> Result<Vec<u8>, NoMemory>
        ensures { IfOk result (λ bytes. bytes.items ≡ new_bytes self.now) }
    {
        spliced(self.alloc, self.document().bytes(), self.held.edits())
    }

    /// A session over a document, with the prefix `xml` alone bound and nothing staged.
    ///
    /// # Errors
    /// `Doc` only with the refusal of the bytes; `NoMemory` may come in place of a refusal of names. The bytes come
    /// back with each fault.
    pub fn start(alloc: Global, bytes: Vec<u8>) -> Result<Session, (Vec<u8>, BuildFault)>
        requires { vec_len bytes < 2 ^ 30 }
        ensures started { IfOk result (λ s. s ≡ first_work bytes.items) }
        ensures accepted { IfOk result (λ s. (nest : Forest) × Accepted 8 bytes.items nest) }
        ensures given_back { IfErr result (λ e. e.0.items ≡ bytes.items) }
        ensures refused { IfErr result (λ e. (fault : DocFault) → e.1 ≡ BuildFault.Doc fault →
            IsRefusal bytes.items fault) }
        ensures no_memory { IfErr result (λ e. e.1 ≡ BuildFault.NoMemory →
            (nest : Forest) × Accepted 6 bytes.items nest) }
    {
        match Held::build(alloc, bytes) {
            Ok(held) => Ok(Session::over(alloc, held)),
            Err(fault) => Err(fault),
        }
    }

    /// A session over the document of an index file, with the prefix `xml` alone bound and nothing staged. The document
    /// and its words stay where they lie in a file of the second version, for which no memory is taken.
    ///
    /// # Errors
    /// Those of `vtd_documents::load`, exactly.
    pub fn start_index(alloc: Global, file: Vec<u8>) -> Result<Session, LoadFault>
        requires { vec_len file < 2 ^ 32 }
        ensures of_bytes { AreBytes file.items }
        ensures index { IfOk result (λ s. IsFileOf file.items s.bytes) }
        ensures started { IfOk result (λ s. s ≡ first_work s.bytes) }
        ensures fault { IfErr result (λ fault. IsLoadFault file.items fault) }
    {
        let document = match load(alloc, file) {
            Ok(document) => document,
            Err((_, fault)) => return Err(fault),
        };
        match Held::of(alloc, document) {
            Ok(held) => Ok(Session::over(alloc, held)),
            Err(_) => Err(LoadFault::NoMemory),
        }
    }

    /// The first part of `elements`: its lines.
    fn list_elements(&self) -> Result<Ready, Stop>
        ensures known { (files : NameMap) →
            Prepares ⊥ Elements (state_of self.now files) (state_of self.now files) result }
        ensures no_file { stops_at_file result ≡ false }
    {
        match self.document().element_lines(self.alloc) {
            Ok(lines) => Ok(ready(Change::Nothing, lines)),
            Err(_) => Err(Stop::NoMemory),
        }
    }

    /// The first part of `ns`: its line, and then the binding.
    fn bind(&mut self, prefix: &Text, uri: &Text) -> Result<Ready, Stop>
        ensures known { (files : NameMap) →
            Prepares ⊥ (Ns prefix.now uri.now) (state_of self.old files) (state_of self.new files) result }
        ensures no_file { stops_at_file result ≡ false }
    {
        let Ok(lines) = ok_lines(self.alloc) else {
            return Err(Stop::NoMemory);
        };
        match self.bindings.set(as_str(prefix), as_str(uri)) {
            Ok(()) => Ok(ready(Change::Nothing, lines)),
            Err(BindFault::Name) => Err(Stop::Refused(Refusal::Name)),
            Err(BindFault::NoMemory) => Err(Stop::NoMemory),
        }
    }

    /// The first part of `select`: its lines.
    fn select(&self, expr: &Text) -> Result<Ready, Stop>
        ensures known { (files : NameMap) →
            Prepares ⊥ (Select expr.now) (state_of self.now files) (state_of self.now files) result }
        ensures no_file { stops_at_file result ≡ false }
    {
        match selected_lines(self.alloc, &self.document(), &self.bindings, utf8_of(expr)) {
            Ok(lines) => Ok(Ready {
                change: Change::Nothing,
                lines,
            }),
            Err(stop) => Err(stop),
        }
    }

    /// The first part of `value`: its line.
    fn value(&self, expr: &Text) -> Result<Ready, Stop>
        ensures known { (files : NameMap) →
            Prepares ⊥ (Command.Value expr.now) (state_of self.now files) (state_of self.now files) result }
        ensures no_file { stops_at_file result ≡ false }
    {
        match valued_lines(self.alloc, &self.document(), &self.bindings, utf8_of(expr)) {
            Ok(lines) => Ok(Ready {
                change: Change::Nothing,
                lines,
            }),
            Err(stop) => Err(stop),
        }
    }

    /// The first part of a command that stages an operation on the nodes of an expression: its line, and then the
    /// splices are staged.
    fn stage(&mut self, expr: &Text, operation: Operation<'_>) -> Result<Ready, Stop>
        ensures known { (files : NameMap) →
            PreparesStaging (λ s a. Stages (encode_utf8_all expr.now) operation.entry s a)
            (state_of self.old files) (state_of self.new files) result }
        ensures no_file { stops_at_file result ≡ false }
    {
        let expr = utf8_of(expr);
        let document = Document::of(self.held.shown());
        let made = match document.operate(self.alloc, &self.bindings, expr, operation) {
            Ok(made) => made,
            Err(fault) => return Err(operation_stop(fault)),
        };
        let Ok(lines) = staged_lines(self.alloc, made.count) else {
            return Err(Stop::NoMemory);
        };
        if let Err((_, fault)) = self.held.stage(made.splices) {
            return Err(stage_stop(fault));
        }
        let _fits = self.held.edits();
        Ok(ready(Change::Nothing, lines))
    }

    /// The first part of `discard`: its line, and then nothing is staged.
    fn discard(&mut self) -> Result<Ready, Stop>
        ensures known { (files : NameMap) →
            Prepares ⊥ Discard (state_of self.old files) (state_of self.new files) result }
        ensures no_file { stops_at_file result ≡ false }
    {
        let Ok(lines) = ok_lines(self.alloc) else {
            return Err(Stop::NoMemory);
        };
        let Ok(()) = self.held.discard() else {
            return Err(Stop::NoMemory);
        };
        Ok(ready(Change::Nothing, lines))
    }

    /// Makes a document that was read the session's, for which nothing is staged, and before which nothing was; what is
    /// bound stays.
    fn take(&mut self, made: Made) -> Result<Ready, Stop>
        ensures work { OnOk result (self.new ≡ opened_work (opened_bytes made.document) self.old) }
        ensures change { IfOk result (λ ready. ready.change ≡ Change.Nothing) }
        ensures lines { IfOk result (λ ready. ready.lines ≡ made.lines) }
        ensures stop { IfErr result (λ stop. stop ≡ Stop.NoMemory) }
        ensures stays { OnErr result (self.new ≡ self.old) }
    {
        let Made { document, lines } = made;
        let Ok(()) = self.held.open(document) else {
            return Err(Stop::NoMemory);
        };
        Ok(Ready {
            change: Change::Nothing,
            lines,
        })
    }

    /// The document of the new bytes.
    fn new_document(&self) -> Result<Built, Stop>
        ensures { MakesDocument (Takes with_applied (new_bytes self.now)) with_applied result }
    {
        if self.new_length() > DOCUMENT_LIMIT {
            return Err(Stop::Refused(Refusal::FileLong));
        }
        match self.new_bytes() {
            Ok(bytes) => read_document(self.alloc, bytes),
            Err(_) => Err(Stop::NoMemory),
        }
    }

    /// The first part of `apply`: the document of the new bytes, and then it is the session's.
    fn apply(&mut self) -> Result<Ready, Stop>
        ensures known { (files : NameMap) →
            Prepares ⊥ Apply (state_of self.old files) (state_of self.new files) result }
        ensures no_file { stops_at_file result ≡ false }
    {
        let Built { document, lines } = match self.new_document() {
            Ok(built) => built,
            Err(stop) => return Err(stop),
        };
        let Ok(()) = self.held.apply(document) else {
            return Err(Stop::NoMemory);
        };
        Ok(Ready {
            change: Change::Nothing,
            lines,
        })
    }

    /// The first part of `undo`: its line, and then document and staging are what they were before the last change.
    fn undo(&mut self) -> Result<Ready, Stop>
        ensures known { (files : NameMap) →
            Prepares ⊥ Undo (state_of self.old files) (state_of self.new files) result }
        ensures no_file { stops_at_file result ≡ false }
    {
        let Ok(lines) = undone_lines(self.alloc) else {
            return Err(Stop::NoMemory);
        };
        match self.held.undo() {
            Ok(()) => Ok(ready(Change::Nothing, lines)),
            Err(UndoFault::NoUndo) => Err(Stop::Refused(Refusal::NoUndo)),
            Err(UndoFault::NoMemory) => Err(Stop::NoMemory),
        }
    }

    /// The first part of `redo`: its line, and then document and staging are what they were before the last `undo`.
    fn redo(&mut self) -> Result<Ready, Stop>
        ensures known { (files : NameMap) →
            Prepares ⊥ Redo (state_of self.old files) (state_of self.new files) result }
        ensures no_file { stops_at_file result ≡ false }
    {
        let Ok(lines) = redone_lines(self.alloc) else {
            return Err(Stop::NoMemory);
        };
        match self.held.redo() {
            Ok(()) => Ok(ready(Change::Nothing, lines)),
            Err(RedoFault::NoRedo) => Err(Stop::Refused(Refusal::NoRedo)),
            Err(RedoFault::NoMemory) => Err(Stop::NoMemory),
        }
    }

    /// The first part of `save`: its line. The file is left to the second part.
    fn save(&self, file: Text) -> Result<Ready, Stop>
        ensures known { (files : NameMap) →
            Prepares ⊥ (Save file) (state_of self.now files) (state_of self.now files) result }
        ensures no_file { stops_at_file result ≡ false }
    {
        match saved_lines(self.alloc, self.new_length()) {
            Ok(lines) => Ok(ready(Change::File { name: file }, lines)),
            Err(_) => Err(Stop::NoMemory),
        }
    }

    /// The first part of `index`: its line. The file is left to the second part.
    fn index(&self, file: Text) -> Result<Ready, Stop>
        ensures known { (files : NameMap) →
            Prepares ⊥ (Index file) (state_of self.now files) (state_of self.now files) result }
        ensures no_file { stops_at_file result ≡ false }
    {
        let length = self.document().index_length();
        if length > u64::from(INDEX_LIMIT) {
            return Err(Stop::Refused(Refusal::IndexLong));
        }
        match indexed_lines(self.alloc, length) {
            Ok(lines) => Ok(ready(Change::Index { name: file }, lines)),
            Err(_) => Err(Stop::NoMemory),
        }
    }

    /// The bytes of a file, where nothing is staged and they are not too many.
    fn file_bytes<F: Files>(&self, file: &Text, limit: u32, files: &mut F) -> Result<Bytes, Stop>
        requires { (F.seen files.old).is_writing ≡ false }
        ensures known { (map : NameMap) → (F.seen files.old).contents ≡ Some map
            → ReadsFile limit (Rose (F.seen files.old).proper (F.seen files.new).proper) (state_of self.now map)
            file.now result }
        ensures within { IfOk result (λ bytes. length bytes ≤ limit) }
        ensures files_stay { (F.seen files.new).contents ≡ (F.seen files.old).contents }
        ensures writing_stays { (F.seen files.new).is_writing ≡ false }
        ensures counts { FileCounts (stops_at_file result)
            (F.seen files.old).missed (F.seen files.new).missed (F.seen files.old).proper (F.seen files.new).proper }
    {
        if self.staged_count() > 0 {
            return Err(Stop::Refused(Refusal::Staged));
        }
        match gather_file(self.alloc, files, name_of(file), limit) {
            Ok(held) => Ok(Bytes { held }),
            Err(GatherFault::Failed) => Err(Stop::File),
            Err(GatherFault::Long) => Err(Stop::Refused(Refusal::FileLong)),
            Err(GatherFault::NoMemory) => Err(Stop::NoMemory),
        }
    }

    /// The document of a file, where nothing is staged.
    fn file_document<F: Files>(&self, file: &Text, files: &mut F) -> Result<Made, Stop>
        requires { (F.seen files.old).is_writing ≡ false }
        ensures known { (map : NameMap) → (F.seen files.old).contents ≡ Some map
            → OpensDocument (Takes with_document) (Rose (F.seen files.old).proper (F.seen files.new).proper)
            (state_of self.now map) file.now result }
        ensures files_stay { (F.seen files.new).contents ≡ (F.seen files.old).contents }
        ensures writing_stays { (F.seen files.new).is_writing ≡ false }
        ensures counts { FileCounts (stops_at_file result)
            (F.seen files.old).missed (F.seen files.new).missed (F.seen files.old).proper (F.seen files.new).proper }
    {
        let bytes = match self.file_bytes(file, DOCUMENT_LIMIT, files) {
            Ok(bytes) => bytes.held,
            Err(stop) => return Err(stop),
        };
        match read_document(self.alloc, bytes) {
            Ok(Built { document, lines }) => Ok(Made {
                document: Opened::Built(document),
                lines,
            }),
            Err(stop) => Err(stop),
        }
    }

    /// The document of an index file, where nothing is staged.
    fn file_index<F: Files>(&self, file: &Text, files: &mut F) -> Result<Made, Stop>
        requires { (F.seen files.old).is_writing ≡ false }
        ensures known { (map : NameMap) → (F.seen files.old).contents ≡ Some map
            → OpensDocument TakesIndex (Rose (F.seen files.old).proper (F.seen files.new).proper)
            (state_of self.now map) file.now result }
        ensures files_stay { (F.seen files.new).contents ≡ (F.seen files.old).contents }
        ensures writing_stays { (F.seen files.new).is_writing ≡ false }
        ensures counts { FileCounts (stops_at_file result)
            (F.seen files.old).missed (F.seen files.new).missed (F.seen files.old).proper (F.seen files.new).proper }
    {
        match self.file_bytes(file, INDEX_LIMIT, files) {
            Ok(bytes) => read_index(self.alloc, bytes.held),
            Err(stop) => Err(stop),
        }
    }

    /// The first part of `load`: the document of the index file, and then it is the session's.
    fn load<F: Files>(&mut self, file: &Text, files: &mut F) -> Result<Ready, Stop>
        requires { (F.seen files.old).is_writing ≡ false }
        ensures known { (map : NameMap) → (F.seen files.old).contents ≡ Some map
            → Prepares (Rose (F.seen files.old).proper (F.seen files.new).proper) (Load file.now)
            (state_of self.old map) (state_of self.new map) result }
        ensures stays { StaysUnlessReady result self.old self.new }
        ensures files_stay { (F.seen files.new).contents ≡ (F.seen files.old).contents }
        ensures writing_stays { (F.seen files.new).is_writing ≡ false }
        ensures counts { FileCounts (stops_at_file result)
            (F.seen files.old).missed (F.seen files.new).missed (F.seen files.old).proper (F.seen files.new).proper }
    {
        match self.file_index(file, files) {
            Ok(made) => self.take(made),
            Err(stop) => Err(stop),
        }
    }

    /// The first part of `open`: the document of the file, and then it is the session's.
    fn open<F: Files>(&mut self, file: &Text, files: &mut F) -> Result<Ready, Stop>
        requires { (F.seen files.old).is_writing ≡ false }
        ensures known { (map : NameMap) → (F.seen files.old).contents ≡ Some map
            → Prepares (Rose (F.seen files.old).proper (F.seen files.new).proper) (Open file.now)
            (state_of self.old map) (state_of self.new map) result }
        ensures stays { StaysUnlessReady result self.old self.new }
        ensures files_stay { (F.seen files.new).contents ≡ (F.seen files.old).contents }
        ensures writing_stays { (F.seen files.new).is_writing ≡ false }
        ensures counts { FileCounts (stops_at_file result)
            (F.seen files.old).missed (F.seen files.new).missed (F.seen files.old).proper (F.seen files.new).proper }
    {
        match self.file_document(file, files) {
            Ok(made) => self.take(made),
            Err(stop) => Err(stop),
        }
    }

    /// The first part of a command. It takes all memory that the command takes, and changes the session by its last
    /// call alone.
    fn prepare<F: Files>(&mut self, command: Command, files: &mut F) -> Result<Ready, Stop>
        requires { (F.seen files.old).is_writing ≡ false }
        ensures known { (map : NameMap) → (F.seen files.old).contents ≡ Some map
            → Prepares (Rose (F.seen files.old).proper (F.seen files.new).proper) command
            (state_of self.old map) (state_of self.new map) result }
        ensures asks { touches_file result ≡ true → has_file command ≡ true }
        ensures stays { StaysUnlessReady result self.old self.new }
        ensures files_stay { (F.seen files.new).contents ≡ (F.seen files.old).contents }
        ensures writing_stays { (F.seen files.new).is_writing ≡ false }
        ensures counts { FileCounts (stops_at_file result)
            (F.seen files.old).missed (F.seen files.new).missed (F.seen files.old).proper (F.seen files.new).proper }
    {
        match command {
            Command::Elements => self.list_elements(),
            Command::Ns { prefix, uri } => self.bind(&prefix, &uri),
            Command::Select { expr } => self.select(&expr),
            Command::Value { expr } => self.value(&expr),
            Command::Remove { expr } => self.stage(&expr, Operation::Remove),
            Command::Replace { expr, text } => self.stage(
                &expr,
                Operation::Replace(utf8_of(&text)),
            ),
            Command::Before { expr, text } => self.stage(&expr, Operation::Before(utf8_of(&text))),
            Command::After { expr, text } => self.stage(&expr, Operation::After(utf8_of(&text))),
            Command::First { expr, text } => self.stage(&expr, Operation::First(utf8_of(&text))),
            Command::Last { expr, text } => self.stage(&expr, Operation::Last(utf8_of(&text))),
            Command::Attr { expr, text } => self.stage(&expr, Operation::Attr(utf8_of(&text))),
            Command::Set { expr, text } => self.stage(&expr, Operation::Set(utf8_of(&text))),
            Command::Rename { expr, name } => {
                self.stage(&expr, Operation::Rename(utf8_of(&name)))
            }
            Command::Discard => self.discard(),
            Command::Apply => self.apply(),
            Command::Undo => self.undo(),
            Command::Redo => self.redo(),
            Command::Save { file } => self.save(file),
            Command::Index { file } => self.index(file),
            Command::Open { file } => self.open(&file, files),
            Command::Load { file } => self.load(&file, files),
        }
    }

    /// Makes the change that a command left. It takes no memory.
    fn make<F: Files>(&self, change: Change, files: &mut F) -> Result<(), Failed>
        requires { (F.seen files.old).is_writing ≡ false }
        ensures known { (map : NameMap) → (F.seen files.old).contents ≡ Some map
            → ChangesKnown (Rose (F.seen files.old).proper (F.seen files.new).proper) change
            (state_of self.now map) result self.now (F.seen files.new).contents }
        ensures writing_stays { (F.seen files.new).is_writing ≡ false }
        ensures kept { OnOk result (((F.seen files.new).missed ≡ (F.seen files.old).missed)
            × ((F.seen files.new).proper ≡ (F.seen files.old).proper)) }
        ensures missed { (F.seen files.new).missed ≡ (F.seen files.old).missed }
        ensures fault { OnErr result (Rose (F.seen files.old).proper (F.seen files.new).proper) }
        ensures file { OnErr result (writes change ≡ true) }
    {
        match change {
            Change::Nothing => Ok(()),
            Change::File { name } => write(
                name_of(&name),
                self.document().bytes(),
                self.held.edits(),
                files,
            ),
            Change::Index { name } => self.document().write_index(name_of(&name), files),
        }
    }

    /// The second part of a command: it makes the change that is left, finishes its file and then sends the lines. It
    /// takes no memory.
    fn complete<F: Files, K: Sink>(
        &self,
        ready: Ready,
        files: &mut F,
        out: &mut K,
    ) -> Result<(), StepFault>
        requires { (F.seen files.old).is_writing ≡ false }
        ensures known { (map : NameMap) (sent : List ℕ) → (F.seen files.old).contents ≡ Some map
            → K.taken out.old ≡ Some sent
            → CompletesKnown (Rose (F.seen files.old).proper (F.seen files.new).proper)
            (Rose (K.faults out.old) (K.faults out.new)) ready (state_of self.now map) result self.now
            (F.seen files.new).contents sent (K.taken out.new) }
        ensures writing_stays { (F.seen files.new).is_writing ≡ false }
        ensures counts { FileCounts (fails_at_file result)
            (F.seen files.old).missed (F.seen files.new).missed (F.seen files.old).proper (F.seen files.new).proper }
        ensures sends { SendCounts result (K.faults out.old) (K.faults out.new) }
        ensures file { fails_at_file result ≡ true → writes ready.change ≡ true }
        ensures no_memory { IfErr result (λ fault. (fault ≡ StepFault.Write) ⊎ (fault ≡ StepFault.File)) }
    {
        let Ready { change, lines } = ready;
        if let Err(_) = self.make(change, files) {
            return Err(StepFault::File);
        }
        match send(out, lines.held.as_slice()) {
            Ok(()) => Ok(()),
            Err(_) => Err(StepFault::Write),
        }
    }

    /// Sends the line of a refusal.
    fn refuse<K: Sink>(&self, refusal: Refusal, out: &mut K) -> Result<Ending, StepFault>
        ensures known { (sent : List ℕ) → K.taken out.old ≡ Some sent
            → RefusesKnown (Rose (K.faults out.old) (K.faults out.new)) refusal result sent (K.taken out.new) }
        ensures sends { SendCounts result (K.faults out.old) (K.faults out.new) }
        ensures no_file { fails_at_file result ≡ false }
    {
        let Ok(line) = refusal_line(self.alloc, refusal) else {
            return Err(StepFault::NoMemory);
        };
        match send(out, &line) {
            Ok(()) => Ok(Ending::Refused(refusal)),
            Err(_) => Err(StepFault::Write),
        }
    }

    /// Carries out one line of a script, without its line end. No file may be being written at the call, and none is
    /// after it.
    ///
    /// Where files and output say their bytes, after an `Ending` all lines of the command were sent, and session and
    /// files are those after it. A line that is skipped or refused leaves the session as it was, whether they say their
    /// bytes or not. What a line means, `Step` of `specs/Steps.antt` says.
    ///
    /// # Errors
    /// `File` where a file that the line names is not there, or could not be read or written; it comes only at a line
    /// that names one, and the session is then as before. `Write` only where the count of faults of `out` rose: a prefix of the lines was sent, and session and
    /// files are those after the line. `NoMemory` may come at any line: nothing was sent, and nothing changed.
    pub fn step<F: Files, K: Sink>(
        &mut self,
        line: &[u8],
        files: &mut F,
        out: &mut K,
    ) -> Result<Ending, StepFault>
        requires { (F.seen files.old).is_writing ≡ false }
        ensures known { (map : NameMap) (sent : List ℕ) → (F.seen files.old).contents ≡ Some map
            → K.taken out.old ≡ Some sent → StepsKnown (Rose (F.seen files.old).proper (F.seen files.new).proper)
            (Rose (K.faults out.old) (K.faults out.new))
            (state_of self.old map) line.now result self.new (F.seen files.new).contents sent (K.taken out.new) }
        ensures session_stays { StaysUnlessDone result self.old self.new }
        ensures asked { fails_at_file result ≡ true → asks_file (asks_for line.now) ≡ true }
        ensures writing_stays { (F.seen files.new).is_writing ≡ false }
        ensures counts { FileCounts (fails_at_file result)
            (F.seen files.old).missed (F.seen files.new).missed (F.seen files.old).proper (F.seen files.new).proper }
        ensures sends { SendCounts result (K.faults out.old) (K.faults out.new) }
    {
        let command = match read_command(self.alloc, line) {
            Ok(None) => return Ok(Ending::Skipped),
            Ok(Some(command)) => command,
            Err(Stop::Refused(refusal)) => return self.refuse(refusal, out),
            Err(_) => return Err(StepFault::NoMemory),
        };
        match self.prepare(command, files) {
            Ok(ready) => match self.complete(ready, files, out) {
                Ok(()) => Ok(Ending::Done),
                Err(fault) => Err(fault),
            },
            Err(Stop::Refused(refusal)) => self.refuse(refusal, out),
            Err(Stop::File) => Err(StepFault::File),
            Err(Stop::NoMemory) => Err(StepFault::NoMemory),
        }
    }
}
