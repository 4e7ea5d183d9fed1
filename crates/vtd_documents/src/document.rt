//! A document of a session.

ghost use Rattle.std.specs.Prelude.{◌≡◌, ◌<◌, ◌^◌, length, vec_len, false, IfErr, IfOk};
ghost use Rattle.std.specs.List.{All};
ghost use Rattle.xml_model.specs.Items.{first_place};
ghost use Rattle.xml_model.specs.Records.{records};
ghost use Rattle.vtd_words.specs.Numbers.{AreBytes};
ghost use Rattle.vtd_edits.specs.Splices.{IsWithin};
ghost use Rattle.vtd_listing.specs.Listing.{listed};
ghost use Rattle.vtd_outside.specs.Causes.{HasFileCause};
ghost use Rattle.vtd_outside.specs.Written.{Writes};
ghost use Rattle.vtd_index.specs.Index.{index_of};
ghost use Rattle.vtd_queries.specs.Meets.{Makes, Meets};
ghost use Rattle.vtd_queries.specs.Operations.{Operates};
ghost use Rattle.vtd_queries.specs.Questions.{Asks, AsksNodes};
ghost use Rattle.vtd_documents.specs.Held.{AreLines, IsLine, OfNest};
ghost use Rattle.vtd_documents.specs.Loads.{IsFileOf};
ghost use Rattle.vtd_held.specs.Holding.{opened_bytes, shown_bytes};
ghost use Rattle.vtd_index.specs.Opening.{IsLoadFault, IsOpened};

use crate::answers::{
    length_of_index, line_of_string, lines_of_elements, lines_of_nodes, operate_on, record_count,
    write_index_of,
};
use std::alloc::Global;
use std::marker::Model;
use vtd_held::Shown;
use vtd_index::{LoadFault, Opened, open_index};
use vtd_modifier::Operation;
use vtd_outside::{Failed, Files};
use vtd_queries::{Operated, OperationFault, QueryFault};
use xml_model::{Bytes, NoMemory};
use xpath_grammar::Bindings;

/// A document of fewer than 2 to the power 30 bytes that no check refuses, whose words were built or lie in an index
/// file, lent. Contracts see its bytes.
#[derive(Drop)]
pub struct Document<'a> {
    shown: Shown<'a>,
}

impl<'a> Model for Document<'a> {
    ghost use Rattle.std.specs.Prelude.{ℕ, List};
    ghost use Rattle.vtd_held.specs.Holding.{shown_bytes};

    ghost Value = { List ℕ };

    ghost view = { λ d. shown_bytes d.shown };
}

/// Nothing is done: what a file holds are bytes.
fn of_bytes(file: &[u8])
    ensures { AreBytes file.now }
{}

/// The document of an index file. The words of a file of the second version stay where they lie: it takes no memory, and
/// copies nothing. Of one of the first the document is copied and built.
///
/// # Errors
/// `Index` with the fault of the file, exactly where it is the index file of no document; `NoMemory` only where it is one
/// of the first version. The file comes back.
pub fn load(alloc: Global, file: Vec<u8>) -> Result<Opened, (Vec<u8>, LoadFault)>
    requires { vec_len file < 2 ^ 32 }
    ensures of_bytes { AreBytes file.items }
    ensures index { IfOk result (λ document. IsFileOf file.items (opened_bytes document)) }
    ensures opened { IfOk result (IsOpened file.items) }
    ensures given_back { IfErr result (λ e. e.0 ≡ file) }
    ensures fault { IfErr result (λ e. IsLoadFault file.items e.1) }
{
    of_bytes(file.as_slice());
    open_index(alloc, file)
}

impl<'a> Document<'a> {
    /// A document that is lent.
    pub fn of(shown: Shown<'a>) -> Document<'a>
        ensures { result ≡ shown_bytes shown.entry }
    {
        Document { shown }
    }

    /// The document's bytes.
    pub fn bytes(&self) -> &[u8]
        ensures value { result.now ≡ self.now }
        ensures few { length self.now < 2 ^ 30 }
    {
        match &self.shown {
            Shown::Built(doc) => doc.bytes(),
            Shown::Filed(loaded) => loaded.parts().bytes(),
        }
    }

    /// How many records it has.
    pub fn records(&self) -> u32
        ensures { OfNest self.now (λ nest. result ≡ length (records nest (first_place self.now))) }
    {
        match &self.shown {
            Shown::Built(doc) => record_count(&doc.nav()),
            Shown::Filed(loaded) => record_count(&loaded.parts().nav()),
        }
    }

    /// The lines of its elements: how many there are, and the start and the length of each in bytes, in document
    /// order. It goes twice over all records.
    ///
    /// # Errors
    /// `NoMemory` where the memory for the lines was not to be had.
    pub fn element_lines(&self, alloc: Global) -> Result<Vec<u8>, NoMemory>
        ensures { IfOk result (λ lines. OfNest self.now (λ nest. lines.items ≡ listed nest (first_place self.now))) }
    {
        match &self.shown {
            Shown::Built(doc) => lines_of_elements(alloc, &doc.nav()),
            Shown::Filed(loaded) => lines_of_elements(alloc, &loaded.parts().nav()),
        }
    }

    /// The lines of the nodes that the text of an expression answers: how many there are, and the kind, the start and
    /// the length of each in bytes, in document order.
    ///
    /// # Errors
    /// Those of `ask_nodes`, exactly; `NoMemory` may come in place of any other answer.
    pub fn node_lines(
        &self,
        alloc: Global,
        bindings: &Bindings,
        text: &str,
    ) -> Result<Bytes, QueryFault>
        ensures { OfNest self.now (λ nest.
            Meets AreLines (AsksNodes self.now nest bindings.now text.now) result) }
    {
        match &self.shown {
            Shown::Built(doc) => lines_of_nodes(alloc, &doc.nav(), bindings, text),
            Shown::Filed(loaded) => lines_of_nodes(alloc, &loaded.parts().nav(), bindings, text),
        }
    }

    /// The line of the string of the text of an expression (XPath 1.0, section 4.2).
    ///
    /// # Errors
    /// Those of `ask`, exactly; `NoMemory` may come in place of any other answer.
    pub fn value_lines(
        &self,
        alloc: Global,
        bindings: &Bindings,
        text: &str,
    ) -> Result<Bytes, QueryFault>
        ensures { OfNest self.now (λ nest. Meets IsLine (Asks self.now nest bindings.now text.now) result) }
    {
        match &self.shown {
            Shown::Built(doc) => line_of_string(alloc, &doc.nav(), bindings, text),
            Shown::Filed(loaded) => line_of_string(alloc, &loaded.parts().nav(), bindings, text),
        }
    }

    /// The splices of an operation on the nodes that the text of an expression answers; they are within the document.
    ///
    /// # Errors
    /// Those of `vtd_queries::operate`, exactly.
    pub fn operate(
        &self,
        alloc: Global,
        bindings: &Bindings,
        text: &str,
        operation: Operation<'_>,
    ) -> Result<Operated, OperationFault>
        ensures answers { OfNest self.now (λ nest.
            Makes (Operates self.now nest bindings.now text.now operation.entry) result) }
        ensures within { IfOk result (λ made. All (IsWithin (length self.now)) made.splices) }
    {
        match &self.shown {
            Shown::Built(doc) => operate_on(alloc, &doc.nav(), bindings, text, operation),
            Shown::Filed(loaded) => {
                operate_on(alloc, &loaded.parts().nav(), bindings, text, operation)
            }
        }
    }

    /// How many bytes its index file has.
    pub fn index_length(&self) -> u64
        ensures { OfNest self.now (λ nest. result ≡ length (index_of self.now nest)) }
    {
        match &self.shown {
            Shown::Built(doc) => length_of_index(&doc.nav()),
            Shown::Filed(loaded) => length_of_index(&loaded.parts().nav()),
        }
    }

    /// Writes its index file to the file of that name, in place of what it held. It takes no memory. No file may be
    /// being written at the call, and none is after it.
    ///
    /// # Errors
    /// `Failed` only where the proper count of `files` rose. All files are then as before, or the file of that name
    /// holds a prefix of the index file.
    pub fn write_index<F: Files>(&self, name: &str, files: &mut F) -> Result<(), Failed>
        requires { (F.seen files.old).is_writing ≡ false }
        ensures writes { OfNest self.now (λ nest. Writes (F.seen files.old).contents (F.seen files.new).contents
            name.now (index_of self.now nest) result) }
        ensures writing_ends { (F.seen files.new).is_writing ≡ false }
        ensures cause { HasFileCause false (F.seen files.old).missed (F.seen files.new).missed
            (F.seen files.old).proper (F.seen files.new).proper result }
    {
        match &self.shown {
            Shown::Built(doc) => write_index_of(name, &doc.nav(), files),
            Shown::Filed(loaded) => write_index_of(name, &loaded.parts().nav(), files),
        }
    }
}
