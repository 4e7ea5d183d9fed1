//! What is asked of a document, over words that are owned or lent.

ghost use Rattle.std.specs.Prelude.{◌≡◌, ◌<◌, ◌^◌, length, false, IfOk};
ghost use Rattle.std.specs.List.{All};
ghost use Rattle.xml_model.specs.Items.{first_place};
ghost use Rattle.xml_model.specs.Records.{records};
ghost use Rattle.vtd_edits.specs.Splices.{IsWithin};
ghost use Rattle.vtd_listing.specs.Listing.{listed};
ghost use Rattle.vtd_outside.specs.Causes.{HasFileCause};
ghost use Rattle.vtd_outside.specs.Written.{Writes};
ghost use Rattle.vtd_index.specs.Index.{index_of};
ghost use Rattle.vtd_queries.specs.Meets.{Makes, Meets};
ghost use Rattle.vtd_queries.specs.Operations.{Operates};
ghost use Rattle.vtd_queries.specs.Questions.{Asks, AsksNodes};
ghost use Rattle.vtd_documents.specs.Held.{AreLines, IsLine, OfNest};

use std::alloc::Global;
use vtd_index::{index_length, write_index};
use vtd_listing::{element_lines, node_lines, value_lines};
use vtd_location::Nav;
use vtd_modifier::Operation;
use vtd_outside::{Failed, Files};
use vtd_queries::{Operated, OperationFault, QueryFault, ask_nodes, ask_text, operate};
use vtd_words::{Part, Words};
use xml_model::{Bytes, NoMemory};
use xpath_grammar::Bindings;

/// How many records there are.
pub fn record_count<W: Words>(nav: &Nav<'_, W>) -> u32
    ensures { OfNest nav.now.bytes (λ nest. result ≡ length (records nest (first_place nav.now.bytes))) }
{
    nav.table().words().len(Part::Records)
}

/// The lines of the elements.
pub fn lines_of_elements<W: Words>(alloc: Global, nav: &Nav<'_, W>) -> Result<Vec<u8>, NoMemory>
    ensures { IfOk result (λ lines. OfNest nav.now.bytes (λ nest.
        lines.items ≡ listed nest (first_place nav.now.bytes))) }
{
    let _ = nav.table();
    element_lines(alloc, nav)
}

/// The lines of the nodes of an expression.
pub fn lines_of_nodes<W: Words>(
    alloc: Global,
    nav: &Nav<'_, W>,
    bindings: &Bindings,
    text: &str,
) -> Result<Bytes, QueryFault>
    ensures { OfNest nav.now.bytes (λ nest.
        Meets AreLines (AsksNodes nav.now.bytes nest bindings.now text.now) result) }
{
    let _ = nav.table();
    let nodes = ask_nodes(alloc, nav, bindings, text)?;
    let held = node_lines(alloc, nav, &nodes)?;
    Ok(Bytes { held })
}

/// The line of the string of an expression.
pub fn line_of_string<W: Words>(
    alloc: Global,
    nav: &Nav<'_, W>,
    bindings: &Bindings,
    text: &str,
) -> Result<Bytes, QueryFault>
    ensures { OfNest nav.now.bytes (λ nest. Meets IsLine (Asks nav.now.bytes nest bindings.now text.now) result) }
{
    let _ = nav.table();
    let string = ask_text(alloc, nav, bindings, text)?;
    let held = value_lines(alloc, &string)?;
    Ok(Bytes { held })
}

/// The splices of an operation on the nodes of an expression.
pub fn operate_on<W: Words>(
    alloc: Global,
    nav: &Nav<'_, W>,
    bindings: &Bindings,
    text: &str,
    operation: Operation<'_>,
) -> Result<Operated, OperationFault>
    ensures answers { OfNest nav.now.bytes (λ nest.
        Makes (Operates nav.now.bytes nest bindings.now text.now operation.entry) result) }
    ensures within { IfOk result (λ made. All (IsWithin (length nav.now.bytes)) made.splices) }
{
    let _ = nav.table();
    operate(alloc, nav, bindings, text, operation)
}

/// How many bytes the index file has.
pub fn length_of_index<W: Words>(nav: &Nav<'_, W>) -> u64
    ensures { OfNest nav.now.bytes (λ nest. result ≡ length (index_of nav.now.bytes nest)) }
{
    let _ = nav.table();
    index_length(nav)
}

/// Writes the index file.
pub fn write_index_of<W: Words, F: Files>(
    name: &str,
    nav: &Nav<'_, W>,
    files: &mut F,
) -> Result<(), Failed>
    requires { (F.seen files.old).is_writing ≡ false }
    ensures writes { OfNest nav.now.bytes (λ nest. Writes (F.seen files.old).contents (F.seen files.new).contents
        name.now (index_of nav.now.bytes nest) result) }
    ensures writing_ends { (F.seen files.new).is_writing ≡ false }
    ensures cause { HasFileCause false (F.seen files.old).missed (F.seen files.new).missed (F.seen files.old).proper
        (F.seen files.new).proper result }
{
    let _ = nav.table();
    write_index(name, nav, files)
}
