//! The names of nodes: XPath 1.0, section 4.1.

ghost use Rattle.std.specs.Prelude.{◌≡◌, [], List, ℕ, IfOk, encode_utf8_all, unwrap_or};
ghost use Rattle.std.specs.Str.{chars};
ghost use Rattle.vtd_text.specs.Joined.{slice_of as slice_at};
ghost use Rattle.vtd_words.specs.Packed.{record_of};
ghost use Rattle.vtd_words.specs.Table.{ForEachEntry, IsNodeOf};
ghost use Rattle.vtd_namespaces.specs.NodeNames.{HasName};
ghost use Rattle.vtd_namespaces.specs.Uris.{uri_value};
ghost use Rattle.xpath_meaning.specs.Functions.{local_name, uri_text, whole_name, written_name};

use std::alloc::Global;
use std::str::from_utf8;
use vtd_namespaces::{Resolver, Uri, local_of};
use vtd_text::{Chars, append_to};
use vtd_words::{Parts, Table, Words, parts_at};
use xml_model::texts::make_text;
use xml_model::{Kind, NoMemory, Node, Text};

/// The URI to which the prefix `xml` is bound (Namespaces in XML 1.0, section 3).
const XML: &str = "http://www.w3.org/XML/1998/namespace";

/// A text of characters.
fn made(alloc: Global, piece: &str) -> Result<Text, NoMemory>
    ensures { IfOk result (λ t. t ≡ chars piece.now) }
{
    match make_text(alloc, piece) {
        Ok(text) => Ok(text),
        Err(_) => Err(NoMemory),
    }
}

/// No name.
pub fn no_name(alloc: Global) -> Result<Text, NoMemory>
    ensures { IfOk result (λ t. t ≡ []) }
{
    made(alloc, "")
}

/// The text whose UTF-8 bytes are. The bytes of a name are UTF-8; for others memory is said not to be there.
fn utf8_text(alloc: Global, bytes: &[u8]) -> Result<Text, NoMemory>
    ensures { IfOk result (λ t. (cs : List ℕ) → bytes.now ≡ encode_utf8_all cs → t ≡ cs) }
{
    match from_utf8(bytes) {
        Ok(piece) => made(alloc, piece),
        Err(_) => Err(NoMemory),
    }
}

/// The local part of a node's name; that of an instruction is its target, and a node without a name has none.
pub fn local_text<W: Words>(
    alloc: Global,
    table: &Table<'_, W>,
    node: Node,
) -> Result<Text, NoMemory>
    requires { IsNodeOf table.now.bytes (W.lists table.now.words) node }
    ensures { IfOk result (λ t.
        ForEachEntry table.now.bytes (W.lists table.now.words) node (λ nest e. t ≡ local_name e)) }
{
    match node.kind {
        Kind::Element => utf8_text(alloc, local_of(table, node)),
        Kind::Attribute => utf8_text(alloc, local_of(table, node)),
        Kind::Instruction => utf8_text(alloc, local_of(table, node)),
        _ => no_name(alloc),
    }
}

/// The bytes of the token that a record is of.
pub fn slice_of(bytes: &[u8], parts: Parts) -> &[u8]
    ensures { result.now ≡ slice_at bytes.now (record_of parts) }
{
    let rest = if (parts.offset as usize) < bytes.len() {
        &bytes[parts.offset as usize..]
    } else {
        &[]
    };
    if (parts.length as usize) < rest.len() {
        &rest[..parts.length as usize]
    } else {
        rest
    }
}

/// The name of a node as it is written, in UTF-8.
fn written_of<'a, W: Words>(table: &Table<'a, W>, node: Node) -> &'a [u8]
    requires node { IsNodeOf table.now.bytes (W.lists table.now.words) node }
    requires named { HasName node.kind }
    ensures { ForEachEntry table.now.bytes (W.lists table.now.words) node (λ nest e.
        result.now ≡ encode_utf8_all (written_name e.what)) }
{
    slice_of(table.bytes(), parts_at(table.words(), node.at))
}

/// The name of a node as it is written; that of an instruction is its target, and a node without a name has none.
pub fn whole_text<W: Words>(
    alloc: Global,
    table: &Table<'_, W>,
    node: Node,
) -> Result<Text, NoMemory>
    requires { IsNodeOf table.now.bytes (W.lists table.now.words) node }
    ensures { IfOk result (λ t.
        ForEachEntry table.now.bytes (W.lists table.now.words) node (λ nest e. t ≡ whole_name e)) }
{
    match node.kind {
        Kind::Element => utf8_text(alloc, written_of(table, node)),
        Kind::Attribute => utf8_text(alloc, written_of(table, node)),
        Kind::Instruction => utf8_text(alloc, written_of(table, node)),
        _ => no_name(alloc),
    }
}

/// The text of code points.
fn text_of_chars<W: Words>(alloc: Global, chars: Chars<'_, W>) -> Result<Text, NoMemory>
    ensures { IfOk result (λ t. t ≡ chars.entry) }
{
    let mut text = no_name(alloc)?;
    append_to(alloc, chars, &mut text)?;
    Ok(text)
}

/// The characters of a URI; of none there are none.
fn text_of_uri<W: Words>(alloc: Global, uri: Uri<'_, W>) -> Result<Text, NoMemory>
    ensures { IfOk result (λ t. t ≡ unwrap_or (uri_value uri.entry) []) }
{
    match uri {
        Uri::None => no_name(alloc),
        Uri::Xml => made(alloc, XML),
        Uri::Declared(chars) => text_of_chars(alloc, chars),
    }
}

/// The URI of a node's expanded name; none, where it has none, has no characters.
pub fn uri_text<W: Words>(
    alloc: Global,
    table: &Table<'_, W>,
    resolver: &mut Resolver<'_, '_, W>,
    node: Node,
) -> Result<Text, NoMemory>
    requires node { IsNodeOf table.now.bytes (W.lists table.now.words) node }
    requires resolver { resolver.old ≡ table.now }
    ensures text { IfOk result (λ t.
        ForEachEntry table.now.bytes (W.lists table.now.words) node (λ nest e. t ≡ uri_text e)) }
    ensures resolver { resolver.new ≡ resolver.old }
{
    match node.kind {
        Kind::Element => text_of_uri(alloc, resolver.uri(node)),
        Kind::Attribute => text_of_uri(alloc, resolver.uri(node)),
        _ => no_name(alloc),
    }
}
