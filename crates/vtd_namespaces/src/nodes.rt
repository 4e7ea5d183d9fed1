//! The names of nodes: prefixes, local parts, URIs and name tests (Namespaces in XML 1.0, sections 2.1 and 6, and XPath
//! 1.0, sections 2.3 and 5).

ghost use Rattle.std.specs.Prelude.{◌≡◌, encode_utf8_all};
ghost use Rattle.xml_model.specs.Names.{expanded, name_passes};
ghost use Rattle.vtd_words.specs.Table.{ForEachEntry, IsNodeOf};
ghost use Rattle.vtd_namespaces.specs.Uris.{uri_value};
ghost use Rattle.vtd_namespaces.specs.NodeNames.{node_local, node_prefix, test_of, uri_in, HasExpandedName, HasName};

use crate::compare::is_uri;
use crate::holders::{nearest_element, uri_of_prefix};
use crate::qnames;
use crate::records::slice_of;
use crate::uri::Uri;
use vtd_words::{Table, Words, parts_at};
use xml_model::{Kind, NameTest, Node, TokenKind};

/// The prefix in a node's name, in UTF-8; it is empty where the name has none, and for an instruction. The node is an
/// element, an attribute or an instruction of the table. It reads one record.
pub fn prefix_of<'a, W: Words>(table: &Table<'a, W>, node: Node) -> &'a [u8]
    requires node { IsNodeOf table.now.bytes (W.lists table.now.words) node }
    requires named { HasName node.kind }
    ensures { ForEachEntry table.now.bytes (W.lists table.now.words) node (λ nest e.
        result.now ≡ encode_utf8_all (node_prefix e.what)) }
{
    let parts = parts_at(table.words(), node.at);
    if parts.token == TokenKind::Target as u8 {
        return &[];
    }
    qnames::prefix_of(slice_of(table.bytes(), parts), parts.prefix)
}

/// The local part of a node's name, in UTF-8: what follows the colon, or the whole; an instruction's is its target. The
/// node is an element, an attribute or an instruction of the table. It reads one record.
pub fn local_of<'a, W: Words>(table: &Table<'a, W>, node: Node) -> &'a [u8]
    requires node { IsNodeOf table.now.bytes (W.lists table.now.words) node }
    requires named { HasName node.kind }
    ensures { ForEachEntry table.now.bytes (W.lists table.now.words) node (λ nest e.
        result.now ≡ encode_utf8_all (node_local e.what)) }
{
    let parts = parts_at(table.words(), node.at);
    let name = slice_of(table.bytes(), parts);
    if parts.token == TokenKind::Target as u8 {
        return name;
    }
    qnames::local_of(name, parts.prefix)
}

/// The URI of a node's expanded name (Namespaces in XML 1.0, sections 2.1 and 6): that of the prefix, or of the default
/// for an element without one; an attribute without a prefix and an instruction have none. The node is an element, an
/// attribute or an instruction of the table. It goes back over the records to the elements that hold the node, up to
/// that of the declaration, and walks the names of each: at most so many reads as there are records before the node's,
/// and these names. A walk asks a `Resolver`.
pub fn uri_of<'a, W: Words>(table: &Table<'a, W>, node: Node) -> Uri<'a, W>
    requires node { IsNodeOf table.now.bytes (W.lists table.now.words) node }
    requires named { HasName node.kind }
    ensures { ForEachEntry table.now.bytes (W.lists table.now.words) node (λ nest e.
        uri_value result ≡ uri_in (expanded e)) }
{
    let prefix = prefix_of(table, node);
    match node.kind {
        Kind::Element => uri_of_prefix(table, nearest_element(table, node), prefix),
        Kind::Attribute => {
            if prefix.is_empty() {
                return Uri::None;
            }
            uri_of_prefix(table, nearest_element(table, node), prefix)
        }
        _ => Uri::None,
    }
}

/// Whether a node passes a name test (XPath 1.0, section 2.3), by its expanded name; an empty URI is no namespace. The
/// node is an element or an attribute of the table. It costs what `uri_of` does, where the local part is that of the
/// test, and else one read. A walk asks a `Resolver`.
pub fn matches<W: Words>(table: &Table<'_, W>, node: Node, test: &NameTest<'_>) -> bool
    requires node { IsNodeOf table.now.bytes (W.lists table.now.words) node }
    requires named { HasExpandedName node.kind }
    ensures { ForEachEntry table.now.bytes (W.lists table.now.words) node (λ nest e.
        result ≡ name_passes (test_of test.now) (expanded e)) }
{
    match *test {
        NameTest::Any => true,
        NameTest::AnyIn { uri } => is_uri(uri_of(table, node), uri),
        NameTest::Named { uri, local } => {
            if local_of(table, node) == local.as_bytes() {
                return is_uri(uri_of(table, node), uri);
            }
            false
        }
    }
}
