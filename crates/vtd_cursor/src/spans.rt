//! Where a node and its parts are in the document's bytes.

ghost use Rattle.std.specs.Prelude.{◌≡◌, ◌+◌, true, false};
ghost use Rattle.xml_model.specs.Chars.{size};
ghost use Rattle.xml_model.specs.Items.{Attribute, Tag, begins_at, before_value, empty_tag, written_pieces};
ghost use Rattle.xml_model.specs.Nest.{Forest};
ghost use Rattle.xml_model.specs.Records.{past_forest, past_start};
ghost use Rattle.xml_model.specs.Tree.{Entry, Identifies, Thing};
ghost use Rattle.xml_chars.specs.Places.{span_from};
ghost use Rattle.vtd_words.specs.Table.{ForEachEntry, IsNestOf, IsNodeOf, nodes_of};
ghost use Rattle.vtd_cursor.specs.Tags.{tags_by, HasEndTag};

use crate::pieces::{end_of_level, piece_start, record_end, tag_of};
use vtd_location::Nav;
use vtd_words::{Table, Words, parts_at};
use xml_items::ItemKind;
use xml_model::{Kind, Node, Span};

/// Where the tags of an element are, in bytes.
#[derive(Clone, Copy, Debug, PartialEq, Eq)]
pub struct Tags {
    /// The name in the first tag.
    pub name: Span,
    /// The place after the first tag.
    pub head_end: u32,
    /// The `<` of the end tag; the place after the tag where there is none.
    pub tail_start: u32,
    /// Whether the element is one empty tag, with no end tag.
    pub empty: bool,
}

/// Where a node begins that is not the root.
pub fn node_start<W: Words>(table: &Table<'_, W>, node: Node) -> u32
    requires node { IsNodeOf table.now.bytes (W.lists table.now.words) node }
    requires below { node.kind ≡ Kind.Root → ⊥ }
    ensures { ForEachEntry table.now.bytes (W.lists table.now.words) node (λ nest e. result ≡ e.start) }
{
    piece_start(parts_at(table.words(), node.at))
}

/// Where a node ends that is not the root.
fn node_end<W: Words>(table: &Table<'_, W>, node: Node) -> u32
    requires node { IsNodeOf table.now.bytes (W.lists table.now.words) node }
    requires below { node.kind ≡ Kind.Root → ⊥ }
    ensures { ForEachEntry table.now.bytes (W.lists table.now.words) node (λ nest e. result ≡ e.stop) }
{
    let words = table.words();
    let last = table.end_of(node) - 1;
    match node.kind {
        Kind::Element => end_of_level(
            table.bytes(),
            words,
            parts_at(words, node.at).depth as u32,
            last,
        ),
        _ => record_end(parts_at(words, last)),
    }
}

/// Where a node is, in bytes: the root in the whole document; an element from its first tag to its last; an attribute
/// from its name to its closing quote; a text node with the markers of its CDATA sections; a comment and an instruction
/// with theirs.
pub fn span<W: Words>(nav: &Nav<'_, W>, node: Node) -> Span
    requires { IsNodeOf nav.now.bytes (W.lists nav.now.words) node }
    ensures start { ForEachEntry nav.now.bytes (W.lists nav.now.words) node (λ nest e. result.start ≡ e.start) }
    ensures end { ForEachEntry nav.now.bytes (W.lists nav.now.words) node (λ nest e. result.end ≡ e.stop) }
{
    let table = nav.table();
    match node.kind {
        Kind::Root => Span {
            start: 0,
            end: table.bytes().len() as u32,
        },
        _ => Span {
            start: node_start(table, node),
            end: node_end(table, node),
        },
    }
}

/// Where the name in the first tag of an element is (XML 1.0, productions 40 and 44). It reads one record, where
/// `tags_of` goes over all that is in the element.
pub fn name_span<W: Words>(nav: &Nav<'_, W>, node: Node) -> Span
    requires node { IsNodeOf nav.now.bytes (W.lists nav.now.words) node }
    requires element { node.kind ≡ Kind.Element }
    ensures { ForEachEntry nav.now.bytes (W.lists nav.now.words) node (λ nest e.
        (t : Tag) (inside : Forest) → e.what ≡ Thing.element t inside → result ≡ span_from (e.start + 1) t.name) }
{
    let table = nav.table();
    let name = parts_at(table.words(), node.at);
    Span {
        start: name.offset,
        end: name.offset + name.length,
    }
}

/// Where the tags of an element are (XML 1.0, productions 40, 42 and 44).
pub fn tags_of<W: Words>(nav: &Nav<'_, W>, node: Node) -> Tags
    requires node { IsNodeOf nav.now.bytes (W.lists nav.now.words) node }
    requires element { node.kind ≡ Kind.Element }
    ensures { ForEachEntry nav.now.bytes (W.lists nav.now.words) node (λ nest e.
        (t : Tag) (inside : Forest) → e.what ≡ Thing.element t inside →
        result ≡ tags_by (begins_at nav.now.bytes e.start (empty_tag t)) t inside e.start e.stop) }
{
    let table = nav.table();
    let tag = tag_of(table.bytes(), table.words(), node.at);
    match tag.kind {
        ItemKind::EmptyTag => Tags {
            name: tag.name,
            head_end: tag.span.end,
            tail_start: tag.span.end,
            empty: true,
        },
        _ => Tags {
            name: tag.name,
            head_end: tag.span.end,
            tail_start: inside_end(table, node),
            empty: false,
        },
    }
}

/// Where what is in an element ends, which has an end tag.
fn inside_end<W: Words>(table: &Table<'_, W>, node: Node) -> u32
    requires node { IsNodeOf table.now.bytes (W.lists table.now.words) node }
    requires element { HasEndTag table.now.bytes (W.lists table.now.words) node }
    ensures { ForEachEntry table.now.bytes (W.lists table.now.words) node (λ nest e.
        (t : Tag) (inside : Forest) → e.what ≡ Thing.element t inside →
        begins_at table.now.bytes e.start (empty_tag t) ≡ false →
        result ≡ past_forest (past_start e.start t) inside) }
{
    let words = table.words();
    let last = table.end_of(node) - 1;
    end_of_level(
        table.bytes(),
        words,
        parts_at(words, node.at).depth as u32 + 1,
        last,
    )
}

/// Where the value of an attribute is, between its quotes (XML 1.0, production 10).
pub fn value_span<W: Words>(nav: &Nav<'_, W>, node: Node) -> Span
    requires node { IsNodeOf nav.now.bytes (W.lists nav.now.words) node }
    requires attribute { node.kind ≡ Kind.Attribute }
    ensures value { ForEachEntry nav.now.bytes (W.lists nav.now.words) node (λ nest e.
        (a : Attribute) → e.what ≡ Thing.attribute a →
        result ≡ span_from (e.start + size (before_value a)) (written_pieces a.value)) }
    ensures quote { ForEachEntry nav.now.bytes (W.lists nav.now.words) node (λ nest e. result.end + 1 ≡ e.stop) }
{
    let table = nav.table();
    let value = parts_at(table.words(), table.end_of(node) - 1);
    Span {
        start: value.offset,
        end: value.offset + value.length,
    }
}
