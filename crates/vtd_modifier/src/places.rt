//! Where the parts of a node of a document are.

ghost use Rattle.std.specs.Prelude.{◌≡◌, ◌+◌, ◌-◌};
ghost use Rattle.xml_model.specs.Chars.{size};
ghost use Rattle.xml_model.specs.Items.{Attribute, Instruction, quote_char};
ghost use Rattle.xml_model.specs.Tree.{Thing};
ghost use Rattle.xml_chars.specs.Places.{span_from};
ghost use Rattle.vtd_words.specs.Table.{ForEachEntry, IsNodeOf};
ghost use Rattle.vtd_modifier.specs.Parts.{part_of};

use crate::parts::Part;
use vtd_cursor::{span, tags_of, value_span};
use vtd_location::Nav;
use vtd_words::{Words, parts_at};
use xml_model::{Kind, Node, Span, TokenKind};

// The number of the records of values.
const VALUE: u8 = TokenKind::Value as u8;

/// Where the first name of a node is: that of an attribute, or the target of an instruction.
fn first_name<W: Words>(nav: &Nav<'_, W>, node: Node) -> Span
    requires { IsNodeOf nav.now.bytes (W.lists nav.now.words) node }
    ensures attribute { ForEachEntry nav.now.bytes (W.lists nav.now.words) node (λ nest e.
        (a : Attribute) → e.what ≡ Thing.attribute a → result ≡ span_from e.start a.name) }
    ensures instruction { ForEachEntry nav.now.bytes (W.lists nav.now.words) node (λ nest e.
        (i : Instruction) → e.what ≡ Thing.instruction i → result ≡ span_from (e.start + 2) i.target) }
{
    let name = parts_at(nav.table().words(), node.at);
    Span {
        start: name.offset,
        end: name.offset + name.length,
    }
}

/// Where the white space before an attribute begins: where the name of its tag or the attribute before it ends.
fn space_start<W: Words>(nav: &Nav<'_, W>, node: Node) -> u32
    requires node { IsNodeOf nav.now.bytes (W.lists nav.now.words) node }
    requires attribute { node.kind ≡ Kind.Attribute }
    ensures { ForEachEntry nav.now.bytes (W.lists nav.now.words) node (λ nest e.
        (a : Attribute) → e.what ≡ Thing.attribute a → result ≡ e.start - size a.space) }
{
    let before = parts_at(nav.table().words(), node.at - 1);
    let end = before.offset + before.length;
    if before.token == VALUE { end + 1 } else { end }
}

/// The closing quote of an attribute, which is at a place.
fn closing_quote<W: Words>(nav: &Nav<'_, W>, node: Node, at: u32) -> u8
    requires node { IsNodeOf nav.now.bytes (W.lists nav.now.words) node }
    requires attribute { node.kind ≡ Kind.Attribute }
    requires place { ForEachEntry nav.now.bytes (W.lists nav.now.words) node (λ nest e. at + 1 ≡ e.stop) }
    ensures { ForEachEntry nav.now.bytes (W.lists nav.now.words) node (λ nest e.
        (a : Attribute) → e.what ≡ Thing.attribute a → result ≡ quote_char a.quote) }
{
    nav.table().bytes()[at as usize]
}

/// Where the parts of an attribute are.
fn attribute_part<W: Words>(nav: &Nav<'_, W>, node: Node, span: Span) -> Part
    requires node { IsNodeOf nav.now.bytes (W.lists nav.now.words) node }
    requires attribute { node.kind ≡ Kind.Attribute }
    requires start { ForEachEntry nav.now.bytes (W.lists nav.now.words) node (λ nest e. span.start ≡ e.start) }
    requires end { ForEachEntry nav.now.bytes (W.lists nav.now.words) node (λ nest e. span.end ≡ e.stop) }
    ensures { ForEachEntry nav.now.bytes (W.lists nav.now.words) node (λ nest e. result ≡ part_of nav.now.bytes e) }
{
    let value = value_span(nav, node);
    Part::Attribute {
        before: space_start(nav, node),
        span,
        name: first_name(nav, node),
        value,
        quote: closing_quote(nav, node, value.end),
    }
}

/// What a node is, and where its parts are.
pub(crate) fn part_of<W: Words>(nav: &Nav<'_, W>, node: Node) -> Part
    requires { IsNodeOf nav.now.bytes (W.lists nav.now.words) node }
    ensures { ForEachEntry nav.now.bytes (W.lists nav.now.words) node (λ nest e. result ≡ part_of nav.now.bytes e) }
{
    let span = span(nav, node);
    match node.kind {
        Kind::Root => Part::Root,
        Kind::Element => Part::Element {
            span,
            tags: tags_of(nav, node),
        },
        Kind::Attribute => attribute_part(nav, node, span),
        Kind::Text => Part::Text { span },
        Kind::Comment => Part::Comment { span },
        Kind::Instruction => Part::Instruction {
            span,
            target: first_name(nav, node),
        },
    }
}
