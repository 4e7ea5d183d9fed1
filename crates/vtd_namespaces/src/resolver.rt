//! The URIs of names and name tests along a walk (Namespaces in XML 1.0, section 6, and XPath 1.0, section 2.3).

ghost use Rattle.std.specs.Prelude.{◌≡◌, ℕ, ◌+◌, ◌<◌, ◌≤◌, ◌^◌, List, length, encode_utf8_all, IfSome};
ghost use Rattle.xml_model.specs.Names.{binding, expanded, name_passes};
ghost use Rattle.xml_model.specs.Records.{Record};
ghost use Rattle.vtd_words.specs.Lists.{list_of};
ghost use Rattle.vtd_words.specs.Packed.{record_of};
ghost use Rattle.vtd_words.specs.Table.{ForEachEntry, IsNodeOf, Shows, nodes_of};
ghost use Rattle.vtd_text.specs.NameRecords.{IsDeclaration};
ghost use Rattle.vtd_namespaces.specs.Reach.{reaching, reach_of};
ghost use Rattle.vtd_namespaces.specs.NodeNames.{test_of, uri_in, HasExpandedName, HasName};
ghost use Rattle.vtd_namespaces.specs.OpenTags.{open_before};
ghost use Rattle.vtd_namespaces.specs.Scope.{tags_in, IsNearest};
ghost use Rattle.vtd_namespaces.specs.Undeclared.{NoneDeclared};
ghost use Rattle.vtd_namespaces.specs.Uris.{uri_value};

use crate::compare::is_uri;
use crate::declarations::declarations_end;
use crate::holders::{XML, uri_by};
use crate::memo::{Memo, Prefix, empty_memo, nearest_known};
use crate::nodes::{local_of, prefix_of};
use crate::open_tags::OpenTags;
use crate::uri::Uri;
use std::marker::Model;
use vtd_words::{Part, Parts, Table, Words, parts_at};
use xml_model::{Kind, NameTest, Node, TokenKind};

/// How many elements' declarations reach an element or an attribute, by the parts of its record.
fn reach_of(parts: Parts) -> usize
    ensures count { result ≡ reach_of (record_of parts) }
    ensures few { result ≤ 256 }
{
    if parts.token == TokenKind::StartTag as u8 {
        return parts.depth as usize + 1;
    }
    if parts.depth == 255 {
        return 0;
    }
    parts.depth as usize + 1
}

/// Passes the records of a document from one on, below another.
fn pass_records<W: Words>(words: &W, open_tags: &mut OpenTags, from: u32, past: u32)
    requires order { from ≤ past }
    requires within { past ≤ length (list_of Part.Records (W.lists words.now)) }
    requires opened { (rs : List Record) → Shows (list_of Part.Records (W.lists words.now)) rs →
        open_tags.old ≡ open_before from rs }
    ensures { (rs : List Record) → Shows (list_of Part.Records (W.lists words.now)) rs →
        open_tags.new ≡ open_before past rs }
{
    for at in from..past {
        open_tags.pass(at, parts_at(words, at));
    }
}

/// Goes along the records to one: passes those that were not passed, or all again, where more were passed.
fn go_to<W: Words>(words: &W, open_tags: &mut OpenTags, passed: u32, past: u32)
    requires within { past ≤ length (list_of Part.Records (W.lists words.now)) }
    requires opened { (rs : List Record) → Shows (list_of Part.Records (W.lists words.now)) rs →
        open_tags.old ≡ open_before passed rs }
    ensures { (rs : List Record) → Shows (list_of Part.Records (W.lists words.now)) rs →
        open_tags.new ≡ open_before past rs }
{
    if past < passed {
        *open_tags = OpenTags::new();
        pass_records(words, open_tags, 0, past);
        return;
    }
    pass_records(words, open_tags, passed, past);
}

/// The index after that of a node's first record.
fn after_first<W: Words>(table: &Table<'_, W>, node: Node) -> u32
    requires { IsNodeOf table.now.bytes (W.lists table.now.words) node }
    ensures index { result ≡ node.at + 1 }
    ensures room { result ≤ length (list_of Part.Records (W.lists table.now.words)) }
    ensures bound { length (list_of Part.Records (W.lists table.now.words)) < 2 ^ 32 }
{
    let records = table.words().len(Part::Records);
    prove!(node.at < records);
    node.at + 1
}

/// Answers the URIs of names and name tests for the nodes of a document. It keeps the open tags along the records,
/// knows where the declarations of the document end, and notes what it found out of tags. So nodes that come in
/// document order cost, together, one read for each record up to the last of them, and for each node a look into the
/// notes for those of its open tags that are before the end of the declarations; the names of such a tag are walked
/// once for each prefix, as long as the 8,192 places of the notes have room. Where the document declares nothing, a
/// node costs its own record alone. A node before the last one that was asked for begins anew at the first record. It
/// sits on the stack, 130 KiB. Contracts see the bytes and the words of the document.
#[derive(Drop)]
pub struct Resolver<'t, 'a, W: Words> {
    table: &'t Table<'a, W>,
    open_tags: OpenTags,
    passed: u32,
    end: u32,
    memo: Memo,
}

impl<'t, 'a, W: Words> Model for Resolver<'t, 'a, W> {
    ghost use Rattle.vtd_words.specs.Table.{TableOf};
    ghost use Rattle.vtd_namespaces.specs.Reach.{IsResolver};

    ghost Value = { TableOf W };

    ghost view = { λ r. r.table.now };

    ghost invariant = { λ r. IsResolver r.table.now.bytes (W.lists r.table.now.words) r.open_tags r.passed r.end
        r.memo.tags r.memo.offsets r.memo.lens r.memo.declarations };
}

impl<'t, 'a, W: Words> Resolver<'t, 'a, W> {
    /// A resolver for the nodes of a table. It reads the records from the last one back to the last declaration.
    pub fn new(table: &'t Table<'a, W>) -> Resolver<'t, 'a, W>
        ensures { result ≡ table.entry.now }
    {
        let end = declarations_end(table.words());
        Resolver {
            table,
            open_tags: OpenTags::new(),
            passed: 0,
            end,
            memo: empty_memo(),
        }
    }

    /// The record of the nearest declaration of a prefix that reaches a node.
    fn declaration(&mut self, node: Node, prefix: &[u8]) -> Option<u32>
        requires node { IsNodeOf self.old.bytes (W.lists self.old.words) node }
        requires named { HasExpandedName node.kind }
        ensures table { self.new ≡ self.old }
        ensures found { ForEachEntry self.old.bytes (W.lists self.old.words) node (λ nest e.
            (p : List ℕ) → prefix.now ≡ encode_utf8_all p →
            IsNearest (nodes_of self.old.bytes nest) (reaching e) p result) }
        ensures declares { IfSome result (IsDeclaration self.old.bytes (W.lists self.old.words)) }
    {
        if self.end == 0 {
            return None;
        }
        let past = after_first(self.table, node);
        go_to(self.table.words(), &mut self.open_tags, self.passed, past);
        self.passed = past;
        let parts = parts_at(self.table.words(), node.at);
        let sought = Prefix {
            text: prefix,
            offset: parts.offset,
            len: parts.prefix,
        };
        nearest_known(
            self.table.bytes(),
            self.table.words(),
            &mut self.memo,
            &self.open_tags,
            reach_of(parts),
            self.end,
            &sought,
        )
    }

    /// The URI to which a prefix is bound by the declarations that reach a node.
    fn bound(&mut self, node: Node, prefix: &[u8]) -> Uri<'a, W>
        requires node { IsNodeOf self.old.bytes (W.lists self.old.words) node }
        requires named { HasExpandedName node.kind }
        ensures table { self.new ≡ self.old }
        ensures uri { ForEachEntry self.old.bytes (W.lists self.old.words) node (λ nest e.
            (p : List ℕ) → prefix.now ≡ encode_utf8_all p → uri_value result ≡ binding p (tags_in (reaching e))) }
    {
        if prefix == XML {
            return Uri::Xml;
        }
        let declaration = self.declaration(node, prefix);
        uri_by(self.table, prefix, declaration)
    }

    /// The URI of a node's expanded name (Namespaces in XML 1.0, sections 2.1 and 6): that of the prefix, or of the
    /// default for an element without one; an attribute without a prefix and an instruction have none. The node is an
    /// element, an attribute or an instruction of the table.
    pub fn uri(&mut self, node: Node) -> Uri<'a, W>
        requires node { IsNodeOf self.old.bytes (W.lists self.old.words) node }
        requires named { HasName node.kind }
        ensures table { self.new ≡ self.old }
        ensures uri { ForEachEntry self.old.bytes (W.lists self.old.words) node (λ nest e.
            uri_value result ≡ uri_in (expanded e)) }
    {
        let prefix = prefix_of(self.table, node);
        match node.kind {
            Kind::Element => self.bound(node, prefix),
            Kind::Attribute => {
                if prefix.is_empty() {
                    return Uri::None;
                }
                self.bound(node, prefix)
            }
            _ => Uri::None,
        }
    }

    /// Whether a node passes a name test (XPath 1.0, section 2.3), by its expanded name; an empty URI is no namespace.
    /// The local part is compared first, and the URI is looked for only where it is the same. The node is an element or
    /// an attribute of the table.
    pub fn matches(&mut self, node: Node, test: &NameTest<'_>) -> bool
        requires node { IsNodeOf self.old.bytes (W.lists self.old.words) node }
        requires named { HasExpandedName node.kind }
        ensures table { self.new ≡ self.old }
        ensures passes { ForEachEntry self.old.bytes (W.lists self.old.words) node (λ nest e.
            result ≡ name_passes (test_of test.now) (expanded e)) }
    {
        match *test {
            NameTest::Any => true,
            NameTest::AnyIn { uri } => is_uri(self.uri(node), uri),
            NameTest::Named { uri, local } => {
                if local_of(self.table, node) == local.as_bytes() {
                    return is_uri(self.uri(node), uri);
                }
                false
            }
        }
    }
}
