//! The names of elements and attributes, by their records, and the tags that are open before a record.

ghost use Rattle.std.specs.Prelude.{◌≡◌, ◌<◌, ◌≤◌, true, List, length, IfSome};
ghost use Rattle.xml_model.specs.Records.{Record};
ghost use Rattle.vtd_words.specs.Lists.{list_of};
ghost use Rattle.vtd_words.specs.Table.{ArePartsAt, ForEachNest, IsNodeOf, Shows, nodes_of};
ghost use Rattle.vtd_words.specs.Found.{NodeAt};
ghost use Rattle.vtd_fragment.specs.Named.{is_named, is_named_kind};
ghost use Rattle.vtd_namespaces.specs.OpenTags.{open_before};

use vtd_namespaces::OpenTags;
use vtd_words::{Part, Parts, Table, Words, parts_at};
use xml_model::{Kind, Node};

/// Whether nodes of a kind have an expanded name: elements and attributes.
fn is_named_kind(kind: Kind) -> bool
    ensures { result ≡ is_named_kind kind }
{
    matches!(kind, Kind::Element | Kind::Attribute)
}

/// The element or attribute that begins at a record with these parts; `None` exactly where none does.
pub fn name_at<W: Words>(table: &Table<'_, W>, at: u32, parts: Parts) -> Option<Node>
    requires within { at < length (list_of Part.Records (W.lists table.now.words)) }
    requires parts { ArePartsAt (list_of Part.Records (W.lists table.now.words)) at parts }
    ensures at { ForEachNest table.now.bytes (W.lists table.now.words) (λ nest.
        NodeAt is_named (nodes_of table.now.bytes nest) at result) }
    ensures node { IfSome result (λ node. IsNodeOf table.now.bytes (W.lists table.now.words) node) }
    ensures kind { IfSome result (λ node. is_named_kind node.kind ≡ true) }
{
    let Some(node) = table.node_from(at, parts) else {
        return None;
    };
    if is_named_kind(node.kind) {
        Some(node)
    } else {
        None
    }
}

/// The tags that are open before a record.
pub fn open_before<W: Words>(words: &W, at: u32) -> OpenTags
    requires { at ≤ length (list_of Part.Records (W.lists words.now)) }
    ensures { (rs : List Record) → Shows (list_of Part.Records (W.lists words.now)) rs → result ≡ open_before at rs }
{
    let mut open_tags = OpenTags::new();
    for index in 0..at {
        open_tags.pass(index, parts_at(words, index));
    }
    open_tags
}
