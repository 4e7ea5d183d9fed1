//! Node tests (XPath 1.0, section 2.3).

ghost use Rattle.std.specs.Prelude.{◌≡◌};
ghost use Rattle.xml_model.specs.Names.{passes as passes_test};
ghost use Rattle.vtd_words.specs.Table.{ForEachEntry, IsNodeOf};
ghost use Rattle.xpath_axes.specs.Tests.{node_test, is_text_kind, is_comment_kind, is_instruction_kind};
ghost use Rattle.xpath_axes.specs.Tests.{is_principal_kind};

use crate::names::Names;
use vtd_namespaces::local_of;
use vtd_words::{Table, Words};
use xml_model::{Kind, Node, NodeTest};

fn is_text(kind: Kind) -> bool
    ensures { result ≡ is_text_kind kind }
{
    matches!(kind, Kind::Text)
}

fn is_comment(kind: Kind) -> bool
    ensures { result ≡ is_comment_kind kind }
{
    matches!(kind, Kind::Comment)
}

fn is_instruction(kind: Kind) -> bool
    ensures { result ≡ is_instruction_kind kind }
{
    matches!(kind, Kind::Instruction)
}

/// Whether name tests may pass nodes of a kind, on the attribute axis or another.
fn is_principal(on_attributes: bool, kind: Kind) -> bool
    ensures { result ≡ is_principal_kind on_attributes kind }
{
    match kind {
        Kind::Attribute => on_attributes,
        Kind::Element => !on_attributes,
        _ => false,
    }
}

/// Whether a node passes a node test, on the attribute axis or another (XPath 1.0, section 2.3). The node is one of the
/// table. Name tests are asked of `names`.
pub fn passes<W: Words, N: Names<W>>(
    table: &Table<'_, W>,
    names: &mut N,
    node: Node,
    on_attributes: bool,
    test: &NodeTest<'_>,
) -> bool
    requires node { IsNodeOf table.now.bytes (W.lists table.now.words) node }
    requires names { N.knows names.old table.now }
    ensures passes { ForEachEntry table.now.bytes (W.lists table.now.words) node (λ nest e.
        result ≡ passes_test (node_test test.now) on_attributes e) }
    ensures names { N.knows names.new table.now }
{
    match *test {
        NodeTest::Node => true,
        NodeTest::Text => is_text(node.kind),
        NodeTest::Comment => is_comment(node.kind),
        NodeTest::Instruction => is_instruction(node.kind),
        NodeTest::Target(target) => {
            if !is_instruction(node.kind) {
                return false;
            }
            local_of(table, node) == target.as_bytes()
        }
        NodeTest::Name(name) => {
            if !is_principal(on_attributes, node.kind) {
                return false;
            }
            names.matches(table, node, &name)
        }
    }
}
