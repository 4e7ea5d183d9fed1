//! What tests of names are asked of.

ghost use Rattle.std.specs.Prelude.{◌≡◌};
ghost use Rattle.xml_model.specs.Names.{expanded, name_passes};
ghost use Rattle.vtd_words.specs.Table.{ForEachEntry, IsNodeOf, TableOf};
ghost use Rattle.vtd_namespaces.specs.NodeNames.{test_of, HasExpandedName};

use vtd_namespaces::{Resolver, matches};
use vtd_words::{Table, Words};
use xml_model::{NameTest, Node};

/// What finds out whether nodes pass name tests (XPath 1.0, section 2.3).
pub trait Names<W: Words> {
    // the documents whose names it knows
    ghost knows: { Self → TableOf W → Type 0 };

    /// Whether an element or an attribute passes a name test, by its expanded name.
    fn matches(&mut self, table: &Table<'_, W>, node: Node, test: &NameTest<'_>) -> bool
        requires knows { knows self.old table.now }
        requires node { IsNodeOf table.now.bytes (W.lists table.now.words) node }
        requires named { HasExpandedName node.kind }
        ensures knows { knows self.new table.now }
        ensures passes { ForEachEntry table.now.bytes (W.lists table.now.words) node (λ nest e.
            result ≡ name_passes (test_of test.now) (expanded e)) };
}

/// Looks for the declarations of a name's prefix where the name is met, back to the tags of the elements that hold it.
/// It keeps nothing, and costs nothing where no name is asked for. Where many names follow one another a `Resolver`
/// costs less.
#[derive(Clone, Copy)]
pub struct LookBack;

impl<W: Words> Names<W> for LookBack {
    ghost knows = { λ s t. Unit {0} };

    fn matches(&mut self, table: &Table<'_, W>, node: Node, test: &NameTest<'_>) -> bool {
        matches(table, node, test)
    }
}

impl<'t, 'a, W: Words> Names<W> for Resolver<'t, 'a, W> {
    ghost knows = { λ s t. s ≡ t };

    fn matches(&mut self, _table: &Table<'_, W>, node: Node, test: &NameTest<'_>) -> bool {
        Resolver::matches(self, node, test)
    }
}
