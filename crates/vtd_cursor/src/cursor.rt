//! A place among the nodes of a document, with moves.

ghost use Rattle.std.specs.Prelude.{◌≡◌, ◌≤◌, ◌<◌, ◌↔◌, ◌++◌, ◌∷◌, [], List, length, filter, true, false, Contains};
ghost use Rattle.std.specs.Prelude.{None, IfSome, OnOk, OnErr};
ghost use Rattle.xml_model.specs.declared.Axis.TheVariants as axes;
ghost use Rattle.xml_model.specs.Nest.{Forest};
ghost use Rattle.xml_model.specs.Tree.{axis_list, before, on_axis, Entry, Identifies};
ghost use Rattle.vtd_words.specs.Table.{ForEachEntry, IsNestOf, IsNodeOf, nodes_of};
ghost use Rattle.vtd_location.specs.Nav.{IsNav};
ghost use Rattle.vtd_cursor.specs.Moves.{first_of, last_of, root_node, Goes};

use crate::neighbours::{
    first_attribute_of, first_child_of, last_child_of, next_attribute_of, next_of, parent_of,
    previous_of,
};
use smallvec::SmallVec;
use std::alloc::Global;
use std::marker::Model;
use vtd_location::Nav;
use vtd_words::{Table, Words};
use xml_model::{Kind, NoMemory, Node};

/// The root.
const ROOT: Node = Node {
    kind: Kind::Root,
    at: 0,
};

/// A saved node.
#[derive(Clone, Copy)]
struct Place {
    node: Node,
}

/// The root fills the places where no node is saved.
impl Default for Place {
    ghost is_default = { λ p. p.node ≡ root_node };

    fn default() -> Place {
        Place { node: ROOT }
    }
}

/// A node of a document that one can move from, with nodes that were saved to come back to.
#[derive(Drop)]
pub struct Cursor<'n, 'a, W: Words> {
    table: &'n Table<'a, W>,
    node: Node,
    saved: SmallVec<Place, 16>,
}

impl<'n, 'a, W: Words> Model for Cursor<'n, 'a, W> {
    ghost use Rattle.std.specs.Prelude.{map};
    ghost use Rattle.vtd_cursor.specs.Moves.{CursorOf, IsCursor};

    ghost Value = { CursorOf W };

    ghost view = { λ c. record {
      bytes = c.table.now.bytes;
      words = c.table.now.words;
      node = c.node;
      saved = map (λ p. p.node) c.saved.items;
    } };

    ghost invariant = { λ c. IsCursor c.table.now.bytes (W.lists c.table.now.words) c.node
        (map (λ p. p.node) c.saved.items) c.saved.capacity };
}

impl<'n, 'a, W: Words> Cursor<'n, 'a, W> {
    /// A cursor on the root of a document, with no node saved.
    pub fn new(alloc: Global, nav: &'n Nav<'a, W>) -> Cursor<'n, 'a, W>
        ensures { result ≡ record {
          bytes = nav.entry.now.bytes;
          words = nav.entry.now.words;
          node = root_node;
          saved = [];
        } }
    {
        Cursor {
            table: nav.table(),
            node: ROOT,
            saved: SmallVec::new(alloc),
        }
    }

    /// The node.
    pub fn node(&self) -> Node
        ensures value { result ≡ self.now.node }
        ensures node { IsNodeOf self.now.bytes (W.lists self.now.words) result }
    {
        self.node
    }

    /// Moves to the root.
    pub fn to_root(&mut self)
        ensures { self.new ≡ record self.old { node = root_node } }
    {
        self.node = ROOT;
    }

    /// Moves to the parent; false, with nothing moved, exactly at the root.
    pub fn to_parent(&mut self) -> bool
        ensures { ForEachEntry self.old.bytes (W.lists self.old.words) self.old.node (λ nest e.
            Goes (first_of (axis_list axes.Parent e.path (nodes_of self.old.bytes nest))) self.old result self.new) }
    {
        let target = parent_of(self.table, self.node);
        self.go(target)
    }

    /// Moves to the first child; false, with nothing moved, exactly where there is none.
    pub fn to_first_child(&mut self) -> bool
        ensures { ForEachEntry self.old.bytes (W.lists self.old.words) self.old.node (λ nest e.
            Goes (first_of (axis_list axes.Child e.path (nodes_of self.old.bytes nest))) self.old result self.new) }
    {
        let target = first_child_of(self.table, self.node);
        self.go(target)
    }

    /// Moves to the last child; false, with nothing moved, exactly where there is none.
    pub fn to_last_child(&mut self) -> bool
        ensures { ForEachEntry self.old.bytes (W.lists self.old.words) self.old.node (λ nest e.
            Goes (last_of (axis_list axes.Child e.path (nodes_of self.old.bytes nest))) self.old result self.new) }
    {
        let target = last_child_of(self.table, self.node);
        self.go(target)
    }

    /// Moves to the next sibling; false, with nothing moved, exactly where there is none. An attribute has no siblings.
    pub fn to_next(&mut self) -> bool
        ensures { ForEachEntry self.old.bytes (W.lists self.old.words) self.old.node (λ nest e.
            Goes (first_of (axis_list axes.FollowingSibling e.path
            (nodes_of self.old.bytes nest))) self.old result self.new) }
    {
        let target = next_of(self.table, self.node);
        self.go(target)
    }

    /// Moves to the sibling before this one; false, with nothing moved, exactly where there is none. An attribute has
    /// no siblings.
    pub fn to_previous(&mut self) -> bool
        ensures { ForEachEntry self.old.bytes (W.lists self.old.words) self.old.node (λ nest e.
            Goes (first_of (axis_list axes.PrecedingSibling e.path
            (nodes_of self.old.bytes nest))) self.old result self.new) }
    {
        let target = previous_of(self.table, self.node);
        self.go(target)
    }

    /// Moves to the first attribute; false, with nothing moved, exactly where there is none.
    pub fn to_first_attribute(&mut self) -> bool
        ensures { ForEachEntry self.old.bytes (W.lists self.old.words) self.old.node (λ nest e.
            Goes (first_of (axis_list axes.Attribute e.path (nodes_of self.old.bytes nest))) self.old result self.new) }
    {
        let target = first_attribute_of(self.table, self.node);
        self.go(target)
    }

    /// Moves from an attribute to the next of its element; false, with nothing moved, exactly where there is none,
    /// and at what is no attribute.
    pub fn to_next_attribute(&mut self) -> bool
        ensures attribute { ForEachEntry self.old.bytes (W.lists self.old.words) self.old.node (λ nest e.
            (z : Entry) → Contains (nodes_of self.old.bytes nest) z → on_axis axes.Attribute z.path e.path ≡ true →
            Goes (first_of (filter (λ y. before e.path y.path)
            (axis_list axes.Attribute z.path (nodes_of self.old.bytes nest)))) self.old result self.new) }
        ensures other { (self.old.node.kind ≡ Kind.Attribute → ⊥) → Goes None self.old result self.new }
    {
        let target = next_attribute_of(self.table, self.node);
        self.go(target)
    }

    /// Saves the node; `NoMemory` comes only where at least 16 nodes are saved, and then all stays as it was.
    pub fn push(&mut self) -> Result<(), NoMemory>
        ensures ok { OnOk result (self.new ≡ record self.old { saved = self.old.saved ++ self.old.node ∷ [] }) }
        ensures full { OnErr result (16 ≤ length self.old.saved) }
        ensures stays { OnErr result (self.new ≡ self.old) }
    {
        match self.saved.push(Place { node: self.node }) {
            Ok(()) => Ok(()),
            Err(_) => Err(NoMemory),
        }
    }

    /// Goes back to the node that was saved last, which is then no longer saved; false, with nothing moved, exactly
    /// where none is saved.
    pub fn pop(&mut self) -> bool
        ensures none { (result ≡ false) ↔ (self.old.saved ≡ []) }
        ensures back { result ≡ true →
            self.old ≡ record self.new { node = self.old.node; saved = self.new.saved ++ self.new.node ∷ [] } }
        ensures stays { result ≡ false → self.new ≡ self.old }
    {
        match self.saved.pop() {
            Some(place) => {
                self.node = place.node;
                true
            }
            None => false,
        }
    }

    /// Moves to a node, if there is one.
    fn go(&mut self, target: Option<Node>) -> bool
        requires { IfSome target (IsNodeOf self.old.bytes (W.lists self.old.words)) }
        ensures { Goes target self.old result self.new }
    {
        match target {
            Some(node) => {
                self.node = node;
                true
            }
            None => false,
        }
    }
}
