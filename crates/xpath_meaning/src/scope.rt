//! What an expression is evaluated over, and where.

ghost use Rattle.std.specs.Prelude.{◌≡◌};
ghost use Rattle.vtd_location.specs.Nav.{IsNav};

use std::alloc::Global;
use std::marker::Model;
use vtd_location::Nav;
use vtd_words::{Table, Words};
use xml_model::Node;
use xpath_grammar::Bindings;
use xpath_values::Value;

/// A document with its records, and the prefixes that are bound.
#[derive(Drop)]
pub struct Scope<'n, 'a, W: Words> {
    pub nav: &'n Nav<'a, W>,
    pub bindings: &'n Bindings,
    pub alloc: Global,
}

impl<'n, 'a, W: Words> Model for Scope<'n, 'a, W> {
    ghost use Rattle.xpath_meaning.specs.Scope.{ScopeOf};

    ghost Value = { ScopeOf };

    ghost view = { λ s. record {
      bytes = s.nav.now.bytes;
      lists = W.lists s.nav.now.words;
      bindings = s.bindings.now;
    } };
}

/// The document's bytes and records, with the look-ups over them.
pub fn table_of<'s, 'n, 'a, W: Words>(scope: &'s Scope<'n, 'a, W>) -> &'n Table<'a, W>
    ensures bytes { result.now.bytes ≡ scope.now.bytes }
    ensures lists { W.lists result.now.words ≡ scope.now.lists }
    ensures nav { IsNav scope.now.bytes scope.now.lists }
{
    scope.nav.table()
}

/// The context node with its position, from 1 on, and the context size.
#[derive(Clone, Copy)]
pub struct Place {
    pub node: Node,
    pub position: usize,
    pub size: usize,
}

/// Values, which contracts see as a list.
#[derive(Drop)]
pub struct Values {
    pub held: Vec<Value>,
}

impl Model for Values {
    ghost use Rattle.std.specs.Prelude.{List};
    ghost use Rattle.xpath_values.specs.declared.Value.{Value as Held};

    ghost Value = { List Held };

    ghost view = { λ v. v.held.items };
}
