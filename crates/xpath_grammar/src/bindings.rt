//! Bindings of prefixes to URIs.

use crate::held::{can_bind, find, put};
use std::alloc::{AllocError, Global};
use std::collections::BTreeMap;
use std::marker::Model;
use thiserror::Error;
use xml_model::Text;
use xml_model::texts::same_str;

/// The URI that the prefix `xml` is bound to (Namespaces in XML 1.0, section 3).
const XML: &str = "http://www.w3.org/XML/1998/namespace";

/// Why a prefix is not bound.
#[derive(Clone, Copy, Debug, PartialEq, Error)]
pub enum BindFault {
    /// The prefix is no NCName, or is `xml` or `xmlns`, or the URI is empty.
    #[error("the prefix cannot be bound to that URI")]
    Name,
    /// Memory was not to be had.
    #[error("no memory")]
    NoMemory,
}

impl From<AllocError> for BindFault {
    ghost use Rattle.std.specs.Prelude.{◌≡◌};
    ghost use Rattle.xpath_grammar.specs.declared.bindings.BindFault.TheVariants.{NoMemory};

    ghost from_gives = { λ _ e. e ≡ NoMemory };

    fn from(_e: AllocError) -> BindFault {
        BindFault::NoMemory
    }
}

/// The prefixes that an expression may use, with their URIs (XPath 1.0, section 1). Contracts see the list of the
/// prefixes that were set, each once with its URI, in the order of the prefixes' UTF-8; `xml` is bound always, and is
/// in no list. Each prefix may be bound to its URI.
#[derive(Drop)]
pub struct Bindings {
    alloc: Global,
    held: BTreeMap<String, Text>,
}

impl Model for Bindings {
    ghost use Rattle.std.specs.Prelude.{List, ℕ};
    ghost use Rattle.xpath_grammar.specs.Bindings.{AreBound};
    ghost use Rattle.xpath_grammar.specs.Held.{shown};

    ghost Value = { List (List ℕ × List ℕ) };

    ghost view = { λ b. shown b.held.entries };

    ghost invariant = { λ b. AreBound (shown b.held.entries) };
}

impl Bindings {
    ghost use Rattle.std.specs.Prelude.{◌≡◌, ◌↔◌, [], false, Err, OnOk, OnErr, option_map};
    ghost use Rattle.std.specs.Str.{chars};
    ghost use Rattle.xpath_grammar.specs.declared.bindings.BindFault.TheVariants.{Name};
    ghost use Rattle.xpath_grammar.specs.Bindings.{uri_in, can_bind, bound_in, AreBound};

    /// Bindings of the prefix `xml` alone. It takes no memory.
    pub fn new(alloc: Global) -> Bindings
        ensures { result ≡ [] }
    {
        Bindings {
            alloc,
            held: BTreeMap::new(alloc),
        }
    }

    /// Binds a prefix to a URI, in place of an earlier binding. It takes logarithmic time in the number of prefixes.
    ///
    /// # Errors
    /// `Name` exactly where the prefix is no NCName, or is `xml` or `xmlns`, or the URI is empty; `NoMemory`.
    /// After an error the bindings are unchanged.
    pub fn set(&mut self, prefix: &str, uri: &str) -> Result<(), BindFault>
        ensures name { (result ≡ Err Name) ↔ (can_bind (chars prefix.now) (chars uri.now) ≡ false) }
        ensures bound { OnOk result (self.new ≡ bound_in self.old (chars prefix.now) (chars uri.now)) }
        ensures unchanged { OnErr result (self.new ≡ self.old) }
    {
        if !can_bind(prefix, uri) {
            return Err(BindFault::Name);
        }
        put(self.alloc, &mut self.held, prefix, uri)?;
        Ok(())
    }

    /// The URI that a prefix is bound to; None exactly where it is not bound. It takes logarithmic time in the number
    /// of prefixes, and no memory.
    pub fn uri_of(&self, prefix: &str) -> Option<&str>
        ensures uri { option_map (λ uri. chars uri.now) result ≡ uri_in self.now (chars prefix.now) }
        ensures bound { AreBound self.now }
    {
        let held = &self.held;
        if same_str("xml", prefix) {
            return Some(XML);
        }
        find(held, prefix)
    }
}
