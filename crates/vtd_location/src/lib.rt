//! Documents that are accepted whole, ready to be walked, with their location caches: what every call above the records
//! takes.
#![tactic(auto)]

ghost use Rattle.std.specs.Prelude.{◌≡◌, List, ℕ};
ghost use Rattle.vtd_location.specs.Children.{IsLeveled};
ghost use Rattle.vtd_location.specs.Nav.{IsNav};

use std::marker::Model;
use vtd_words::{Meter, Table, Words};

mod checking;
mod checking_one;
mod children;
mod filling;
pub mod laws;

pub use checking::{CacheDiff, check_levels};
pub use checking_one::check_levels_one;
pub use children::{Children, child_elements};
pub use filling::{count_levels, fill_levels};

/// A document with its records and levels, of which it is known that no check of a document refuses it.
#[derive(Drop)]
pub struct Nav<'a, W: Words> {
    table: Table<'a, W>,
}

impl<'a, W: Words> Model for Nav<'a, W> {
    ghost use Rattle.vtd_words.specs.Table.{TableOf};
    ghost use Rattle.vtd_location.specs.Nav.{IsNav};

    ghost Value = { TableOf W };

    ghost view = { λ n. n.table };

    ghost invariant = { λ n. IsNav n.table.bytes (W.lists n.table.words) };
}

impl<'a, W: Words> Nav<'a, W> {
    /// The document of a table that is accepted whole, beside the levels of its records.
    pub fn of(table: Table<'a, W>) -> Nav<'a, W>
        requires { IsNav table.bytes (W.lists table.words) }
        ensures { result ≡ table.entry }
    {
        Nav { table }
    }

    /// The document's bytes and records, with the look-ups over them.
    pub fn table(&self) -> &Table<'a, W>
        ensures value { result.now ≡ self.now }
        ensures nav { IsNav self.now.bytes (W.lists self.now.words) }
    {
        &self.table
    }

    /// The document's records and levels, to be read with a count that begins at 0.
    pub fn meter(&self) -> Meter<'a, W>
        ensures lists { result.lists ≡ W.lists self.now.words }
        ensures reads { result.reads ≡ 0 }
        ensures nav { IsNav self.now.bytes result.lists }
        ensures leveled { IsLeveled result.lists }
    {
        Meter::over(self.table.words())
    }
}
