//! A flag for each level.

ghost use Rattle.std.specs.Prelude.{◌≡◌, ℕ, ◌≤◌, false, cond, ◌==◌};
ghost use Rattle.xpath_steps.specs.Waits.{flagged};

use std::marker::Model;

/// A flag for each level of nodes, from 0 to 256. Contracts see the list of them.
#[derive(Drop)]
pub struct Flags {
    flags: [bool; 257],
}

impl Model for Flags {
    ghost use Rattle.std.specs.Prelude.{List, Bool};

    ghost Value = { List Bool };

    ghost view = { λ f. f.flags };
}

impl Flags {
    /// No flag.
    pub fn new() -> Flags
        ensures { (level : ℕ) → flagged result level ≡ false }
    {
        Flags {
            flags: [false; 257],
        }
    }

    /// Whether a level has its flag.
    pub fn has(&self, level: u32) -> bool
        requires { level ≤ 256 }
        ensures { result ≡ flagged self.now level }
    {
        self.flags[level as usize]
    }

    /// Sets or clears the flag of a level.
    pub fn put(&mut self, level: u32, flag: bool)
        requires { level ≤ 256 }
        ensures { (l : ℕ) → flagged self.new l ≡ cond (l == level) flag (flagged self.old l) }
    {
        self.flags[level as usize] = flag;
    }
}
