//! What takes the words of records.

ghost use Rattle.std.specs.Prelude.{◌≡◌, ℕ, Bool, List, [], ◌∷◌, ◌++◌, not};
ghost use Rattle.std.specs.Bool.{OnTrue, OnFalse};

/// What takes the words of records, one after another, and may refuse one.
///
/// `taken` is the list of the words that it has taken. `refuses` is its test on a list and a word, and `rest` what else
/// it holds, as numbers: no call changes these two.
pub trait RecordSink {
    ghost taken: { Self → List ℕ };

    ghost rest: { Self → List ℕ };

    ghost refuses: { Self → List ℕ → ℕ → Bool };

    /// Takes a word, or answers false exactly where the test refuses it after the words taken so far; nothing is taken
    /// then.
    fn take(&mut self, word: u64) -> bool
        ensures answer { result ≡ not (refuses self.old (taken self.old) word) }
        ensures appended { OnTrue result (taken self.new ≡ taken self.old ++ word ∷ []) }
        ensures stays { OnFalse result (taken self.new ≡ taken self.old) }
        ensures rest { rest self.new ≡ rest self.old }
        ensures test { refuses self.new ≡ refuses self.old };
}
