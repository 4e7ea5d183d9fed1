//! Laws of what words, files and scripts mean. Each function does nothing; its contract is the law, which the check
//! proves.

ghost use Rattle.std.specs.Prelude.{◌≡◌, ℕ, List};
ghost use Rattle.vtd_outside.specs.Known.{NameMap};
ghost use Rattle.vtd_running.specs.Form.{Form};
ghost use Rattle.vtd_running.specs.Meaning.{Means, Outcome};

/// Words, files and a script mean at most one outcome.
pub fn one_outcome()
    ensures { (asked : Form) (files : NameMap) (script : List ℕ) (m n : Outcome) →
        Means asked files script m → Means asked files script n → m ≡ n }
{}

/// They mean some outcome.
pub fn some_meaning()
    ensures { (asked : Form) (files : NameMap) (script : List ℕ) → (m : Outcome) × Means asked files script m }
{}
