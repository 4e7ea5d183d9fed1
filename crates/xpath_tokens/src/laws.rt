//! Laws of the tokens, over their definitions alone. Each function is empty: its contract is the law.

ghost use Rattle.std.specs.Prelude.{◌≡◌, ℕ, List, Bool, fold};
ghost use Rattle.xpath_tokens.specs.declared.Token.{Token};
ghost use Rattle.xpath_tokens.specs.Tokens.{Splits};
ghost use Rattle.xpath_tokens.specs.Numbers.{number_value};
ghost use Rattle.xpath_tokens.specs.Scanning.{scan_next, scan_start, scan_value};

/// A text splits into at most one list of tokens.
pub fn one_split()
    ensures { (after : Bool) (text : List ℕ) (ts us : List Token)
        → Splits after text ts → Splits after text us → ts ≡ us }
{}

/// A scan of a spelling from its first character to its last finds the number that it stands for.
#[tactic(auto, using(crate::proofs::SpelledNumbers::scanned))]
pub fn scanned_number()
    ensures { (t : List ℕ) → scan_value (fold scan_next scan_start t) ≡ number_value t }
{}
