//! Laws of values, over their definitions alone. Each function is empty: its contract is the law.

ghost use Rattle.std.specs.Prelude.{◌≡◌, IfOk, List, fold, ℕ};
ghost use Rattle.xpath_values.specs.Numbers.{IsNumber, number_of_text, sum_of};
ghost use Rattle.xpath_values.specs.Reading.{read_next, read_start, read_value};
ghost use Rattle.xpath_values.specs.Sums.{sum_next, sum_start, sum_value};
ghost use Rattle.xpath_values.specs.declared.Number.{Number};

/// A reader of a text's characters, from the first to the last, finds the text's number.
#[tactic(auto, using(crate::proofs::ReadLemmas::read_number))]
pub fn number_read()
    ensures { (t : List ℕ) → read_value (fold read_next read_start t) ≡ number_of_text t }
{}

/// The number of a text is in range.
#[tactic(auto, using(crate::proofs::RangeLemmas::number_fits))]
pub fn number_fits()
    ensures { (t : List ℕ) → IfOk (number_of_text t) IsNumber }
{}

/// Numbers taken one after another come to their sum.
#[tactic(auto, using(crate::proofs::SumLemmas::sum_found))]
pub fn sum_found()
    ensures { (xs : List Number) → sum_value (fold sum_next sum_start xs) ≡ sum_of xs }
{}
