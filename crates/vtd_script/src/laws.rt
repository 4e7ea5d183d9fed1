//! Laws of what scripts mean. Each function does nothing; its contract is the law, which the check proves.

ghost use Rattle.std.specs.Prelude.{◌⊎◌, ◌≡◌, ℕ, List, Bool, Some};
ghost use Rattle.vtd_listing.specs.Escapes.{escaped};
ghost use Rattle.vtd_lines.specs.Fields.{unescaped};
ghost use Rattle.vtd_outside.specs.Causes.{Rose};
ghost use Rattle.vtd_outside.specs.Known.{NameMap};
ghost use Rattle.vtd_script.specs.States.{State, Answer, state_after};
ghost use Rattle.vtd_script.specs.Steps.{Step, HasDocument};
ghost use Rattle.vtd_script.specs.Runs.{Outcome, Means, Ends};
ghost use Rattle.vtd_script.specs.declared.endings.End.{End};
ghost use Rattle.vtd_script.specs.declared.endings.End.TheVariants.{NoMemory};

/// What `value` prints of a string, a field of a script gives back.
#[tactic(auto, using(crate::proofs::EscapeLaws::escaped_back))]
pub fn escaped_back()
    ensures { (text : List ℕ) → unescaped (escaped text) ≡ Some text }
{}

/// A line has at most one answer in a state.
#[tactic(auto, using(crate::proofs::StepLaws::one_step))]
pub fn one_answer()
    ensures { (s : State) (line : List ℕ) (a b : Answer) → Step s line a → Step s line b → a ≡ b }
{}

/// A line has some answer in each state that has a document, and leaves such a state.
pub fn some_step()
    ensures { (s : State) (line : List ℕ) → HasDocument s →
        (a : Answer) × Step s line a × HasDocument (state_after s a) }
{}

/// Lines mean at most one outcome from a state.
#[tactic(auto, using(crate::proofs::RunLaws::one_meaning))]
pub fn one_outcome()
    ensures { (keep : Bool) (s : State) (lines : List (List ℕ)) (m n : Outcome) →
        Means keep s lines m → Means keep s lines n → m ≡ n }
{}

/// Lines mean some outcome from each state that has a document.
pub fn some_meaning()
    ensures { (keep : Bool) (s : State) (lines : List (List ℕ)) → HasDocument s →
        (m : Outcome) × Means keep s lines m }
{}

/// A run in which no count of faults rose ends with exactly what the lines mean, or for want of memory.
pub fn exact()
    ensures { (proper_before proper faults_before faults : ℕ) (keep : Bool) (s : State) (lines : List (List ℕ))
        (end : End) (out : List ℕ) (files : NameMap) → ¬ Rose proper_before proper → ¬ Rose faults_before faults →
        Ends (Rose proper_before proper) (Rose faults_before faults) keep s lines end out files →
        (end ≡ NoMemory) ⊎ Means keep s lines (record { out = out; files = files; end = end }) }
{}
