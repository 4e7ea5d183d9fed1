//! Laws of steps and of what they lead to. Each function does nothing; its contract is the law, which the check proves.

ghost use Rattle.vtd_history.specs.Laws.{BackAndBack, OneOfBytes, RedoesChange, UndoesChange};

/// The inverse step leads back from where a step leads, and its own inverse is the step.
pub fn back_and_back()
    ensures { BackAndBack }
{}

/// Where a change was kept, `undo` gives the version from before it, and `redo` then the version from after it.
pub fn exactly_back()
    ensures undo { UndoesChange }
    ensures redo { RedoesChange }
{}

/// A document's bytes tell its records and levels, so two documents of the same bytes are the same.
pub fn one_of_bytes()
    ensures { OneOfBytes }
{}
