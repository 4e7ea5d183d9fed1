//! Laws of undoing and redoing. Each function does nothing; its contract is the law, which the check proves.

ghost use Rattle.vtd_revisions.specs.Laws.{UndoOfChange, RedoOfUndo, UndoOfRedo, OneUndone, OneRedone, SomeUndone};
ghost use Rattle.vtd_revisions.specs.Laws.{SomeRedone, SameReached};

/// `undo` after a change gives the revision from before it, `redo` after an `undo` the very state from before that, and
/// `undo` after a `redo` likewise. Neither changes which revisions they reach.
pub fn exactly_back()
    ensures undo { UndoOfChange }
    ensures redo { RedoOfUndo }
    ensures again { UndoOfRedo }
    ensures reached { SameReached }
{}

/// What `undo` and `redo` lead to is one state, and there is one where a change is kept.
pub fn one_state()
    ensures one_undone { OneUndone }
    ensures one_redone { OneRedone }
    ensures some_undone { SomeUndone }
    ensures some_redone { SomeRedone }
{}
