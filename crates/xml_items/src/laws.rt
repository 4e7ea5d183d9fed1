//! Laws over the definitions of items.
#![tactic(auto)]

ghost use Rattle.std.specs.Prelude.{◌≡◌, List, ℕ, true};
ghost use Rattle.xml_model.specs.Items.{Item, begins_at};

/// At most one item begins at a place.
pub fn one_item()
    ensures { (bytes : List ℕ) (at : ℕ) (i j : Item) → begins_at bytes at i ≡ true → begins_at bytes at j ≡ true →
        i ≡ j }
{}
