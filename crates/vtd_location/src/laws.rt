//! Laws of documents that are accepted whole. Each function does nothing; its contract is the law, which the check
//! proves. Other crates cite the lemmas of `proofs/NavLaws.antt`, which say the same.

ghost use Rattle.std.specs.Prelude.{◌≡◌, ℕ, ◌<◌, ◌≤◌, ◌^◌, true, List, length};
ghost use Rattle.xml_model.specs.Items.{first_place};
ghost use Rattle.xml_model.specs.Levels.{is_element};
ghost use Rattle.xml_model.specs.Nest.{Forest};
ghost use Rattle.xml_model.specs.Tree.{Entry};
ghost use Rattle.xml_model.specs.Laws.{IsNode};
ghost use Rattle.vtd_words.specs.Lists.{Lists};
ghost use Rattle.vtd_words.specs.Table.{IsNestOf, IsTable};
ghost use Rattle.vtd_location.specs.Children.{IsLeveled, TellsChildren};
ghost use Rattle.vtd_location.specs.Nav.{IsNav, IsNavOf};

/// The nest of a document that is accepted whole is its nest as a table.
pub fn nav_nest_of_table()
    ensures { (bytes : List ℕ) (lists : Lists) (nest : Forest) → IsNavOf bytes lists nest → IsNestOf bytes lists nest }
{}

/// A document that is accepted whole is a table.
pub fn nav_is_table()
    ensures { (bytes : List ℕ) (lists : Lists) → IsNav bytes lists → IsTable bytes lists }
{}

/// The levels of a document that is accepted whole are those of its records, which are nested.
pub fn nav_is_leveled()
    ensures { (bytes : List ℕ) (lists : Lists) → IsNav bytes lists → IsLeveled lists }
{}

/// Of an element that at most four others hold, `child_elements` tells the child elements that it has in the tree.
pub fn children_of_tree()
    ensures { (bytes : List ℕ) (lists : Lists) (nest : Forest) → length bytes < 2 ^ 30 → IsNavOf bytes lists nest →
        (x : Entry) → IsNode nest (first_place bytes) x → is_element x.what ≡ true → length x.holders ≤ 4 →
        TellsChildren bytes lists nest x }
{}
