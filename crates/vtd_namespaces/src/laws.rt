//! Laws of names; each function does nothing, and its contract is the law.

ghost use Rattle.std.specs.Prelude.{◌≡◌, ℕ, ◌+◌, ◌≤◌, List, None};
ghost use Rattle.std.specs.List.{Contains};
ghost use Rattle.xml_model.specs.Items.{first_place, Tag};
ghost use Rattle.xml_model.specs.Names.{declaration_of, nearest, scope};
ghost use Rattle.xml_model.specs.Nest.{Forest};
ghost use Rattle.xml_model.specs.Records.{records};
ghost use Rattle.xml_model.specs.Tree.{Entry, Thing};
ghost use Rattle.vtd_words.specs.Lists.{Lists};
ghost use Rattle.vtd_words.specs.Table.{IsNestOf, nodes_of};
ghost use Rattle.vtd_namespaces.specs.Undeclared.{NoneDeclares};

/// Where no record is of a declaration's name, no prefix is declared for any node, and no default namespace: so
/// `declarations_end` answers 0, and a name test costs its bytes.
pub fn plain_documents()
    ensures { (bytes : List ℕ) (lists : Lists) (nest : Forest) → IsNestOf bytes lists nest →
        NoneDeclares (records nest (first_place bytes)) 0 →
        (e : Entry) → Contains (nodes_of bytes nest) e → (p : List ℕ) → nearest p (scope e) ≡ None }
{}

/// Where no record after an element's first one is of a declaration's name, the element's tag declares nothing: so
/// where only the root element's tag declares, no other tag is looked at.
pub fn undeclared_tags()
    ensures { (bytes : List ℕ) (lists : Lists) (nest : Forest) → IsNestOf bytes lists nest →
        (n : ℕ) → NoneDeclares (records nest (first_place bytes)) n →
        (e : Entry) → Contains (nodes_of bytes nest) e → (t : Tag) (inside : Forest) → e.what ≡ Thing.element t inside →
        n ≤ e.index + 1 → (p : List ℕ) → declaration_of p t ≡ None }
{}
