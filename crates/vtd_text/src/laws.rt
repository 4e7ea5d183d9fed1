//! Laws of the records that are names of attributes. Each function does nothing; its contract is the law, which the
//! check proves. Other crates cite the lemmas of `proofs/NameFacts.antt` and `proofs/OneName.antt`, which say the same.
#![tactic(auto)]

ghost use Rattle.std.specs.Prelude.{◌≡◌, ℕ, List, true};
ghost use Rattle.xml_model.specs.Items.{Attribute, first_place};
ghost use Rattle.xml_model.specs.Nest.{Forest};
ghost use Rattle.xml_model.specs.Records.{records};
ghost use Rattle.xml_model.specs.Scan.{record_at};
ghost use Rattle.vtd_words.specs.Lists.{Lists};
ghost use Rattle.vtd_words.specs.Table.{IsNestOf};
ghost use Rattle.vtd_text.specs.NameRecords.{HasName, IsNameOf, is_attribute_name};

/// Each record of the type 2 or 3 is the name of an attribute or of a declaration of a namespace.
pub fn some_name()
    ensures { (bytes : List ℕ) (nest : Forest) (at : ℕ) →
        is_attribute_name (record_at at (records nest (first_place bytes))).token ≡ true → HasName bytes nest at }
{}

/// A record of a table is the name of at most one attribute or declaration of a namespace.
pub fn one_name()
    ensures { (bytes : List ℕ) (lists : Lists) (nest : Forest) → IsNestOf bytes lists nest →
        (at : ℕ) (a b : Attribute) → IsNameOf bytes nest at a → IsNameOf bytes nest at b → a ≡ b }
{}
