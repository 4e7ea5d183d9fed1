//! Laws of documents in which a text is set. Each function does nothing; its contract is the law, which the check
//! proves.

ghost use Rattle.std.specs.Prelude.{◌≡◌, ◌++◌, ◌∷◌, ℕ, List, true, false, length, map, Contains};
ghost use Rattle.std.specs.List.{list_all};
ghost use Rattle.std.specs.Str.{all_scalars};
ghost use Rattle.xml_model.specs.Chars.{is_char};
ghost use Rattle.xml_model.specs.Items.{Leaf, first_place};
ghost use Rattle.xml_model.specs.Nest.{Forest};
ghost use Rattle.xml_model.specs.Tree.{Thing, Entry, all};
ghost use Rattle.xml_model.specs.Records.{Record};
ghost use Rattle.xml_model.specs.Levels.{record_level, tags_from};
ghost use Rattle.xml_model.specs.Accepted.{Accepted, IsRefusal};
ghost use Rattle.xml_model.specs.declared.DocFault.TheVariants as faults;
ghost use Rattle.xml_nests.specs.Moved.{moved};
ghost use Rattle.xml_patches.specs.Renumbered.{renumbered, renumbered_entry, is_tagless};
ghost use Rattle.xml_patches.specs.Patched.{exchanged, text_bytes, TextPatched};

/// A text node of a document is set to a text of Chars alone: the bytes with the text in the place of the node's are a
/// document, and its records are the old ones, with those of the text, none for an empty one, in the place of the
/// node's, and those after them moved.
pub fn text_is_set()
    ensures { (k : ℕ) (bytes : List ℕ) (nest : Forest) (e : Entry) (xs : List Leaf) (cs : List ℕ) →
        Accepted k bytes nest → Contains (all nest (first_place bytes)) e → e.what ≡ Thing.text xs →
        list_all is_char cs ≡ true → TextPatched k bytes nest e xs cs }
{}

/// A text node of a document is set to a text with a character that is no Char: the bytes are refused for their syntax
/// at the node's start.
pub fn text_is_refused()
    ensures { (k : ℕ) (bytes : List ℕ) (nest : Forest) (e : Entry) (xs : List Leaf) (ts more : List ℕ) (c : ℕ) →
        Accepted k bytes nest → Contains (all nest (first_place bytes)) e → e.what ≡ Thing.text xs →
        all_scalars (ts ++ c ∷ more) ≡ true → list_all is_char ts ≡ true → is_char c ≡ false →
        IsRefusal (exchanged bytes e.start e.stop (text_bytes (ts ++ c ∷ more))) (faults.Syntax e.start) }
{}

/// Where records that are no starting tags are exchanged for others, the levels of the records have the entries that
/// they had, with the indexes of the records after them renumbered.
pub fn levels_are_renumbered()
    ensures level { (k from to : ℕ) (before xs ys rest : List Record) → is_tagless xs ≡ true → is_tagless ys ≡ true →
        record_level k (before ++ (ys ++ map (moved from to) rest))
        ≡ map (renumbered_entry (length before) (length xs) (length ys)) (record_level k (before ++ (xs ++ rest))) }
    ensures last { (k from to : ℕ) (before xs ys rest : List Record) → is_tagless xs ≡ true → is_tagless ys ≡ true →
        tags_from k 0 (before ++ (ys ++ map (moved from to) rest))
        ≡ map (renumbered (length before) (length xs) (length ys)) (tags_from k 0 (before ++ (xs ++ rest))) }
{}
