//! Laws over nests and the bytes that they spell. Each function does nothing; its contract is the law, which the check
//! proves.

ghost use Rattle.std.specs.Prelude.{◌≡◌, ◌++◌, ◌+◌, ℕ, suc, Bool, List, length, map, take, drop, Contains};
ghost use Rattle.xml_model.specs.Chars.{begins};
ghost use Rattle.xml_model.specs.Items.{byte_order_mark, first_place};
ghost use Rattle.xml_model.specs.Nest.{Forest, flat};
ghost use Rattle.xml_model.specs.Records.{records, forest_records, past_forest};
ghost use Rattle.xml_model.specs.Tree.{Entry, all, at_first};
ghost use Rattle.xml_model.specs.Accepted.{Accepted};
ghost use Rattle.xml_nests.specs.Fits.{document_of, spelled, Fits};
ghost use Rattle.xml_nests.specs.Moved.{moved};
ghost use Rattle.xml_nests.specs.Context.{Context, plug, level_in, place_in, records_before};
ghost use Rattle.xml_nests.specs.Stand.{NodeStands};

/// A nest that fits is the nest of the bytes that it spells.
pub fn accepted_from_nest()
    ensures { (k : ℕ) (marked : Bool) (nest : Forest) → Fits k nest → Accepted k (document_of marked nest) nest }
{}

/// The nest of a document fits.
pub fn fits_from_accepted()
    ensures { (k : ℕ) (bytes : List ℕ) (nest : Forest) → Accepted k bytes nest → Fits k nest }
{}

/// A document is what its nest spells.
pub fn document_is_spelled()
    ensures { (k : ℕ) (bytes : List ℕ) (nest : Forest) → Accepted k bytes nest →
        bytes ≡ document_of (begins byte_order_mark bytes) nest }
{}

/// Where pieces of a nest are exchanged for others, the records before them stay, and those after them have their
/// offsets moved.
pub fn records_are_exchanged()
    ensures { (first : ℕ) (c : Context) (g h : Forest) →
        let l = level_in 0 c in
        let at = place_in first c in
        let start = suc (length (records_before 0 first c)) in
        let old = records (plug c g) first in
        records (plug c h) first ≡ take start old
        ++ (forest_records l at h
        ++ map (moved (past_forest at g) (past_forest at h)) (drop (start + length (forest_records l at g)) old)) }
{}

/// Where pieces of a document are exchanged for others, the bytes before them and those after them stay.
pub fn bytes_are_exchanged()
    ensures { (k : ℕ) (bytes : List ℕ) (c : Context) (g h : Forest) → Accepted k bytes (plug c g) →
        let start = place_in (first_place bytes) c in
        document_of (begins byte_order_mark bytes) (plug c h)
        ≡ take start bytes ++ (spelled (flat h) ++ drop (past_forest start g) bytes) }
{}

/// Each text and each element of a nest has its pieces in the nest: where they begin and end, in which tags, and which
/// record is their first.
pub fn nodes_stand()
    ensures { (nest : Forest) (first : ℕ) (e : Entry) → Contains (all nest first) e →
        NodeStands (at_first first) nest e }
{}
