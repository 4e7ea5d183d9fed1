//! Laws over the definitions. Each function does nothing; its contract is the law, which the check proves. Other crates
//! cite lemmas of `proofs/` that say the same, most of them in `NodeLaws`. `first` is the place of the first item.

ghost use Rattle.std.specs.Prelude.{◌≡◌, ℕ, List, true, false, map, not, ◌&&◌, ◌==◌, ◌≤◌, is_some, length, take};
ghost use Rattle.std.specs.Prelude.{IsUtf8};
ghost use Rattle.std.specs.List.{list_all};
ghost use Rattle.std.specs.List.Sorted.{IsStrictlyIncreasing};
ghost use Rattle.std.specs.Option.{option_map};
ghost use Rattle.xml_model.specs.declared.Axis.{Axis};
ghost use Rattle.xml_model.specs.declared.Axis.TheVariants as axes;
ghost use Rattle.xml_model.specs.declared.DocFault.{DocFault};
ghost use Rattle.xml_model.specs.Items.{Item, Leaf, first_place, meets, walk, walk_to_end};
ghost use Rattle.xml_model.specs.Nest.{Forest, flat, is_nest};
ghost use Rattle.xml_model.specs.Records.{Record, records, run_records};
ghost use Rattle.xml_model.specs.Tree.{Entry, all, at_index, axis_list, kind_of, on_axis, text};
ghost use Rattle.xml_model.specs.Scan.{begins_by_scan, end_by_scan, holder_by_scan, kind_by_scan, past_by_scan};
ghost use Rattle.xml_model.specs.Scan.{starts_by_scan, EndsAt};
ghost use Rattle.xml_model.specs.Accepted.{Accepted, AcceptedTo, IsDocument, IsRefusal};
ghost use Rattle.xml_model.specs.Levels.{at_depth, child_elements, child_tags, is_element, level_word};
ghost use Rattle.xml_model.specs.Levels.{levels, levels_one};
ghost use Rattle.xml_model.specs.Levels.{record_level, tags_from, tree_levels, tree_levels_one, AreNested};
ghost use Rattle.xml_model.specs.LevelScan.{level_from};
ghost use Rattle.xml_model.specs.Slots.{holder_indexes, slots_after};
ghost use Rattle.xml_model.specs.Wholes.{run_wholes, wholes};
ghost use Rattle.xml_model.specs.Laws.{by_indexes, holder_index, is_root_thing, list_by_indexes, FirstRecordShows};
ghost use Rattle.xml_model.specs.Laws.{HasParent, IsNode, OneItem, IndexesDecide, HasRecords, SiblingsDecide};

/// A list of items is the print of at most one nest.
pub fn one_nest()
    ensures { (f g : Forest) → flat f ≡ flat g → f ≡ g }
{}

/// Each item of a walk meets the productions of its kind, so that no text is empty.
pub fn items_meet()
    ensures { (bytes : List ℕ) (items : List Item) → walk bytes items ≡ true → list_all meets items ≡ true }
{}

/// Each item of a document meets the productions of its kind, so that no text is empty.
pub fn document_items_meet()
    ensures { (bytes : List ℕ) (nest : Forest) → IsDocument bytes nest → list_all meets (flat nest) ≡ true }
{}

/// Where at most one item begins at each place that a walk reaches, bytes are walked to their end by at most one list
/// of items.
pub fn one_walk()
    ensures { (bytes : List ℕ) → OneItem bytes →
        (is js : List Item) → walk_to_end bytes is ≡ true → walk_to_end bytes js ≡ true → is ≡ js }
{}

/// Where none of the first k layers refuses, a document with a nest is accepted so far with this nest.
pub fn accepted_where_none_refuses()
    ensures { (k : ℕ) (bytes : List ℕ) (nest : Forest) → 6 ≤ k → IsUtf8 bytes → IsDocument bytes nest →
        AcceptedTo bytes k → Accepted k bytes nest }
{}

/// Where at most one item begins at each place that a walk reaches, none of the first k layers refuses what is
/// accepted so far.
pub fn none_refuses_accepted()
    ensures { (k : ℕ) (bytes : List ℕ) (nest : Forest) → OneItem bytes → Accepted k bytes nest → AcceptedTo bytes k }
{}

/// Where at most one item begins at each place that a walk reaches, a document has at most one refusal: the first
/// layer that refuses does so with one fault, at one place.
pub fn one_refusal()
    ensures { (bytes : List ℕ) → OneItem bytes →
        (f g : DocFault) → IsRefusal bytes f → IsRefusal bytes g → f ≡ g }
{}

/// Along the tree, in document order, the indexes rise strictly.
pub fn indexes_rise()
    ensures { (nest : Forest) (first : ℕ) → IsStrictlyIncreasing (map (λ e. e.index) (all nest first)) }
{}

/// At most one node begins at an index, so a kind and an index stand for at most one.
pub fn one_node()
    ensures { (nest : Forest) (first : ℕ) (x y : Entry) → IsNode nest first x → IsNode nest first y →
        x.index ≡ y.index → x ≡ y }
{}

/// The records of a node are a part of all records, which begins at its index.
pub fn nodes_have_records()
    ensures { (nest : Forest) (first : ℕ) → is_nest nest ≡ true →
        (e : Entry) → IsNode nest first e → HasRecords (records nest first) e }
{}

/// Of the records of a text node one begins where the one before it ends exactly where both are of one text, or of one
/// CDATA section: where each that does is joined with the one before it, there is one for each of these.
pub fn tokens_by_places()
    ensures { (bytes : List ℕ) (nest : Forest) → IsDocument bytes nest →
        (e : Entry) → IsNode nest (first_place bytes) e → (xs : List Leaf) → e.what ≡ text xs →
        wholes (run_records (length e.holders) e.start xs) ≡ run_wholes (length e.holders) e.start xs }
{}

/// The first record of a node shows its kind and how many elements hold it.
pub fn first_record_shows()
    ensures { (nest : Forest) (first : ℕ) → is_nest nest ≡ true →
        (e : Entry) → IsNode nest first e → FirstRecordShows (records nest first) e }
{}

/// The records of a node end where a scan of the records from its index ends.
pub fn ends_by_scan()
    ensures { (nest : Forest) (first : ℕ) → is_nest nest ≡ true →
        (e : Entry) → IsNode nest first e → e.past ≡ past_by_scan (kind_of e.what) e.index (records nest first) }
{}

/// The records of the element whose first record has an index end where a scan of the records from there ends.
pub fn element_ends_by_scan()
    ensures { (nest : Forest) (first : ℕ) → is_nest nest ≡ true →
        (at : ℕ) → EndsAt nest first at (end_by_scan at (records nest first)) }
{}

/// Of two nodes one is under the other exactly where its index is in the other's range, and it is before the other in
/// document order exactly where its index is lower.
pub fn indexes_decide()
    ensures { (nest : Forest) (first : ℕ) (x y : Entry) → IsNode nest first x → IsNode nest first y →
        IndexesDecide x y }
{}

/// A node is on an axis of another exactly where their indexes say so.
pub fn axes_by_indexes()
    ensures { (nest : Forest) (first : ℕ) → is_nest nest ≡ true →
        (axis : Axis) (x y : Entry) → IsNode nest first x → IsNode nest first y →
        on_axis axis x.path y.path ≡ by_indexes axis x y }
{}

/// The nodes on an axis, in axis order, are those that the indexes say.
pub fn axis_lists_by_indexes()
    ensures { (nest : Forest) (first : ℕ) → is_nest nest ≡ true →
        (axis : Axis) (x : Entry) → IsNode nest first x →
        axis_list axis x.path (all nest first) ≡ list_by_indexes axis x (all nest first) }
{}

/// The siblings of a child are the other children of its parent, the later ones after it.
pub fn siblings_by_parent()
    ensures { (nest : Forest) (first : ℕ) → is_nest nest ≡ true →
        (z x y : Entry) → IsNode nest first z → IsNode nest first x → IsNode nest first y →
        on_axis axes.Child z.path x.path ≡ true → SiblingsDecide z x y }
{}

/// The parent of a node is the one whose first record a scan backwards finds; the root has none.
pub fn parent_by_scan()
    ensures { (nest : Forest) (first : ℕ) → is_nest nest ≡ true →
        (x y : Entry) → IsNode nest first x → IsNode nest first y →
        on_axis axes.Parent x.path y.path
        ≡ (not (is_root_thing x.what) && y.index == holder_by_scan x.index (records nest first)) }
{}

/// What a scan backwards from a node's first record finds is the first record of the nearest element that holds the
/// node, and index 0, the root's, where no element does.
pub fn holder_by_scan_decides()
    ensures { (nest : Forest) (first : ℕ) → is_nest nest ≡ true →
        (e : Entry) → IsNode nest first e → holder_by_scan e.index (records nest first) ≡ holder_index e.holders }
{}

/// Where each starting tag that is passed is put into the slot of its depth, the slots below the level of the next
/// record have the elements that hold what it begins, the outermost first.
pub fn holders_by_slots()
    ensures { (slots : List ℕ) → 255 ≤ length slots → (nest : Forest) (first : ℕ) → is_nest nest ≡ true →
        (e : Entry) → IsNode nest first e →
        take (length e.holders) (slots_after 0 slots (take e.index (records nest first))) ≡ holder_indexes e.holders }
{}

/// Every node but the root has a parent.
pub fn parent_exists()
    ensures { (nest : Forest) (first : ℕ) → is_nest nest ≡ true →
        (x : Entry) → IsNode nest first x → is_root_thing x.what ≡ false → HasParent nest first x }
{}

/// The indexes of the nodes are those of the records that begin a node.
pub fn indexes_by_scan()
    ensures { (nest : Forest) (first : ℕ) → is_nest nest ≡ true → list_all meets (flat nest) ≡ true →
        map (λ e. e.index) (all nest first) ≡ starts_by_scan (records nest first) }
{}

/// There is a node at an index exactly where the record with that index begins one, by the records round it.
pub fn begins_by_scan_decides()
    ensures { (nest : Forest) (first : ℕ) → is_nest nest ≡ true → list_all meets (flat nest) ≡ true →
        (n : ℕ) → is_some (at_index n (all nest first)) ≡ begins_by_scan n (records nest first) }
{}

/// The kind of the node at an index is that which the record with that index begins, by the records round it; there is
/// none where it begins none.
pub fn kind_by_scan_decides()
    ensures { (nest : Forest) (first : ℕ) → is_nest nest ≡ true → list_all meets (flat nest) ≡ true →
        (n : ℕ) → option_map (λ e. kind_of e.what) (at_index n (all nest first)) ≡ kind_by_scan n (records nest first) }
{}

/// The elements of a depth, by the tree, are the starting tags of that depth, by the records.
pub fn elements_of_depth()
    ensures { (nest : Forest) (first : ℕ) → is_nest nest ≡ true → list_all meets (flat nest) ≡ true →
        (depth : ℕ) → map (λ e. e.index) (at_depth depth (all nest first)) ≡ tags_from depth 0 (records nest first) }
{}

/// The levels of the records are those of the tree.
pub fn levels_by_records()
    ensures { (nest : Forest) (first : ℕ) → is_nest nest ≡ true → list_all meets (flat nest) ≡ true →
        tree_levels (all nest first) ≡ levels (records nest first) }
{}

/// The three levels of the records, as the first version of index files has them, are those of the tree.
pub fn levels_one_by_records()
    ensures { (nest : Forest) (first : ℕ) → is_nest nest ≡ true → list_all meets (flat nest) ≡ true →
        tree_levels_one (all nest first) ≡ levels_one (records nest first) }
{}

/// The child elements of an element, by the tree, are the starting tags one deeper among its records.
pub fn child_elements_by_records()
    ensures { (nest : Forest) (first : ℕ) → is_nest nest ≡ true → list_all meets (flat nest) ≡ true →
        (x : Entry) → IsNode nest first x → is_element x.what ≡ true →
        map (λ e. e.index) (child_elements x (all nest first)) ≡ child_tags x.index (records nest first) }
{}

/// A level is told by one forward scan that counts the tags one deeper, of whatever records.
pub fn level_by_scan()
    ensures { (k : ℕ) (rs : List Record) → map level_word (record_level k rs) ≡ level_from k 0 0 rs }
{}

/// The records of a nest step down one element at a time, and one of them is the root element's.
pub fn records_are_nested()
    ensures { (nest : Forest) (first : ℕ) → is_nest nest ≡ true → AreNested (records nest first) }
{}
