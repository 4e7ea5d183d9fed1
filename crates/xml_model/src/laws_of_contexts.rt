//! Laws of axes over lists of context nodes: what a step from all of them finds, as one pass over the tree finds it.
//! Each function does nothing; its contract is the law, which the check proves. Other crates cite the lemmas of
//! `proofs/Contexts.antt`. `first` is the place of the first item.

ghost use Rattle.std.specs.Prelude.{◌≡◌, ℕ, List, true, filter, length};
ghost use Rattle.std.specs.List.{flat_map};
ghost use Rattle.xml_model.specs.declared.Axis.TheVariants as axes;
ghost use Rattle.xml_model.specs.Nest.{Forest, is_nest};
ghost use Rattle.xml_model.specs.Records.{records};
ghost use Rattle.xml_model.specs.Tree.{Entry, all};
ghost use Rattle.xml_model.specs.Laws.{by_indexes};
ghost use Rattle.xml_model.specs.Contexts.{greatest_index, is_child_from, is_child_of_any, is_child_up_to};
ghost use Rattle.xml_model.specs.Contexts.{is_parent_of_any, least_past};
ghost use Rattle.xml_model.specs.Contexts.{new_ancestors, new_ancestors_or_selves, outermost, union_list, AreContexts};

/// What follows some context is each child that begins at the least end of the contexts or later.
pub fn following_of_contexts()
    ensures { (nest : Forest) (first : ℕ) → is_nest nest ≡ true →
        (cs : List Entry) → AreContexts cs (all nest first) →
        union_list axes.Following cs (all nest first)
        ≡ filter (is_child_from (least_past (length (records nest first)) cs)) (all nest first) }
{}

/// What precedes some context is each child that ends before the last context begins.
pub fn preceding_of_contexts()
    ensures { (nest : Forest) (first : ℕ) → is_nest nest ≡ true →
        (cs : List Entry) → AreContexts cs (all nest first) →
        union_list axes.Preceding cs (all nest first) ≡ filter (is_child_up_to (greatest_index cs)) (all nest first) }
{}

/// The descendants of contexts are those of the contexts that are in no earlier one, one list after another.
pub fn descendants_of_contexts()
    ensures { (nest : Forest) (first : ℕ) → is_nest nest ≡ true →
        (cs : List Entry) → AreContexts cs (all nest first) →
        union_list axes.Descendant cs (all nest first)
        ≡ flat_map (λ c. filter (by_indexes axes.Descendant c) (all nest first)) (outermost 0 cs) }
{}

/// The ancestors of contexts are, context by context, its ancestors from the context before it on.
pub fn ancestors_of_contexts()
    ensures { (nest : Forest) (first : ℕ) → is_nest nest ≡ true →
        (cs : List Entry) → AreContexts cs (all nest first) →
        union_list axes.Ancestor cs (all nest first) ≡ new_ancestors (all nest first) 0 cs }
{}

/// The ancestors of contexts and these themselves are, context by context, those from after the context before it on.
pub fn ancestors_or_selves_of_contexts()
    ensures { (nest : Forest) (first : ℕ) → is_nest nest ≡ true →
        (cs : List Entry) → AreContexts cs (all nest first) →
        union_list axes.AncestorOrSelf cs (all nest first) ≡ new_ancestors_or_selves (all nest first) 0 cs }
{}

/// The children of contexts are the children whose nearest holder is a context.
pub fn children_of_contexts()
    ensures { (nest : Forest) (first : ℕ) → is_nest nest ≡ true →
        (cs : List Entry) → AreContexts cs (all nest first) →
        union_list axes.Child cs (all nest first) ≡ filter (is_child_of_any cs) (all nest first) }
{}

/// The parents of contexts are the nodes that are the nearest holder of one, the root being for none.
pub fn parents_of_contexts()
    ensures { (nest : Forest) (first : ℕ) → is_nest nest ≡ true →
        (cs : List Entry) → AreContexts cs (all nest first) →
        union_list axes.Parent cs (all nest first) ≡ filter (is_parent_of_any cs) (all nest first) }
{}

/// The attributes of contexts are those of each, one list after another.
pub fn attributes_of_contexts()
    ensures { (nest : Forest) (first : ℕ) → is_nest nest ≡ true →
        (cs : List Entry) → AreContexts cs (all nest first) →
        union_list axes.Attribute cs (all nest first)
        ≡ flat_map (λ c. filter (by_indexes axes.Attribute c) (all nest first)) cs }
{}
