//! Steps along `child` and `following-sibling`: one pass forward, with a flag for each level.

ghost use Rattle.std.specs.Prelude.{◌≡◌, ℕ, ◌≤◌, ◌<◌, ◌+◌, ◌++◌, ◌&&◌, [], ◌∷◌, suc, false, true, length, map};
ghost use Rattle.std.specs.Prelude.{filter, List, IfOk, IfSome, IfNone};
ghost use Rattle.xml_model.specs.declared.Axis.TheVariants as axes;
ghost use Rattle.xml_model.specs.Contexts.{is_index_of, AreContexts};
ghost use Rattle.xml_model.specs.Items.{first_place};
ghost use Rattle.xml_model.specs.Laws.{is_child_thing};
ghost use Rattle.xml_model.specs.Names.{passes as passes_test};
ghost use Rattle.xml_model.specs.Records.{records};
ghost use Rattle.xml_model.specs.Scan.{level_of as level_of_record, record_at};
ghost use Rattle.xml_model.specs.Tree.{Entry};
ghost use Rattle.vtd_words.specs.Lists.{list_of};
ghost use Rattle.vtd_words.specs.Table.{ForEachEntry, ForEachNest, IsNodeOf, node_of, nodes_of};
ghost use Rattle.xpath_axes.specs.Tests.{node_test};
ghost use Rattle.xpath_steps.specs.Forward.{axis_of, first_index, is_asked, marked, own_floor, put_beside, put_inside};
ghost use Rattle.xpath_steps.specs.Forward.{IsFloor, IsHere, NoneBegins, Passed};
ghost use Rattle.xpath_steps.specs.Steps.{step_nodes, AreNodesOf, ForEachContexts};
ghost use Rattle.xpath_steps.specs.Waits.{flagged};

use crate::apart::children_if_apart;
use crate::flags::Flags;
use crate::selves::append_if;
use std::alloc::Global;
use vtd_words::{Part, Table, Words, level_of, parts_at};
use xml_model::{Kind, NoMemory, Node, NodeList, NodeTest};
use xpath_axes::Names;

/// What a pass looks for.
#[derive(Clone, Copy)]
pub enum Sought {
    /// Children of the contexts.
    Children,
    /// Siblings of the contexts that come after them.
    LaterSiblings,
}

/// A node, and how many elements hold it.
#[derive(Clone, Copy)]
pub struct Here {
    pub node: Node,
    pub level: u32,
}

/// The node that begins at a record; `None` where none does.
pub fn node_here<W: Words>(table: &Table<'_, W>, at: u32) -> Option<Here>
    ensures here { ForEachNest table.now.bytes (W.lists table.now.words) (λ nest.
        IfSome result (λ h. IsHere (nodes_of table.now.bytes nest) at h.node h.level)) }
    ensures none { ForEachNest table.now.bytes (W.lists table.now.words) (λ nest.
        IfNone result (NoneBegins (nodes_of table.now.bytes nest) at)) }
    ensures node { IfSome result (λ h. IsNodeOf table.now.bytes (W.lists table.now.words) h.node) }
    ensures level { IfSome result (λ h. h.level ≤ 255) }
{
    let Some(node) = table.node_at(at) else {
        return None;
    };
    Some(Here {
        node,
        level: table.level_at(node),
    })
}

/// Sets or clears the flag of what is directly in a node, if it may hold any.
pub fn flag_inside(flags: &mut Flags, here: Here, flag: bool)
    requires { here.level ≤ 255 }
    ensures { (l : ℕ) → flagged flags.new l ≡ put_inside here.node.kind here.level flag (flagged flags.old) l }
{
    match here.node.kind {
        Kind::Root => flags.put(0, flag),
        Kind::Element => flags.put(here.level + 1, flag),
        _ => (),
    }
}

/// Sets the flag of a child's level, where it is to be.
pub fn flag_beside(flags: &mut Flags, here: Here, flag: bool)
    requires { here.level ≤ 255 }
    ensures { (l : ℕ) → flagged flags.new l ≡ put_beside here.node.kind here.level flag (flagged flags.old) l }
{
    if flag && here.node.kind.is_child() {
        flags.put(here.level, true);
    }
}

/// Sets and clears the flags after a node that is a context or not.
fn mark(sought: Sought, flags: &mut Flags, here: Here, context: bool)
    requires { here.level ≤ 255 }
    ensures { (l : ℕ) →
        flagged flags.new l ≡ marked sought here.node.kind here.level context (flagged flags.old) l }
{
    match sought {
        Sought::Children => flag_inside(flags, here, context),
        Sought::LaterSiblings => {
            flag_inside(flags, here, false);
            flag_beside(flags, here, context);
        }
    }
}

/// Appends a node, where it is a child, the flag of its level is set and it passes a test.
fn append_flagged<W: Words, N: Names<W>>(
    table: &Table<'_, W>,
    names: &mut N,
    here: Here,
    flags: &Flags,
    test: &NodeTest<'_>,
    held: &mut Vec<Node>,
) -> Result<(), NoMemory>
    requires names { N.knows names.old table.now }
    requires node { IsNodeOf table.now.bytes (W.lists table.now.words) here.node }
    requires level { here.level ≤ 255 }
    ensures appended { IfOk result (λ done.
        ForEachEntry table.now.bytes (W.lists table.now.words) here.node (λ nest e.
        held.new.items ≡ held.old.items ++ map node_of (filter (λ y. is_child_thing y.what
        && (flagged flags.now here.level && passes_test (node_test test.now) false y)) (e ∷ [])))) }
    ensures names { N.knows names.new table.now }
{
    if !here.node.kind.is_child() {
        return Ok(());
    }
    if !flags.has(here.level) {
        return Ok(());
    }
    append_if(table, names, here.node, test, held)
}

/// Passes a record, at which a context begins or none: appends the node there, where it is asked for and passes a test,
/// and sets and clears flags.
fn pass_record<W: Words, N: Names<W>>(
    table: &Table<'_, W>,
    names: &mut N,
    sought: Sought,
    at: u32,
    context: bool,
    test: &NodeTest<'_>,
    flags: &mut Flags,
    held: &mut Vec<Node>,
) -> Result<(), NoMemory>
    requires names { N.knows names.old table.now }
    ensures passed { IfOk result (λ done. ForEachNest table.now.bytes (W.lists table.now.words) (λ nest.
        (cs : List Entry) → AreContexts cs (nodes_of table.now.bytes nest) → is_index_of cs at ≡ context →
        Passed sought cs (nodes_of table.now.bytes nest) (node_test test.now) at (flagged flags.old) held.old.items →
        Passed sought cs (nodes_of table.now.bytes nest) (node_test test.now) (suc at) (flagged flags.new)
        held.new.items)) }
    ensures names { N.knows names.new table.now }
{
    let Some(here) = node_here(table, at) else {
        return Ok(());
    };
    append_flagged(table, names, here, flags, test, held)?;
    mark(sought, flags, here, context);
    Ok(())
}

/// Passes the records from an index up to another, at none of which a context begins. It stops at the first one of a
/// level below a floor, and answers where it is.
fn pass_records<W: Words, N: Names<W>>(
    table: &Table<'_, W>,
    names: &mut N,
    sought: Sought,
    from: u32,
    to: u32,
    floor: u32,
    test: &NodeTest<'_>,
    flags: &mut Flags,
    held: &mut Vec<Node>,
) -> Result<u32, NoMemory>
    requires names { N.knows names.old table.now }
    requires within { to ≤ length (list_of Part.Records (W.lists table.now.words)) }
    ensures passed { IfOk result (λ stop. ForEachNest table.now.bytes (W.lists table.now.words) (λ nest.
        (cs : List Entry) → AreContexts cs (nodes_of table.now.bytes nest) →
        from ≤ to → ((k : ℕ) → from ≤ k → k < to → is_index_of cs k ≡ false) →
        Passed sought cs (nodes_of table.now.bytes nest) (node_test test.now) from (flagged flags.old) held.old.items →
        Passed sought cs (nodes_of table.now.bytes nest) (node_test test.now) stop (flagged flags.new)
        held.new.items)) }
    ensures later { IfOk result (λ stop. from ≤ stop) }
    ensures range { IfOk result (λ stop. from ≤ to → stop ≤ to) }
    ensures stop { IfOk result (λ stop. ForEachNest table.now.bytes (W.lists table.now.words) (λ nest.
        stop < to → level_of_record (record_at stop (records nest (first_place table.now.bytes))) < floor)) }
    ensures names { N.knows names.new table.now }
{
    let words = table.words();
    let mut at = from;
    while at < to {
        if level_of(parts_at(words, at)) < floor {
            return Ok(at);
        }
        pass_record(table, names, sought, at, false, test, flags, held)?;
        at += 1;
    }
    Ok(at)
}

/// The level of what is directly in a node, and 256 where nothing can be.
fn level_inside(kind: Kind, level: u32) -> u32
    requires { level ≤ 255 }
    ensures { result ≡ own_floor Sought.Children kind level }
{
    match kind {
        Kind::Root => 0,
        Kind::Element => level + 1,
        _ => 256,
    }
}

/// The level of the siblings of a node, and 256 where it has none.
fn level_beside(kind: Kind, level: u32) -> u32
    ensures { result ≡ own_floor Sought.LaterSiblings kind level }
{
    if kind.is_child() { level } else { 256 }
}

/// The level of what a node asks for, and 256 where it asks for nothing.
fn floor_of(sought: Sought, kind: Kind, level: u32) -> u32
    requires { level ≤ 255 }
    ensures { result ≡ own_floor sought kind level }
{
    match sought {
        Sought::Children => level_inside(kind, level),
        Sought::LaterSiblings => level_beside(kind, level),
    }
}

/// A level below which nothing is that contexts ask for.
pub fn lowest<W: Words>(table: &Table<'_, W>, sought: Sought, contexts: &[Node]) -> u32
    requires { AreNodesOf table.now.bytes (W.lists table.now.words) contexts.now }
    ensures { ForEachContexts table.now.bytes (W.lists table.now.words) contexts.now (λ nest cs.
        IsFloor sought cs (nodes_of table.now.bytes nest) result) }
{
    let mut floor: u32 = 256;
    for context in contexts {
        floor = floor.min(floor_of(sought, context.kind, table.level_at(*context)));
    }
    floor
}

/// The index of the first of nodes, and 0 where there is none.
fn first(nodes: &[Node]) -> u32
    ensures { result ≡ first_index nodes.now }
{
    if nodes.is_empty() {
        return 0;
    }
    nodes[0].at
}

/// Passes the records from an index up to a context, and the first one of that. It answers the index after it.
fn pass_context<W: Words, N: Names<W>>(
    table: &Table<'_, W>,
    names: &mut N,
    sought: Sought,
    from: u32,
    context: Node,
    test: &NodeTest<'_>,
    flags: &mut Flags,
    held: &mut Vec<Node>,
) -> Result<u32, NoMemory>
    requires names { N.knows names.old table.now }
    requires node { IsNodeOf table.now.bytes (W.lists table.now.words) context }
    ensures passed { IfOk result (λ next. ForEachNest table.now.bytes (W.lists table.now.words) (λ nest.
        (cs : List Entry) → AreContexts cs (nodes_of table.now.bytes nest) → from ≤ context.at →
        ((k : ℕ) → from ≤ k → k < context.at → is_index_of cs k ≡ false) → is_index_of cs context.at ≡ true →
        Passed sought cs (nodes_of table.now.bytes nest) (node_test test.now) from (flagged flags.old) held.old.items →
        Passed sought cs (nodes_of table.now.bytes nest) (node_test test.now) next (flagged flags.new)
        held.new.items)) }
    ensures next { IfOk result (λ next. next ≡ context.at + 1) }
    ensures within { IfOk result (λ next. next ≤ length (list_of Part.Records (W.lists table.now.words))) }
    ensures names { N.knows names.new table.now }
{
    let next = table.after_first(context);
    let _stop = pass_records(table, names, sought, from, context.at, 0, test, flags, held)?;
    pass_record(table, names, sought, context.at, true, test, flags, held)?;
    Ok(next)
}

/// The nodes that contexts ask for and that pass a test, in document order, each once.
fn pass_all<W: Words, N: Names<W>>(
    alloc: Global,
    table: &Table<'_, W>,
    names: &mut N,
    sought: Sought,
    contexts: &[Node],
    test: &NodeTest<'_>,
) -> Result<NodeList, NoMemory>
    requires names { N.knows names.old table.now }
    requires contexts { AreNodesOf table.now.bytes (W.lists table.now.words) contexts.now }
    ensures step { IfOk result (λ list.
        ForEachContexts table.now.bytes (W.lists table.now.words) contexts.now (λ nest cs.
        list ≡ step_nodes (axis_of sought) (node_test test.now) cs (nodes_of table.now.bytes nest))) }
    ensures names { N.knows names.new table.now }
{
    let mut flags = Flags::new();
    let mut held = Vec::new(alloc);
    let mut at = first(contexts);
    for context in contexts {
        at = pass_context(
            table, names, sought, at, *context, test, &mut flags, &mut held,
        )?;
    }
    let floor = lowest(table, sought, contexts);
    let end = table.words().len(Part::Records);
    let _stop = pass_records(
        table, names, sought, at, end, floor, test, &mut flags, &mut held,
    )?;
    Ok(NodeList { held })
}

/// The children of nodes that pass a test, whether or not some of the nodes are in others. The nodes are in document
/// order, each once. Where no context is in another it reads the records of each, once; else a constant number of times
/// those from the first of the contexts up to the end of what holds the children of the last ones. `NoMemory` comes
/// where there is no memory for the list.
pub fn children_of_all<W: Words, N: Names<W>>(
    alloc: Global,
    table: &Table<'_, W>,
    names: &mut N,
    contexts: &[Node],
    test: &NodeTest<'_>,
) -> Result<NodeList, NoMemory>
    requires names { N.knows names.old table.now }
    requires contexts { AreNodesOf table.now.bytes (W.lists table.now.words) contexts.now }
    ensures step { IfOk result (λ list.
        ForEachContexts table.now.bytes (W.lists table.now.words) contexts.now (λ nest cs.
        list ≡ step_nodes axes.Child (node_test test.now) cs (nodes_of table.now.bytes nest))) }
    ensures names { N.knows names.new table.now }
{
    match children_if_apart(alloc, table, names, contexts, test)? {
        Some(list) => Ok(list),
        None => pass_all(alloc, table, names, Sought::Children, contexts, test),
    }
}

/// The later siblings of nodes that pass a test. The nodes are in document order, each once. It reads the records from
/// the first of the contexts on a constant number of times, up to the end of the parent of the lowest level.
/// `NoMemory` comes where there is no memory for the list.
pub fn following_siblings_of_all<W: Words, N: Names<W>>(
    alloc: Global,
    table: &Table<'_, W>,
    names: &mut N,
    contexts: &[Node],
    test: &NodeTest<'_>,
) -> Result<NodeList, NoMemory>
    requires names { N.knows names.old table.now }
    requires contexts { AreNodesOf table.now.bytes (W.lists table.now.words) contexts.now }
    ensures step { IfOk result (λ list.
        ForEachContexts table.now.bytes (W.lists table.now.words) contexts.now (λ nest cs.
        list ≡ step_nodes axes.FollowingSibling (node_test test.now) cs (nodes_of table.now.bytes nest))) }
    ensures names { N.knows names.new table.now }
{
    pass_all(alloc, table, names, Sought::LaterSiblings, contexts, test)
}
