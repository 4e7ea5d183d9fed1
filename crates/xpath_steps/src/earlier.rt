//! The step along `preceding-sibling`: one pass backward, with a flag for each level.

ghost use Rattle.std.specs.Prelude.{◌≡◌, ℕ, ◌≤◌, ◌<◌, ◌++◌, ◌&&◌, [], ◌∷◌, suc, cond, false, length, map, filter};
ghost use Rattle.std.specs.Prelude.{drop, List, IfOk};
ghost use Rattle.std.specs.List.{AllByRecursion};
ghost use Rattle.xml_model.specs.declared.Axis.TheVariants as axes;
ghost use Rattle.xml_model.specs.Items.{first_place};
ghost use Rattle.xml_model.specs.Laws.{is_child_kind};
ghost use Rattle.xml_model.specs.Records.{records};
ghost use Rattle.xml_model.specs.Scan.{level_of as level_of_record, record_at};
ghost use Rattle.xml_model.specs.Tree.{Entry};
ghost use Rattle.vtd_words.specs.Lists.{list_of};
ghost use Rattle.vtd_words.specs.Table.{ForEachEntry, ForEachNest, IsNodeOf, node_of, nodes_of};
ghost use Rattle.xpath_axes.specs.Tests.{node_test};
ghost use Rattle.xpath_steps.specs.Earlier.{children_among, is_earlier, Earlier};
ghost use Rattle.xpath_steps.specs.Holders.{index_before};
ghost use Rattle.xpath_steps.specs.Steps.{step_nodes, AreNodesOf, ForEachContexts};
ghost use Rattle.xpath_steps.specs.Waits.{flagged};

use crate::above::before;
use crate::flags::Flags;
use crate::forward::{Here, Sought, flag_beside, flag_inside, lowest, node_here};
use crate::selves::those_passing;
use std::alloc::Global;
use vtd_words::{Part, Table, Words, level_of, parts_at};
use xml_model::{NoMemory, Node, NodeList, NodeTest};
use xpath_axes::Names;

/// Appends a node, where it is a child and the flag of its level is set.
fn append_flagged(here: Here, waiting: &Flags, held: &mut Vec<Node>) -> Result<(), NoMemory>
    requires { here.level ≤ 255 }
    ensures { IfOk result (λ done. held.new.items ≡ held.old.items
        ++ cond (is_child_kind here.node.kind && flagged waiting.now here.level) (here.node ∷ []) []) }
{
    if !here.node.kind.is_child() {
        return Ok(());
    }
    if !waiting.has(here.level) {
        return Ok(());
    }
    if held.push(here.node).is_err() {
        return Err(NoMemory);
    }
    Ok(())
}

/// Passes a record: appends the node there, where a later sibling of it was passed, and clears the flag of what is
/// directly in it.
fn pass_back<W: Words>(
    table: &Table<'_, W>,
    at: u32,
    waiting: &mut Flags,
    held: &mut Vec<Node>,
) -> Result<(), NoMemory>
    requires nodes { AllByRecursion (IsNodeOf table.now.bytes (W.lists table.now.words)) held.old.items }
    ensures nodes { IfOk result (λ done.
        AllByRecursion (IsNodeOf table.now.bytes (W.lists table.now.words)) held.new.items) }
    ensures gathered { IfOk result (λ done. ForEachNest table.now.bytes (W.lists table.now.words) (λ nest.
        (ds : List Entry) →
        Earlier (nodes_of table.now.bytes nest) ds (suc at) (flagged waiting.old) held.old.items →
        Earlier (nodes_of table.now.bytes nest) ds at (flagged waiting.new) held.new.items)) }
{
    let Some(here) = node_here(table, at) else {
        return Ok(());
    };
    append_flagged(here, waiting, held)?;
    flag_inside(waiting, here, false);
    Ok(())
}

/// Passes the records below an index, down to another. It stops above the first one of a level below a floor, and
/// answers the index of the last record that it passed, and where it began if there is none.
fn pass_down<W: Words>(
    table: &Table<'_, W>,
    from: u32,
    to: u32,
    floor: u32,
    waiting: &mut Flags,
    held: &mut Vec<Node>,
) -> Result<u32, NoMemory>
    requires within { from ≤ length (list_of Part.Records (W.lists table.now.words)) }
    requires nodes { AllByRecursion (IsNodeOf table.now.bytes (W.lists table.now.words)) held.old.items }
    ensures nodes { IfOk result (λ stop.
        AllByRecursion (IsNodeOf table.now.bytes (W.lists table.now.words)) held.new.items) }
    ensures gathered { IfOk result (λ stop. ForEachNest table.now.bytes (W.lists table.now.words) (λ nest.
        (ds : List Entry) → to ≤ from →
        Earlier (nodes_of table.now.bytes nest) ds from (flagged waiting.old) held.old.items →
        Earlier (nodes_of table.now.bytes nest) ds stop (flagged waiting.new) held.new.items)) }
    ensures range { IfOk result (λ stop. to ≤ from → to ≤ stop) }
    ensures stop { IfOk result (λ stop. ForEachNest table.now.bytes (W.lists table.now.words) (λ nest.
        (k : ℕ) → stop ≡ suc k → to < stop →
        level_of_record (record_at k (records nest (first_place table.now.bytes))) < floor)) }
{
    let words = table.words();
    let mut rest = from;
    while rest > to {
        let at = rest - 1;
        if level_of(parts_at(words, at)) < floor {
            return Ok(rest);
        }
        pass_back(table, at, waiting, held)?;
        rest = at;
    }
    Ok(rest)
}

/// Has a node wait for its parent, if it is a child, and passes the records below it, down to another.
fn pass_context<W: Words>(
    table: &Table<'_, W>,
    node: Node,
    to: u32,
    floor: u32,
    waiting: &mut Flags,
    held: &mut Vec<Node>,
) -> Result<u32, NoMemory>
    requires node { IsNodeOf table.now.bytes (W.lists table.now.words) node }
    requires nodes { AllByRecursion (IsNodeOf table.now.bytes (W.lists table.now.words)) held.old.items }
    ensures nodes { IfOk result (λ stop.
        AllByRecursion (IsNodeOf table.now.bytes (W.lists table.now.words)) held.new.items) }
    ensures gathered { IfOk result (λ stop.
        ForEachEntry table.now.bytes (W.lists table.now.words) node (λ nest c.
        (ds : List Entry) → to ≤ node.at →
        Earlier (nodes_of table.now.bytes nest) (children_among ds) node.at (flagged waiting.old) held.old.items →
        Earlier (nodes_of table.now.bytes nest) (children_among (c ∷ ds)) stop (flagged waiting.new)
        held.new.items)) }
    ensures range { IfOk result (λ stop. to ≤ node.at → to ≤ stop) }
    ensures stop { IfOk result (λ stop. ForEachNest table.now.bytes (W.lists table.now.words) (λ nest.
        (k : ℕ) → stop ≡ suc k → to < stop →
        level_of_record (record_at k (records nest (first_place table.now.bytes))) < floor)) }
{
    let level = table.level_at(node);
    flag_beside(waiting, Here { node, level }, true);
    pass_down(table, node.at, to, floor, waiting, held)
}

/// Passes the contexts but the first, and the records down to it.
fn pass_to_first<W: Words>(
    table: &Table<'_, W>,
    contexts: &[Node],
    waiting: &mut Flags,
    held: &mut Vec<Node>,
) -> Result<(), NoMemory>
    requires contexts { AreNodesOf table.now.bytes (W.lists table.now.words) contexts.now }
    requires some { 1 ≤ length contexts.now }
    requires none { (level : ℕ) → flagged waiting.old level ≡ false }
    requires empty { held.old.items ≡ [] }
    ensures nodes { IfOk result (λ done.
        AllByRecursion (IsNodeOf table.now.bytes (W.lists table.now.words)) held.new.items) }
    ensures gathered { IfOk result (λ done.
        ForEachContexts table.now.bytes (W.lists table.now.words) contexts.now (λ nest cs.
        Earlier (nodes_of table.now.bytes nest) (children_among (drop 1 cs)) (index_before contexts.now 1)
        (flagged waiting.new) held.new.items)) }
{
    let mut rest = contexts.len();
    while rest > 1 {
        let next = rest - 1;
        let to = before(contexts, next);
        let _stop = pass_context(table, contexts[next], to, 0, waiting, held)?;
        rest = next;
    }
    Ok(())
}

/// The earlier siblings of nodes, in document order, each once.
fn earlier_siblings<W: Words>(
    alloc: Global,
    table: &Table<'_, W>,
    contexts: &[Node],
) -> Result<Vec<Node>, NoMemory>
    requires { AreNodesOf table.now.bytes (W.lists table.now.words) contexts.now }
    ensures nodes { IfOk result (λ held. AreNodesOf table.now.bytes (W.lists table.now.words) held.items) }
    ensures siblings { IfOk result (λ held.
        ForEachContexts table.now.bytes (W.lists table.now.words) contexts.now (λ nest cs.
        held.items ≡ map node_of (filter (is_earlier cs) (nodes_of table.now.bytes nest)))) }
{
    let mut held = Vec::new(alloc);
    let count = contexts.len();
    if count == 0 {
        return Ok(held);
    }
    let mut waiting = Flags::new();
    pass_to_first(table, contexts, &mut waiting, &mut held)?;
    let floor = lowest(table, Sought::LaterSiblings, contexts);
    let _stop = pass_context(table, contexts[0], 0, floor, &mut waiting, &mut held)?;
    held.reverse();
    Ok(held)
}

/// The earlier siblings of nodes that pass a test. The nodes are in document order, each once. It goes backward from
/// the last of the contexts, with a flag for each level, and reads each record a constant number of times, down to the
/// beginning of the parent of the lowest level. Names are asked for in document order. `NoMemory` comes where there is
/// no memory for the list of all earlier siblings.
pub fn preceding_siblings_of_all<W: Words, N: Names<W>>(
    alloc: Global,
    table: &Table<'_, W>,
    names: &mut N,
    contexts: &[Node],
    test: &NodeTest<'_>,
) -> Result<NodeList, NoMemory>
    requires names { N.knows names.old table.now }
    requires contexts { AreNodesOf table.now.bytes (W.lists table.now.words) contexts.now }
    ensures step { IfOk result (λ list.
        ForEachContexts table.now.bytes (W.lists table.now.words) contexts.now (λ nest cs.
        list ≡ step_nodes axes.PrecedingSibling (node_test test.now) cs (nodes_of table.now.bytes nest))) }
    ensures names { N.knows names.new table.now }
{
    let held = earlier_siblings(alloc, table, contexts)?;
    those_passing(alloc, table, names, &held, test)
}
