//! Two lists of nodes in document order, made one.

ghost use Rattle.std.specs.Prelude.{◌≡◌, ◌<◌, ◌+◌, ◌-◌, ◌||◌, List, Bool, drop, length, map, filter};
ghost use Rattle.std.specs.Prelude.{IfOk, IfSome, IsTrue};
ghost use Rattle.xml_model.specs.Contexts.{Rises};
ghost use Rattle.xml_model.specs.Tree.{Entry};
ghost use Rattle.vtd_words.specs.Table.{node_of};
ghost use Rattle.xpath_steps.specs.Merges.{is_first, IsStep};

use std::alloc::Global;
use xml_model::{NoMemory, Node};

/// The first node of what is left of two lists, if there is one, and the indexes where the lists go on.
#[derive(Drop)]
struct Step {
    node: Option<Node>,
    at: usize,
    from: usize,
}

/// Whether what is left of a list from an index on begins with a node that comes no later than what is left of another.
fn begins(one: &[Node], at: usize, other: &[Node], from: usize) -> bool
    ensures first { result ≡ is_first (drop at one.now) (drop from other.now) }
    ensures within { IsTrue result → at < length one.now }
{
    if at >= one.len() {
        return false;
    }
    if from >= other.len() {
        return true;
    }
    one[at].at <= other[from].at
}

/// The first node of what is left of two lists from indexes on. Where both begin with it, both go on.
fn first_of(one: &[Node], at: usize, other: &[Node], from: usize) -> Step
    ensures step { (es : List Entry) → Rises es → (P Q : Entry → Bool) →
        drop at one.now ≡ map node_of (filter P es) → drop from other.now ≡ map node_of (filter Q es) →
        IsStep P Q es result.node (drop result.at one.now) (drop result.from other.now) }
    ensures fewer { IfSome result.node (λ node.
        (length one.now - result.at) + (length other.now - result.from)
        < (length one.now - at) + (length other.now - from)) }
{
    match (begins(one, at, other, from), begins(other, from, one, at)) {
        (true, true) => Step {
            node: Some(one[at]),
            at: at + 1,
            from: from + 1,
        },
        (true, false) => Step {
            node: Some(one[at]),
            at: at + 1,
            from,
        },
        (false, true) => Step {
            node: Some(other[from]),
            at,
            from: from + 1,
        },
        (false, false) => Step {
            node: None,
            at,
            from,
        },
    }
}

/// The nodes of two lists in document order, each once.
pub fn merged(alloc: Global, one: &[Node], other: &[Node]) -> Result<Vec<Node>, NoMemory>
    ensures { IfOk result (λ held. (es : List Entry) → Rises es → (P Q : Entry → Bool) →
        one.now ≡ map node_of (filter P es) → other.now ≡ map node_of (filter Q es) →
        held.items ≡ map node_of (filter (λ e. P e || Q e) es)) }
{
    let mut held = Vec::new(alloc);
    let mut at = 0;
    let mut from = 0;
    loop {
        let next = first_of(one, at, other, from);
        let Some(node) = next.node else {
            return Ok(held);
        };
        if held.push(node).is_err() {
            return Err(NoMemory);
        }
        at = next.at;
        from = next.from;
    }
}
