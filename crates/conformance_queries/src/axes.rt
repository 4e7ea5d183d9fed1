//! The nodes on an axis of a node (XPath 1.0, sections 2.2 to 2.4), by the iterator and as a list.
//!
//! A row is `AT AXIS TEST`: the index of the first record of the node, the axis by its name, and the test as `node()`,
//! `text()`, `comment()`, `processing-instruction()`, `processing-instruction(TARGET)`, `*`, `{URI}*` or `{URI}LOCAL`.
//! The answer has the indexes of the nodes on the axis, in axis order, or `none`.

ghost use Rattle.std.specs.Prelude.{◌<◌, ◌^◌, length};
ghost use Rattle.vtd_words.specs.Table.{IsNodeOf};

use std::alloc::{AllocError, Global};
use vtd_builder::build;
use vtd_location::Nav;
use vtd_words::Words;
use xml_model::{Axis, NameTest, Node, NodeTest};
use xpath_axes::{axis, axis_iter};

/// The axis of a name.
pub fn axis_of(name: &str) -> Option<Axis> {
    match name {
        "child" => Some(Axis::Child),
        "descendant" => Some(Axis::Descendant),
        "parent" => Some(Axis::Parent),
        "ancestor" => Some(Axis::Ancestor),
        "following-sibling" => Some(Axis::FollowingSibling),
        "preceding-sibling" => Some(Axis::PrecedingSibling),
        "following" => Some(Axis::Following),
        "preceding" => Some(Axis::Preceding),
        "attribute" => Some(Axis::Attribute),
        "self" => Some(Axis::Itself),
        "descendant-or-self" => Some(Axis::DescendantOrSelf),
        "ancestor-or-self" => Some(Axis::AncestorOrSelf),
        _ => None,
    }
}

/// The name test that is written as `*`, as `{URI}*` or as `{URI}LOCAL`.
fn name_test(text: &str) -> NameTest<'_> {
    let Some((uri, local)) = text.split_once("}") else {
        return NameTest::Any;
    };
    let uri = uri.strip_prefix("{").unwrap_or("");
    if local == "*" {
        return NameTest::AnyIn { uri };
    }
    NameTest::Named { uri, local }
}

/// The node test of a text.
pub fn test_of(text: &str) -> NodeTest<'_> {
    match text {
        "node()" => NodeTest::Node,
        "text()" => NodeTest::Text,
        "comment()" => NodeTest::Comment,
        "processing-instruction()" => NodeTest::Instruction,
        _ => {
            if let Some(target) = text.strip_prefix("processing-instruction(") {
                return NodeTest::Target(target.strip_suffix(")").unwrap_or(target));
            }
            NodeTest::Name(name_test(text))
        }
    }
}

/// The indexes of the nodes on an axis, by the iterator, and whether the list has the same.
fn write_axis<W: Words>(
    alloc: Global,
    out: &mut String,
    nav: &Nav<'_, W>,
    node: Node,
    along: Axis,
    test: &NodeTest<'_>,
) -> Result<(), AllocError>
    requires { IsNodeOf nav.now.bytes (W.lists nav.now.words) node }
{
    let Ok(list) = axis(alloc, nav, node, along, test) else {
        return Err(AllocError);
    };
    let mut nodes = axis_iter(nav, node, along, test);
    for wanted in &list.held {
        if nodes.next() != Some(*wanted) {
            return out.push_str("another list");
        }
        if !out.is_empty() {
            out.push_str(" ")?;
        }
        write!(out, "{}", wanted.at)?;
    }
    if nodes.next().is_some() {
        return out.push_str("a longer list");
    }
    if out.is_empty() {
        return out.push_str("none");
    }
    Ok(())
}

/// The answer of a row.
fn write_answer<W: Words>(
    alloc: Global,
    out: &mut String,
    nav: &Nav<'_, W>,
    input: &str,
) -> Result<(), AllocError> {
    let mut words = input.split(" ");
    let at = words
        .next()
        .unwrap_or("")
        .parse::<u32>()
        .unwrap_or(u32::MAX);
    let Some(along) = axis_of(words.next().unwrap_or("")) else {
        return out.push_str("no such axis");
    };
    let test = test_of(words.next().unwrap_or(""));
    match nav.table().node_at(at) {
        Some(node) => write_axis(alloc, out, nav, node, along, &test),
        None => out.push_str("no node"),
    }
}

/// The answer of a table of axes.
pub fn answer(alloc: Global, out: &mut String, given: &[u8], input: &str) -> Result<(), AllocError>
    requires { length given.now < 2 ^ 30 }
{
    match build(alloc, given.to_vec(alloc)?) {
        Ok(doc) => write_answer(alloc, out, &doc.nav(), input),
        Err(_) => out.push_str("refused"),
    }
}
