//! The descendants of the root that pass node tests.

ghost use Rattle.std.specs.Prelude.{◌<◌, ◌^◌};
ghost use Rattle.vtd_words.specs.Table.{IsNodeOf};

use crate::steps;
use std::io;
use std::rt::Clock;
use std::time::Instant;
use vtd_builder::build;
use vtd_location::Nav;
use vtd_namespaces::Resolver;
use vtd_words::{Part, Words, parts_at};
use xml_model::{Axis, NameTest, Node, NodeTest};
use xpath_axes::{Names, axis_iter};

/// The records of starting tags, by a plain loop.
fn count_tags<W: Words>(words: &W) -> u64 {
    let mut found = 0u64;
    for at in 0..words.len(Part::Records) {
        if parts_at(words, at).token == 0 {
            found = found.wrapping_add(1);
        }
    }
    found
}

/// The nodes on an axis of a node that pass a test.
fn count_nodes<W: Words, N: Names<W>>(
    nav: &Nav<'_, W>,
    names: &mut N,
    node: Node,
    along: Axis,
    test: &NodeTest<'_>,
) -> u64
    requires node { IsNodeOf nav.now.bytes (W.lists nav.now.words) node }
    requires names { N.knows names.old nav.now }
    ensures { N.knows names.new nav.now }
{
    let mut found = 0u64;
    let mut nodes = axis_iter(nav, node, along, test);
    while let Some(_node) = nodes.next_by(names) {
        found = found.wrapping_add(1);
    }
    found
}

/// The children that pass a test, of each node in turn.
fn count_children<W: Words, N: Names<W>>(
    nav: &Nav<'_, W>,
    names: &mut N,
    test: &NodeTest<'_>,
) -> u64
    requires { N.knows names.old nav.now }
{
    let mut found = 0u64;
    for at in 0..nav.table().words().len(Part::Records) {
        if let Some(node) = nav.table().node_at(at) {
            found = found.wrapping_add(count_nodes(nav, names, node, Axis::Child, test));
        }
    }
    found
}

/// Times one test of the children of each node in turn.
fn time_children<R: Clock + Print + Eprint, W: Words>(
    rt: &R,
    nav: &Nav<'_, W>,
    what: &str,
    test: &NodeTest<'_>,
) -> io::Result<()> {
    let start = Instant::now(rt)?;
    let mut names = Resolver::new(nav.table());
    let found = count_children(nav, &mut names, test);
    let took = start.elapsed(rt)?;
    println!(rt; "children {what}: {found}")?;
    eprintln!(rt; "children {what} of each node in turn: {took:?}")
}

/// Times one test, with names asked of a resolver, or by looking back.
fn time_test<R: Clock + Print + Eprint, W: Words>(
    rt: &R,
    nav: &Nav<'_, W>,
    root: Node,
    what: &str,
    test: &NodeTest<'_>,
) -> io::Result<()>
    requires { IsNodeOf nav.now.bytes (W.lists nav.now.words) root }
{
    let start = Instant::now(rt)?;
    let mut names = Resolver::new(nav.table());
    let resolver = start.elapsed(rt)?;
    let start = Instant::now(rt)?;
    let found = count_nodes(nav, &mut names, root, Axis::Descendant, test);
    let asked = start.elapsed(rt)?;
    println!(rt; "{what}: {found}")?;
    eprintln!(rt; "{what}: {asked:?}, and {resolver:?} for the resolver")
}

/// Times the tests over a document.
fn time_all<R: Clock + Print + Eprint, W: Words>(
    rt: &R,
    nav: &Nav<'_, W>,
    root: Node,
) -> io::Result<()>
    requires { IsNodeOf nav.now.bytes (W.lists nav.now.words) root }
{
    let start = Instant::now(rt)?;
    let tags = count_tags(nav.table().words());
    let looped = start.elapsed(rt)?;
    println!(rt; "tags: {tags}")?;
    eprintln!(rt; "plain loop: {looped:?}")?;
    time_test(rt, nav, root, "node()", &NodeTest::Node)?;
    time_test(rt, nav, root, "comment()", &NodeTest::Comment)?;
    time_test(rt, nav, root, "*", &NodeTest::Name(NameTest::Any))?;
    let item = NameTest::Named {
        uri: "",
        local: "item",
    };
    time_test(rt, nav, root, "item", &NodeTest::Name(item))?;
    let none = NameTest::Named {
        uri: "",
        local: "none",
    };
    time_test(rt, nav, root, "none", &NodeTest::Name(none))?;
    time_children(rt, nav, "comment()", &NodeTest::Comment)?;
    time_children(rt, nav, "none", &NodeTest::Name(none))
}

/// Times a document.
pub fn time<R: Clock + Print + Eprint + AllocGlobal>(rt: &R, bytes: Vec<u8>) -> io::Result<()> {
    if bytes.len() >= 1 << 30 {
        return eprintln!(rt; "too long");
    }
    match build(rt.alloc(), bytes) {
        Ok(doc) => {
            let nav = doc.nav();
            match nav.table().node_at(0) {
                Some(root) => time_all(rt, &nav, root)?,
                None => (),
            }
            steps::time(rt, nav.table())
        }
        Err(_) => eprintln!(rt; "refused"),
    }
}
