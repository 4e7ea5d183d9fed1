//! Names of nodes and name tests (Namespaces in XML 1.0, sections 2.1 and 6; XPath 1.0, section 2.3).

ghost use Rattle.vtd_words.specs.Table.{IsNodeOf};
ghost use Rattle.vtd_namespaces.specs.NodeNames.{HasName};

use crate::nodes::number_of;
use crate::texts::push_chars;
use std::alloc::AllocError;
use vtd_namespaces::{Uri, local_of, matches, prefix_of, uri_of};
use vtd_words::{Table, Words};
use xml_model::{Kind, NameTest, Node};

fn write_uri<W: Words>(out: &mut String, uri: Uri<'_, W>) -> Result<(), AllocError> {
    match uri {
        Uri::None => Ok(()),
        Uri::Xml => out.push_str("that of xml"),
        Uri::Declared(chars) => push_chars(out, chars),
    }
}

/// The URI in braces, the local part, and the prefix of a node that has a name.
fn write_name<W: Words>(
    out: &mut String,
    table: &Table<'_, W>,
    node: Node,
) -> Result<(), AllocError>
    requires node { IsNodeOf table.now.bytes (W.lists table.now.words) node }
    requires named { HasName node.kind }
{
    out.push_str("{")?;
    write_uri(out, uri_of(table, node))?;
    out.push_str("}")?;
    out.push_str(str::from_utf8(local_of(table, node)).unwrap_or("?"))?;
    let prefix = prefix_of(table, node);
    if prefix.is_empty() {
        return Ok(());
    }
    out.push_str(" as ")?;
    out.push_str(str::from_utf8(prefix).unwrap_or("?"))
}

fn write_name_at<W: Words>(
    out: &mut String,
    table: &Table<'_, W>,
    at: u32,
) -> Result<(), AllocError> {
    let Some(node) = table.node_at(at) else {
        return out.push_str("none");
    };
    match node.kind {
        Kind::Element => write_name(out, table, node),
        Kind::Attribute => write_name(out, table, node),
        Kind::Instruction => write_name(out, table, node),
        _ => out.push_str("no name"),
    }
}

/// The test that is written as `*`, as `{uri}*` or as `{uri}local`.
fn test_in(input: &str) -> NameTest<'_> {
    let Some((uri, local)) = input.split_once("}") else {
        return NameTest::Any;
    };
    let uri = uri.strip_prefix("{").unwrap_or("");
    if local == "*" {
        return NameTest::AnyIn { uri };
    }
    NameTest::Named { uri, local }
}

fn write_match<W: Words>(
    out: &mut String,
    table: &Table<'_, W>,
    at: u32,
    test: &NameTest<'_>,
) -> Result<(), AllocError> {
    let Some(node) = table.node_at(at) else {
        return out.push_str("none");
    };
    let passes = match node.kind {
        Kind::Element => matches(table, node, test),
        Kind::Attribute => matches(table, node, test),
        _ => return out.push_str("no name"),
    };
    out.push_str(if passes { "yes" } else { "no" })
}

/// The answer of a table of names of a document.
pub fn answer<W: Words>(
    out: &mut String,
    table: &str,
    document: &Table<'_, W>,
    input: &str,
) -> Result<(), AllocError> {
    match table {
        "nodes" => write_name_at(out, document, number_of(input)),
        "tests" => {
            let (at, test) = input.split_once(" ").unwrap_or((input, ""));
            write_match(out, document, number_of(at), &test_in(test))
        }
        _ => out.push_str("no such table"),
    }
}
