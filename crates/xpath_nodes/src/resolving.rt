//! Node tests as they are written: XPath 1.0, section 2.3.

ghost use Rattle.std.specs.Prelude.{◌≡◌, [], unwrap_or};
ghost use Rattle.std.specs.Str.{chars};
ghost use Rattle.xpath_grammar.specs.Bindings.{uri_in};
ghost use Rattle.xpath_axes.specs.Tests.{node_test};
ghost use Rattle.xpath_meaning.specs.Context.{test_of, uri_of};

use xml_model::texts::{as_str, is_empty};
use xml_model::{NameTest, NodeTest};
use xpath_grammar::{Bindings, StepTest};

/// The URI of a prefix.
fn bound_uri<'b>(bindings: &'b Bindings, prefix: &str) -> &'b str
    ensures { chars result.now ≡ unwrap_or (uri_in bindings.now (chars prefix.now)) [] }
{
    match bindings.uri_of(prefix) {
        Some(uri) => uri,
        None => "",
    }
}

/// The URI of a name test's prefix; without a prefix there is none.
fn uri_of<'b>(bindings: &'b Bindings, prefix: &str) -> &'b str
    ensures { chars result.now ≡ uri_of bindings.now (chars prefix.now) }
{
    if is_empty(prefix) {
        return "";
    }
    bound_uri(bindings, prefix)
}

/// The node test that is written, with the URIs that its prefixes are bound to (XPath 1.0, section 2.3).
pub fn resolved<'b>(bindings: &'b Bindings, test: &'b StepTest) -> NodeTest<'b>
    ensures { node_test result ≡ test_of bindings.now test.now }
{
    match test {
        StepTest::Node => NodeTest::Node,
        StepTest::Text => NodeTest::Text,
        StepTest::Comment => NodeTest::Comment,
        StepTest::Instruction => NodeTest::Instruction,
        StepTest::Target(target) => NodeTest::Target(as_str(target)),
        StepTest::Any => NodeTest::Name(NameTest::Any),
        StepTest::AnyIn(prefix) => NodeTest::Name(NameTest::AnyIn {
            uri: bound_uri(bindings, as_str(prefix)),
        }),
        StepTest::Named { prefix, local } => NodeTest::Name(NameTest::Named {
            uri: uri_of(bindings, as_str(prefix)),
            local: as_str(local),
        }),
    }
}
