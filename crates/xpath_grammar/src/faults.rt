//! The refusals of the parts of an expression.

ghost use Rattle.std.specs.Prelude.{◌≡◌, Some, Err};
ghost use Rattle.xpath_tokens.specs.Reading.{or_else};
ghost use Rattle.xpath_grammar.specs.Tree.{trees_of};
ghost use Rattle.xpath_grammar.specs.Static.{refusal_of, number_fault, axis_fault, prefix_fault, test_fault};
ghost use Rattle.xpath_grammar.specs.Static.{call_fault, wants_nodes};
ghost use Rattle.xpath_grammar.specs.Functions.{signature_of};

use crate::bindings::Bindings;
use crate::expr::{Exprs, StepTest};
use crate::functions::{fits, signature_of};
use xml_model::Text;
use xml_model::texts::{as_str, is_empty};
use xpath_tokens::{NumberFault, StepAxis, number_value};

/// Why an expression is refused before it meets a document.
#[derive(Clone, Copy, Debug, PartialEq)]
pub enum StaticFault {
    /// The axis is `namespace`.
    Axis,
    /// No variable is bound.
    Variable,
    /// The function is not known.
    Function,
    /// The function does not take so many arguments.
    Arguments,
    /// The prefix of a name test is not bound.
    Prefix,
    /// A digit after a number's sixth place is not 0.
    Fraction,
    /// A number is above 9007199254740991.
    Range,
    /// Nodes are needed where an expression of another type is.
    NotNodes,
}

/// What a fault of a number refuses.
fn refused_number(fault: NumberFault) -> StaticFault
    ensures { refusal_of (Err fault) ≡ Some result }
{
    match fault {
        NumberFault::Fraction => StaticFault::Fraction,
        NumberFault::Range => StaticFault::Range,
    }
}

/// What a number refuses.
pub fn number_fault(text: &Text) -> Option<StaticFault>
    ensures { result ≡ number_fault text.now }
{
    match number_value(as_str(text)) {
        Ok(_) => None,
        Err(fault) => Some(refused_number(fault)),
    }
}

/// What an axis refuses.
pub fn axis_fault(axis: StepAxis) -> Option<StaticFault>
    ensures { result ≡ axis_fault axis }
{
    match axis {
        StepAxis::Known(_) => None,
        StepAxis::Namespace => Some(StaticFault::Axis),
    }
}

/// What a prefix refuses.
fn prefix_fault(bindings: &Bindings, prefix: &Text) -> Option<StaticFault>
    ensures { result ≡ prefix_fault bindings.now prefix.now }
{
    match bindings.uri_of(as_str(prefix)) {
        Some(_) => None,
        None => Some(StaticFault::Prefix),
    }
}

/// What a node test refuses.
pub fn test_fault(bindings: &Bindings, test: &StepTest) -> Option<StaticFault>
    ensures { result ≡ test_fault bindings.now test.now }
{
    match test {
        StepTest::AnyIn(prefix) => prefix_fault(bindings, prefix),
        StepTest::Named { prefix, local: _ } => {
            if is_empty(as_str(prefix)) {
                None
            } else {
                prefix_fault(bindings, prefix)
            }
        }
        _ => None,
    }
}

/// What a call refuses at the function's name.
pub fn call_fault(name: &Text, arguments: &Exprs) -> Option<StaticFault>
    ensures { result ≡ call_fault name.now (trees_of arguments.now) }
{
    match signature_of(name) {
        None => Some(StaticFault::Function),
        Some(signature) => {
            if fits(signature, arguments) {
                None
            } else {
                Some(StaticFault::Arguments)
            }
        }
    }
}

/// Whether the first argument of a function is needed as nodes.
pub fn wants_nodes(name: &Text) -> bool
    ensures { result ≡ wants_nodes (signature_of name.now) }
{
    match signature_of(name) {
        None => false,
        Some(signature) => signature.nodes,
    }
}

/// The earlier of two refusals.
pub fn earlier(first: Option<StaticFault>, second: Option<StaticFault>) -> Option<StaticFault>
    ensures { result ≡ or_else first second }
{
    match first {
        Some(fault) => Some(fault),
        None => second,
    }
}
