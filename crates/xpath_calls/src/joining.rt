//! Arguments joined: XPath 1.0, section 4.2.

ghost use Rattle.std.specs.Prelude.{◌≡◌, ◌++◌, IfErr, IfOk, List, OnOk};
ghost use Rattle.std.specs.List.{flat_map};
ghost use Rattle.xpath_values.specs.declared.ValueFault.TheVariants.{NoMemory as OutOfMemory};
ghost use Rattle.xpath_values.specs.Values.{Meant, string_of};
ghost use Rattle.xpath_meaning.specs.Context.{Context};
ghost use Rattle.xpath_meaning.specs.Functions.{argument};
ghost use Rattle.xpath_meaning.specs.Scope.{AreHeld, AreValuesOf, IsScope};

use vtd_words::Words;
use xml_model::Text;
use xml_model::texts::as_str;
use xpath_meaning::{Scope, Values, text_at};
use xpath_values::ValueFault;

/// Appends a text to another.
fn push_text(joined: &mut Text, more: &Text) -> Result<(), ValueFault>
    ensures joined { OnOk result (joined.new ≡ joined.old ++ more.now) }
    ensures full { IfErr result (λ e. e ≡ OutOfMemory) }
{
    let _before = joined.held.as_str();
    joined.held.push_str(as_str(more))?;
    Ok(())
}

/// Appends the argument with an index, as a string.
fn push_argument<W: Words>(
    scope: &Scope<'_, '_, W>,
    arguments: &Values,
    i: usize,
    joined: &mut Text,
) -> Result<(), ValueFault>
    requires { AreValuesOf scope.now arguments.now }
    ensures joined { OnOk result ((c : Context) → IsScope scope.now c → (vs : List Meant) →
        AreHeld c.document arguments.now vs → joined.new ≡ joined.old ++ string_of (argument i vs)) }
    ensures full { IfErr result (λ e. e ≡ OutOfMemory) }
{
    match text_at(scope, arguments, i) {
        Err(fault) => Err(fault),
        Ok(text) => push_text(joined, &text),
    }
}

/// The arguments as strings, joined. It takes one pass over their characters.
pub fn joined<W: Words>(scope: &Scope<'_, '_, W>, arguments: &Values) -> Result<Text, ValueFault>
    requires { AreValuesOf scope.now arguments.now }
    ensures text { IfOk result (λ t. (c : Context) → IsScope scope.now c → (vs : List Meant) →
        AreHeld c.document arguments.now vs → t ≡ flat_map string_of vs) }
    ensures full { IfErr result (λ e. e ≡ OutOfMemory) }
{
    let mut joined = Text {
        held: String::new(scope.alloc),
    };
    for i in 0..arguments.held.len() {
        push_argument(scope, arguments, i, &mut joined)?;
    }
    Ok(joined)
}
