//! The core functions.

ghost use Rattle.std.specs.Prelude.{◌≡◌};
ghost use Rattle.xpath_tokens.specs.Reading.{or_else};
ghost use Rattle.xpath_tokens.specs.Tokens.{find_named};
ghost use Rattle.xpath_meaning.specs.Functions.{function_named, node_functions, number_functions, seeking_functions};
ghost use Rattle.xpath_meaning.specs.Functions.{text_functions, truth_functions};

use xml_model::Text;
use xml_model::texts::is_text;

/// The core functions (XPath 1.0, section 4).
#[derive(Clone, Copy, Debug, PartialEq, Eq)]
pub enum Function {
    Last,
    Position,
    Count,
    LocalName,
    NamespaceUri,
    Name,
    AsString,
    Concat,
    StartsWith,
    Contains,
    SubstringBefore,
    SubstringAfter,
    Substring,
    StringLength,
    NormalizeSpace,
    Translate,
    AsBoolean,
    Not,
    IsTrue,
    IsFalse,
    Lang,
    AsNumber,
    Sum,
    Floor,
    Ceiling,
    Round,
}

/// The node-set function of that name (XPath 1.0, section 4.1); `id` is left out.
fn node_function(name: &Text) -> Option<Function>
    ensures { result ≡ find_named node_functions name.now }
{
    if is_text(name, "last") {
        Some(Function::Last)
    } else if is_text(name, "position") {
        Some(Function::Position)
    } else if is_text(name, "count") {
        Some(Function::Count)
    } else if is_text(name, "local-name") {
        Some(Function::LocalName)
    } else if is_text(name, "namespace-uri") {
        Some(Function::NamespaceUri)
    } else if is_text(name, "name") {
        Some(Function::Name)
    } else {
        None
    }
}

/// The string function of that name that seeks no text in another (XPath 1.0, section 4.2).
fn text_function(name: &Text) -> Option<Function>
    ensures { result ≡ find_named text_functions name.now }
{
    if is_text(name, "string") {
        Some(Function::AsString)
    } else if is_text(name, "concat") {
        Some(Function::Concat)
    } else if is_text(name, "substring") {
        Some(Function::Substring)
    } else if is_text(name, "string-length") {
        Some(Function::StringLength)
    } else if is_text(name, "normalize-space") {
        Some(Function::NormalizeSpace)
    } else if is_text(name, "translate") {
        Some(Function::Translate)
    } else {
        None
    }
}

/// The string function of that name that seeks a text in another (XPath 1.0, section 4.2).
fn seeking_function(name: &Text) -> Option<Function>
    ensures { result ≡ find_named seeking_functions name.now }
{
    if is_text(name, "starts-with") {
        Some(Function::StartsWith)
    } else if is_text(name, "contains") {
        Some(Function::Contains)
    } else if is_text(name, "substring-before") {
        Some(Function::SubstringBefore)
    } else if is_text(name, "substring-after") {
        Some(Function::SubstringAfter)
    } else {
        None
    }
}

/// The boolean function of that name (XPath 1.0, section 4.3).
fn truth_function(name: &Text) -> Option<Function>
    ensures { result ≡ find_named truth_functions name.now }
{
    if is_text(name, "boolean") {
        Some(Function::AsBoolean)
    } else if is_text(name, "not") {
        Some(Function::Not)
    } else if is_text(name, "true") {
        Some(Function::IsTrue)
    } else if is_text(name, "false") {
        Some(Function::IsFalse)
    } else if is_text(name, "lang") {
        Some(Function::Lang)
    } else {
        None
    }
}

/// The number function of that name (XPath 1.0, section 4.4).
fn number_function(name: &Text) -> Option<Function>
    ensures { result ≡ find_named number_functions name.now }
{
    if is_text(name, "number") {
        Some(Function::AsNumber)
    } else if is_text(name, "sum") {
        Some(Function::Sum)
    } else if is_text(name, "floor") {
        Some(Function::Floor)
    } else if is_text(name, "ceiling") {
        Some(Function::Ceiling)
    } else if is_text(name, "round") {
        Some(Function::Round)
    } else {
        None
    }
}

/// The first of two answers that is there.
fn earlier(first: Option<Function>, second: Option<Function>) -> Option<Function>
    ensures { result ≡ or_else first second }
{
    match first {
        Some(function) => Some(function),
        None => second,
    }
}

/// The core function of a name (XPath 1.0, section 4); None where it is not known.
#[tactic(auto, using(crate::proofs::Tables::function_parts))]
pub fn function_named(name: &Text) -> Option<Function>
    ensures { result ≡ function_named name.now }
{
    let last = earlier(truth_function(name), number_function(name));
    let text = earlier(text_function(name), earlier(seeking_function(name), last));
    earlier(node_function(name), text)
}
