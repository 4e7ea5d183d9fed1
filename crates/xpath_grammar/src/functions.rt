//! The core functions, and the types of expressions.

ghost use Rattle.std.specs.Prelude.{◌≡◌, nat_le};
ghost use Rattle.xpath_tokens.specs.Tokens.{find_named};
ghost use Rattle.xpath_tokens.specs.Reading.{or_else};
ghost use Rattle.xpath_grammar.specs.Tree.{tree_of, trees_of};
ghost use Rattle.xpath_grammar.specs.Functions.{takes, takes_nodes, takes_many, node_set_functions, string_functions};
ghost use Rattle.xpath_grammar.specs.Functions.{finding_functions, boolean_functions, number_functions, signature_of};
ghost use Rattle.xpath_grammar.specs.Functions.{answer_of, type_of, gives_nodes, count, is_within, fits};

use crate::expr::{Expr, Exprs};
use xml_model::Text;
use xml_model::texts::is_text;

/// The type of an expression, which its text shows (XPath 1.0, section 1).
#[derive(Clone, Copy)]
pub enum ValueType {
    /// A node-set.
    Nodes,
    /// A boolean.
    Truth,
    /// A number.
    Number,
    /// A string.
    Text,
    /// That of a variable, and of a call of a function that is not known; it passes as each of the others.
    Any,
}

/// What a core function takes and answers (XPath 1.0, section 4).
#[derive(Clone, Copy)]
pub struct Signature {
    /// How many arguments it takes at least.
    pub least: u8,
    /// How many arguments it takes at most; None where there is no such number.
    pub most: Option<u8>,
    /// Whether its first argument is to be a node-set.
    pub nodes: bool,
    /// The type of its answer.
    pub answer: ValueType,
}

/// The signature of a function whose arguments are of any type.
fn takes(least: u8, most: u8, answer: ValueType) -> Signature
    ensures { result ≡ takes least most answer }
{
    Signature {
        least,
        most: Some(most),
        nodes: false,
        answer,
    }
}

/// The signature of a function whose first argument is to be a node-set.
fn takes_nodes(least: u8, most: u8, answer: ValueType) -> Signature
    ensures { result ≡ takes_nodes least most answer }
{
    Signature {
        least,
        most: Some(most),
        nodes: true,
        answer,
    }
}

/// The signature of a function of any number of arguments from the least on, of any type.
fn takes_many(least: u8, answer: ValueType) -> Signature
    ensures { result ≡ takes_many least answer }
{
    Signature {
        least,
        most: None,
        nodes: false,
        answer,
    }
}

/// The node-set function of that name (XPath 1.0, section 4.1); `id` is left out.
fn node_set_function(name: &Text) -> Option<Signature>
    ensures { result ≡ find_named node_set_functions name.now }
{
    if is_text(name, "last") {
        Some(takes(0, 0, ValueType::Number))
    } else if is_text(name, "position") {
        Some(takes(0, 0, ValueType::Number))
    } else if is_text(name, "count") {
        Some(takes_nodes(1, 1, ValueType::Number))
    } else if is_text(name, "local-name") {
        Some(takes_nodes(0, 1, ValueType::Text))
    } else if is_text(name, "namespace-uri") {
        Some(takes_nodes(0, 1, ValueType::Text))
    } else if is_text(name, "name") {
        Some(takes_nodes(0, 1, ValueType::Text))
    } else {
        None
    }
}

/// The string function of that name that seeks no text in another (XPath 1.0, section 4.2).
fn string_function(name: &Text) -> Option<Signature>
    ensures { result ≡ find_named string_functions name.now }
{
    if is_text(name, "string") {
        Some(takes(0, 1, ValueType::Text))
    } else if is_text(name, "concat") {
        Some(takes_many(2, ValueType::Text))
    } else if is_text(name, "substring") {
        Some(takes(2, 3, ValueType::Text))
    } else if is_text(name, "string-length") {
        Some(takes(0, 1, ValueType::Number))
    } else if is_text(name, "normalize-space") {
        Some(takes(0, 1, ValueType::Text))
    } else if is_text(name, "translate") {
        Some(takes(3, 3, ValueType::Text))
    } else {
        None
    }
}

/// The string function of that name that seeks a text in another (XPath 1.0, section 4.2).
fn finding_function(name: &Text) -> Option<Signature>
    ensures { result ≡ find_named finding_functions name.now }
{
    if is_text(name, "starts-with") {
        Some(takes(2, 2, ValueType::Truth))
    } else if is_text(name, "contains") {
        Some(takes(2, 2, ValueType::Truth))
    } else if is_text(name, "substring-before") {
        Some(takes(2, 2, ValueType::Text))
    } else if is_text(name, "substring-after") {
        Some(takes(2, 2, ValueType::Text))
    } else {
        None
    }
}

/// The boolean function of that name (XPath 1.0, section 4.3).
fn boolean_function(name: &Text) -> Option<Signature>
    ensures { result ≡ find_named boolean_functions name.now }
{
    if is_text(name, "boolean") {
        Some(takes(1, 1, ValueType::Truth))
    } else if is_text(name, "not") {
        Some(takes(1, 1, ValueType::Truth))
    } else if is_text(name, "true") {
        Some(takes(0, 0, ValueType::Truth))
    } else if is_text(name, "false") {
        Some(takes(0, 0, ValueType::Truth))
    } else if is_text(name, "lang") {
        Some(takes(1, 1, ValueType::Truth))
    } else {
        None
    }
}

/// The number function of that name (XPath 1.0, section 4.4).
fn number_function(name: &Text) -> Option<Signature>
    ensures { result ≡ find_named number_functions name.now }
{
    if is_text(name, "number") {
        Some(takes(0, 1, ValueType::Number))
    } else if is_text(name, "sum") {
        Some(takes_nodes(1, 1, ValueType::Number))
    } else if is_text(name, "floor") {
        Some(takes(1, 1, ValueType::Number))
    } else if is_text(name, "ceiling") {
        Some(takes(1, 1, ValueType::Number))
    } else if is_text(name, "round") {
        Some(takes(1, 1, ValueType::Number))
    } else {
        None
    }
}

/// The first of two answers that is there.
fn earlier(first: Option<Signature>, second: Option<Signature>) -> Option<Signature>
    ensures { result ≡ or_else first second }
{
    match first {
        Some(signature) => Some(signature),
        None => second,
    }
}

/// What a core function takes and answers (XPath 1.0, section 4); None where it is not known, as `id` and each name
/// with a prefix.
#[tactic(auto, using(crate::proofs::Tables::signature_parts))]
pub fn signature_of(name: &Text) -> Option<Signature>
    ensures { result ≡ signature_of name.now }
{
    let last = earlier(boolean_function(name), number_function(name));
    let text = earlier(string_function(name), earlier(finding_function(name), last));
    earlier(node_set_function(name), text)
}

/// The type of a call's answer; any type where the function is not known.
fn answer_of(signature: Option<Signature>) -> ValueType
    ensures { result ≡ answer_of signature }
{
    match signature {
        Some(signature) => signature.answer,
        None => ValueType::Any,
    }
}

/// The type of an expression.
fn type_of(expr: &Expr) -> ValueType
    ensures { result ≡ type_of (tree_of expr.now) }
{
    match expr {
        Expr::Or(_, _) | Expr::And(_, _) | Expr::Compare(_, _, _) => ValueType::Truth,
        Expr::Arithmetic(_, _, _) | Expr::Negate(_) | Expr::Number(_) => ValueType::Number,
        Expr::Union(_, _) | Expr::Path { .. } | Expr::From { .. } | Expr::Filter { .. } =>
            ValueType::Nodes,
        Expr::Literal(_) => ValueType::Text,
        Expr::Variable(_) => ValueType::Any,
        Expr::Call { name, arguments: _ } => answer_of(signature_of(name)),
    }
}

/// Whether an expression gives nodes, or is of any type, as a variable is.
pub fn gives_nodes(expr: &Expr) -> bool
    ensures { result ≡ gives_nodes (tree_of expr.now) }
{
    matches!(type_of(expr), ValueType::Nodes | ValueType::Any)
}

/// Whether a list has so many expressions or more.
fn has_at_least(least: u8, list: &Exprs) -> bool
    ensures { result ≡ nat_le least (count (trees_of list.now)) }
{
    if least == 0 {
        return true;
    }
    match list {
        Exprs::End => false,
        Exprs::More(_, rest) => has_at_least(least - 1, rest),
    }
}

/// Whether a list has so many expressions or fewer.
fn has_at_most(most: u8, list: &Exprs) -> bool
    ensures { result ≡ nat_le (count (trees_of list.now)) most }
{
    match list {
        Exprs::End => true,
        Exprs::More(_, rest) => 0 < most && has_at_most(most - 1, rest),
    }
}

/// Whether a list has no more expressions than the most, where there is a most.
fn is_within(most: Option<u8>, list: &Exprs) -> bool
    ensures { result ≡ is_within most (count (trees_of list.now)) }
{
    match most {
        None => true,
        Some(most) => has_at_most(most, list),
    }
}

/// Whether the number of arguments fits a function.
pub fn fits(signature: Signature, list: &Exprs) -> bool
    ensures { result ≡ fits signature (trees_of list.now) }
{
    has_at_least(signature.least, list) && is_within(signature.most, list)
}
