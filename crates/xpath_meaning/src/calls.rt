//! What the core functions answer, from their arguments: XPath 1.0, section 4.

ghost use Rattle.std.specs.Prelude.{◌≡◌, ◌*◌, List, IfErr, IfOk, length, pos};
ghost use Rattle.xpath_values.specs.Answers.{with};
ghost use Rattle.xpath_values.specs.declared.ValueFault.TheVariants.{NoMemory as OutOfMemory};
ghost use Rattle.xpath_values.specs.Numbers as numbers;
ghost use Rattle.xpath_values.specs.Numbers.{IsNumber, counted, in_range, one};
ghost use Rattle.xpath_values.specs.Texts as texts;
ghost use Rattle.xpath_values.specs.Values.{Meant, number_of, string_of, string_value};
ghost use Rattle.xpath_meaning.specs.Context.{Context, nodes_in};
ghost use Rattle.xpath_meaning.specs.Functions.{argument, own};
ghost use Rattle.xpath_meaning.specs.Scope.{AreHeld, AreValuesOf, IsContext, IsPlace, IsScope};

use crate::arguments::{context_value, nodes_at, number_at, text_at, to_text, value_at};
use crate::makers;
use crate::scope::{Place, Scope, Values};
use std::alloc::Global;
use vtd_words::Words;
use xml_model::Text;
use xpath_values::{
    Number, ValueFault, ceiling, contains, floor, normalize_space, round, starts_with,
    string_length, substring_after, substring_before, translate,
};

/// The number of nodes of the first argument.
pub fn count<W: Words>(scope: &Scope<'_, '_, W>, arguments: &Values) -> Number
    requires { AreValuesOf scope.now arguments.now }
    ensures number { (c : Context) → IsScope scope.now c → (vs : List Meant) → AreHeld c.document arguments.now vs →
        result ≡ counted (length (nodes_in (argument 0 vs))) }
    ensures fits { IsNumber result }
{
    makers::counted(nodes_at(scope, arguments).len())
}

/// What is before a text in another.
fn before_in(alloc: Global, one: &Text, other: &Text) -> Result<Text, ValueFault>
    ensures text { IfOk result (λ t. t ≡ texts.substring_before one.now other.now) }
    ensures full { IfErr result (λ e. e ≡ OutOfMemory) }
{
    match substring_before(alloc, one, other) {
        Ok(text) => Ok(text),
        Err(_) => Err(ValueFault::NoMemory),
    }
}

/// What is before the second argument in the first.
pub fn before<W: Words>(scope: &Scope<'_, '_, W>, arguments: &Values) -> Result<Text, ValueFault>
    requires { AreValuesOf scope.now arguments.now }
    ensures text { IfOk result (λ t. (c : Context) → IsScope scope.now c →
        (vs : List Meant) → AreHeld c.document arguments.now vs →
        t ≡ texts.substring_before (string_of (argument 0 vs)) (string_of (argument 1 vs))) }
    ensures full { IfErr result (λ e. e ≡ OutOfMemory) }
{
    match text_at(scope, arguments, 0) {
        Err(fault) => Err(fault),
        Ok(one) => match text_at(scope, arguments, 1) {
            Err(fault) => Err(fault),
            Ok(other) => before_in(scope.alloc, &one, &other),
        },
    }
}

/// What is after a text in another.
fn after_in(alloc: Global, one: &Text, other: &Text) -> Result<Text, ValueFault>
    ensures text { IfOk result (λ t. t ≡ texts.substring_after one.now other.now) }
    ensures full { IfErr result (λ e. e ≡ OutOfMemory) }
{
    match substring_after(alloc, one, other) {
        Ok(text) => Ok(text),
        Err(_) => Err(ValueFault::NoMemory),
    }
}

/// What is after the second argument in the first.
pub fn after<W: Words>(scope: &Scope<'_, '_, W>, arguments: &Values) -> Result<Text, ValueFault>
    requires { AreValuesOf scope.now arguments.now }
    ensures text { IfOk result (λ t. (c : Context) → IsScope scope.now c →
        (vs : List Meant) → AreHeld c.document arguments.now vs →
        t ≡ texts.substring_after (string_of (argument 0 vs)) (string_of (argument 1 vs))) }
    ensures full { IfErr result (λ e. e ≡ OutOfMemory) }
{
    match text_at(scope, arguments, 0) {
        Err(fault) => Err(fault),
        Ok(one) => match text_at(scope, arguments, 1) {
            Err(fault) => Err(fault),
            Ok(other) => after_in(scope.alloc, &one, &other),
        },
    }
}

/// Whether the first argument begins with the second.
pub fn starts<W: Words>(scope: &Scope<'_, '_, W>, arguments: &Values) -> Result<bool, ValueFault>
    requires { AreValuesOf scope.now arguments.now }
    ensures truth { IfOk result (λ b. (c : Context) → IsScope scope.now c →
        (vs : List Meant) → AreHeld c.document arguments.now vs →
        b ≡ texts.starts_with (string_of (argument 0 vs)) (string_of (argument 1 vs))) }
    ensures full { IfErr result (λ e. e ≡ OutOfMemory) }
{
    match text_at(scope, arguments, 0) {
        Err(fault) => Err(fault),
        Ok(one) => match text_at(scope, arguments, 1) {
            Err(fault) => Err(fault),
            Ok(other) => Ok(starts_with(&one, &other)),
        },
    }
}

/// Whether the second argument is in the first.
pub fn has<W: Words>(scope: &Scope<'_, '_, W>, arguments: &Values) -> Result<bool, ValueFault>
    requires { AreValuesOf scope.now arguments.now }
    ensures truth { IfOk result (λ b. (c : Context) → IsScope scope.now c →
        (vs : List Meant) → AreHeld c.document arguments.now vs →
        b ≡ texts.contains (string_of (argument 0 vs)) (string_of (argument 1 vs))) }
    ensures full { IfErr result (λ e. e ≡ OutOfMemory) }
{
    match text_at(scope, arguments, 0) {
        Err(fault) => Err(fault),
        Ok(one) => match text_at(scope, arguments, 1) {
            Err(fault) => Err(fault),
            Ok(other) => Ok(contains(&one, &other)),
        },
    }
}

/// A text with characters of a second replaced by those of a third.
fn translated_in(alloc: Global, text: &Text, from: &Text, to: &Text) -> Result<Text, ValueFault>
    ensures text { IfOk result (λ t. t ≡ texts.translate text.now from.now to.now) }
    ensures full { IfErr result (λ e. e ≡ OutOfMemory) }
{
    match translate(alloc, text, from, to) {
        Ok(text) => Ok(text),
        Err(_) => Err(ValueFault::NoMemory),
    }
}

/// A text, with characters of the second argument replaced by those of the third.
fn translated_by<W: Words>(
    scope: &Scope<'_, '_, W>,
    arguments: &Values,
    text: &Text,
) -> Result<Text, ValueFault>
    requires { AreValuesOf scope.now arguments.now }
    ensures text { IfOk result (λ t. (c : Context) → IsScope scope.now c →
        (vs : List Meant) → AreHeld c.document arguments.now vs →
        t ≡ texts.translate text.now (string_of (argument 1 vs)) (string_of (argument 2 vs))) }
    ensures full { IfErr result (λ e. e ≡ OutOfMemory) }
{
    match text_at(scope, arguments, 1) {
        Err(fault) => Err(fault),
        Ok(from) => match text_at(scope, arguments, 2) {
            Err(fault) => Err(fault),
            Ok(to) => translated_in(scope.alloc, text, &from, &to),
        },
    }
}

/// The first argument, with characters of the second replaced by those of the third.
pub fn translated<W: Words>(
    scope: &Scope<'_, '_, W>,
    arguments: &Values,
) -> Result<Text, ValueFault>
    requires { AreValuesOf scope.now arguments.now }
    ensures text { IfOk result (λ t. (c : Context) → IsScope scope.now c →
        (vs : List Meant) → AreHeld c.document arguments.now vs →
        t ≡ texts.translate (string_of (argument 0 vs)) (string_of (argument 1 vs)) (string_of (argument 2 vs))) }
    ensures full { IfErr result (λ e. e ≡ OutOfMemory) }
{
    match text_at(scope, arguments, 0) {
        Err(fault) => Err(fault),
        Ok(text) => translated_by(scope, arguments, &text),
    }
}

/// The string-value of the context node.
fn context_text<W: Words>(scope: &Scope<'_, '_, W>, place: Place) -> Result<Text, ValueFault>
    requires { IsPlace scope.now place }
    ensures text { IfOk result (λ t. (c : Context) → IsContext scope.now place c → t ≡ string_value c.node) }
    ensures full { IfErr result (λ e. e ≡ OutOfMemory) }
{
    match context_value(scope, place) {
        Err(fault) => Err(fault),
        Ok(value) => to_text(scope, &value),
    }
}

/// The first argument, or the context node, as a string.
pub fn own_text<W: Words>(
    scope: &Scope<'_, '_, W>,
    place: Place,
    arguments: &Values,
) -> Result<Text, ValueFault>
    requires place { IsPlace scope.now place }
    requires arguments { AreValuesOf scope.now arguments.now }
    ensures text { IfOk result (λ t. (c : Context) → IsContext scope.now place c →
        (vs : List Meant) → AreHeld c.document arguments.now vs → t ≡ string_of (own c vs)) }
    ensures full { IfErr result (λ e. e ≡ OutOfMemory) }
{
    match value_at(arguments, 0) {
        Some(value) => to_text(scope, value),
        None => context_text(scope, place),
    }
}

/// A text with one space between words.
fn normalized_in(alloc: Global, text: &Text) -> Result<Text, ValueFault>
    ensures text { IfOk result (λ t. t ≡ texts.normalize_space text.now) }
    ensures full { IfErr result (λ e. e ≡ OutOfMemory) }
{
    match normalize_space(alloc, text) {
        Ok(text) => Ok(text),
        Err(_) => Err(ValueFault::NoMemory),
    }
}

/// The first argument, or the context node's string-value, with one space between words.
pub fn normalized<W: Words>(
    scope: &Scope<'_, '_, W>,
    place: Place,
    arguments: &Values,
) -> Result<Text, ValueFault>
    requires place { IsPlace scope.now place }
    requires arguments { AreValuesOf scope.now arguments.now }
    ensures text { IfOk result (λ t. (c : Context) → IsContext scope.now place c →
        (vs : List Meant) → AreHeld c.document arguments.now vs → t ≡ texts.normalize_space (string_of (own c vs))) }
    ensures full { IfErr result (λ e. e ≡ OutOfMemory) }
{
    match own_text(scope, place, arguments) {
        Err(fault) => Err(fault),
        Ok(text) => normalized_in(scope.alloc, &text),
    }
}

/// The number of characters of a text, where it is in range.
pub fn length_in_range(text: &Text) -> Result<Number, ValueFault>
    ensures value { result ≡ in_range (pos (one * length text.now)) }
    ensures fits { IfOk result IsNumber }
{
    string_length(text)
}

/// The greatest whole number that is not above the first argument.
pub fn floor_of<W: Words>(
    scope: &Scope<'_, '_, W>,
    arguments: &Values,
) -> Result<Number, ValueFault>
    requires { AreValuesOf scope.now arguments.now }
    ensures number { (c : Context) → IsScope scope.now c → (vs : List Meant) → AreHeld c.document arguments.now vs →
        result ≡ with (number_of (argument 0 vs)) numbers.floor }
    ensures fits { IfOk result IsNumber }
{
    match number_at(scope, arguments, 0) {
        Ok(number) => Ok(floor(number)),
        Err(fault) => Err(fault),
    }
}

/// The least whole number that is not below the first argument.
pub fn ceiling_of<W: Words>(
    scope: &Scope<'_, '_, W>,
    arguments: &Values,
) -> Result<Number, ValueFault>
    requires { AreValuesOf scope.now arguments.now }
    ensures number { (c : Context) → IsScope scope.now c → (vs : List Meant) → AreHeld c.document arguments.now vs →
        result ≡ with (number_of (argument 0 vs)) numbers.ceiling }
    ensures fits { IfOk result IsNumber }
{
    match number_at(scope, arguments, 0) {
        Ok(number) => Ok(ceiling(number)),
        Err(fault) => Err(fault),
    }
}

/// The whole number that is nearest to the first argument.
pub fn round_of<W: Words>(
    scope: &Scope<'_, '_, W>,
    arguments: &Values,
) -> Result<Number, ValueFault>
    requires { AreValuesOf scope.now arguments.now }
    ensures number { (c : Context) → IsScope scope.now c → (vs : List Meant) → AreHeld c.document arguments.now vs →
        result ≡ with (number_of (argument 0 vs)) numbers.round }
    ensures fits { IfOk result IsNumber }
{
    match number_at(scope, arguments, 0) {
        Ok(number) => Ok(round(number)),
        Err(fault) => Err(fault),
    }
}
