//! What the core functions ask of nodes: XPath 1.0, sections 4.1 and 4.3.

ghost use Rattle.std.specs.Prelude.{◌≡◌, [], List, IfErr, IfNone, IfOk, IfSome};
ghost use Rattle.xml_model.specs.Names.{scope as tags_around};
ghost use Rattle.xml_model.specs.Tree.{Entry, Identifies};
ghost use Rattle.vtd_words.specs.Table.{IsNodeOf};
ghost use Rattle.xpath_values.specs.declared.ValueFault.TheVariants.{NoMemory as OutOfMemory};
ghost use Rattle.xpath_values.specs.Values.{Meant, string_of};
ghost use Rattle.xpath_meaning.specs.Context.{Context, nodes_in};
ghost use Rattle.xpath_meaning.specs.Functions.{argument, is_some_language, language, local_name, of_first, own};
ghost use Rattle.xpath_meaning.specs.Functions.{uri_text, whole_name};
ghost use Rattle.xpath_meaning.specs.Scope.{AreFewOf, AreHeld, AreNodes, AreValuesOf, IsContext, IsPlace, IsScope};
ghost use Rattle.xpath_meaning.specs.Scope.{source_of};
ghost use Rattle.xpath_calls.specs.Firsts.{IsFirst};

use vtd_words::Words;
use xml_model::{Node, Text};
use xpath_meaning::{Place, Scope, Values, nodes_at, place_at, table_of, text_at, value_at};
use xpath_nodes::{Walker, is_of_language, local_text, no_name, uri_text, whole_text};
use xpath_values::ValueFault;

/// The node of a place.
fn here<W: Words>(scope: &Scope<'_, '_, W>, place: Place) -> Node
    requires { IsPlace scope.now place }
    ensures node { result ≡ place.node }
    ensures known { IsNodeOf scope.now.bytes scope.now.lists result }
{
    let _table = table_of(scope);
    place.node
}

/// The first of some nodes.
fn first_of<W: Words>(scope: &Scope<'_, '_, W>, nodes: &[Node]) -> Option<Node>
    requires { AreFewOf scope.now nodes.now }
    ensures none { IfNone result (nodes.now ≡ []) }
    ensures some { IfSome result (λ n. (c : Context) → IsScope scope.now c → (es : List Entry) →
        AreNodes c.document nodes.now es → IsFirst c.document n es) }
    ensures known { IfSome result (IsNodeOf scope.now.bytes scope.now.lists) }
{
    if nodes.is_empty() {
        return None;
    }
    Some(here(scope, place_at(scope, nodes, 0)))
}

/// The first node of the first argument; where there is no argument, the context node.
fn first_own<W: Words>(scope: &Scope<'_, '_, W>, place: Place, arguments: &Values) -> Option<Node>
    requires place { IsPlace scope.now place }
    requires arguments { AreValuesOf scope.now arguments.now }
    ensures none { IfNone result ((c : Context) → IsContext scope.now place c → (vs : List Meant) →
        AreHeld c.document arguments.now vs → nodes_in (own c vs) ≡ []) }
    ensures some { IfSome result (λ n. (c : Context) → IsContext scope.now place c → (vs : List Meant) →
        AreHeld c.document arguments.now vs → IsFirst c.document n (nodes_in (own c vs))) }
    ensures known { IfSome result (IsNodeOf scope.now.bytes scope.now.lists) }
{
    match value_at(arguments, 0) {
        None => Some(here(scope, place)),
        Some(_) => first_of(scope, nodes_at(scope, arguments)),
    }
}

/// A name without characters.
fn nameless<W: Words>(scope: &Scope<'_, '_, W>) -> Result<Text, ValueFault>
    ensures text { IfOk result (λ t. t ≡ []) }
    ensures full { IfErr result (λ e. e ≡ OutOfMemory) }
{
    match no_name(scope.alloc) {
        Ok(text) => Ok(text),
        Err(_) => Err(ValueFault::NoMemory),
    }
}

/// The local part of a node's name.
fn local_of<W: Words>(scope: &Scope<'_, '_, W>, node: Node) -> Result<Text, ValueFault>
    requires { IsNodeOf scope.now.bytes scope.now.lists node }
    ensures text { IfOk result (λ t. (c : Context) → IsScope scope.now c → (e : Entry) →
        Identifies node.kind node.at e c.document → t ≡ local_name e) }
    ensures full { IfErr result (λ e. e ≡ OutOfMemory) }
{
    match local_text(scope.alloc, table_of(scope), node) {
        Ok(text) => Ok(text),
        Err(_) => Err(ValueFault::NoMemory),
    }
}

/// The local part of the name of the first node of the first argument, or of the context node.
pub fn local_name<W: Words>(
    scope: &Scope<'_, '_, W>,
    place: Place,
    arguments: &Values,
) -> Result<Text, ValueFault>
    requires place { IsPlace scope.now place }
    requires arguments { AreValuesOf scope.now arguments.now }
    ensures text { IfOk result (λ t. (c : Context) → IsContext scope.now place c → (vs : List Meant) →
        AreHeld c.document arguments.now vs → t ≡ of_first local_name (nodes_in (own c vs))) }
    ensures full { IfErr result (λ e. e ≡ OutOfMemory) }
{
    match first_own(scope, place, arguments) {
        None => nameless(scope),
        Some(node) => local_of(scope, node),
    }
}

/// The name of a node as it is written.
fn name_of<W: Words>(scope: &Scope<'_, '_, W>, node: Node) -> Result<Text, ValueFault>
    requires { IsNodeOf scope.now.bytes scope.now.lists node }
    ensures text { IfOk result (λ t. (c : Context) → IsScope scope.now c → (e : Entry) →
        Identifies node.kind node.at e c.document → t ≡ whole_name e) }
    ensures full { IfErr result (λ e. e ≡ OutOfMemory) }
{
    match whole_text(scope.alloc, table_of(scope), node) {
        Ok(text) => Ok(text),
        Err(_) => Err(ValueFault::NoMemory),
    }
}

/// The name, as it is written, of the first node of the first argument, or of the context node.
pub fn written_name<W: Words>(
    scope: &Scope<'_, '_, W>,
    place: Place,
    arguments: &Values,
) -> Result<Text, ValueFault>
    requires place { IsPlace scope.now place }
    requires arguments { AreValuesOf scope.now arguments.now }
    ensures text { IfOk result (λ t. (c : Context) → IsContext scope.now place c → (vs : List Meant) →
        AreHeld c.document arguments.now vs → t ≡ of_first whole_name (nodes_in (own c vs))) }
    ensures full { IfErr result (λ e. e ≡ OutOfMemory) }
{
    match first_own(scope, place, arguments) {
        None => nameless(scope),
        Some(node) => name_of(scope, node),
    }
}

/// The URI of a node's expanded name.
fn uri_of<W: Words>(
    scope: &Scope<'_, '_, W>,
    walker: &mut Walker<'_, '_, W>,
    node: Node,
) -> Result<Text, ValueFault>
    requires node { IsNodeOf scope.now.bytes scope.now.lists node }
    requires walker { walker.old ≡ source_of scope.now }
    ensures text { IfOk result (λ t. (c : Context) → IsScope scope.now c → (e : Entry) →
        Identifies node.kind node.at e c.document → t ≡ uri_text e) }
    ensures full { IfErr result (λ e. e ≡ OutOfMemory) }
    ensures walker { walker.new ≡ walker.old }
{
    match uri_text(scope.alloc, walker.nav.table(), &mut walker.resolver, node) {
        Ok(text) => Ok(text),
        Err(_) => Err(ValueFault::NoMemory),
    }
}

/// The URI of the name of the first node of the first argument, or of the context node.
pub fn namespace<W: Words>(
    scope: &Scope<'_, '_, W>,
    walker: &mut Walker<'_, '_, W>,
    place: Place,
    arguments: &Values,
) -> Result<Text, ValueFault>
    requires place { IsPlace scope.now place }
    requires arguments { AreValuesOf scope.now arguments.now }
    requires walker { walker.old ≡ source_of scope.now }
    ensures text { IfOk result (λ t. (c : Context) → IsContext scope.now place c → (vs : List Meant) →
        AreHeld c.document arguments.now vs → t ≡ of_first uri_text (nodes_in (own c vs))) }
    ensures full { IfErr result (λ e. e ≡ OutOfMemory) }
    ensures walker { walker.new ≡ walker.old }
{
    match first_own(scope, place, arguments) {
        None => nameless(scope),
        Some(node) => uri_of(scope, walker, node),
    }
}

/// Whether the context node is of the language that a text names.
fn speaks<W: Words>(scope: &Scope<'_, '_, W>, place: Place, asked: &Text) -> bool
    requires { IsPlace scope.now place }
    ensures { (c : Context) → IsContext scope.now place c →
        result ≡ is_some_language asked.now (language (tags_around c.node)) }
{
    is_of_language(table_of(scope), place.node, asked)
}

/// Whether the context node is of the language that the first argument names.
pub fn lang<W: Words>(
    scope: &Scope<'_, '_, W>,
    place: Place,
    arguments: &Values,
) -> Result<bool, ValueFault>
    requires place { IsPlace scope.now place }
    requires arguments { AreValuesOf scope.now arguments.now }
    ensures truth { IfOk result (λ b. (c : Context) → IsContext scope.now place c → (vs : List Meant) →
        AreHeld c.document arguments.now vs →
        b ≡ is_some_language (string_of (argument 0 vs)) (language (tags_around c.node))) }
    ensures full { IfErr result (λ e. e ≡ OutOfMemory) }
{
    match text_at(scope, arguments, 0) {
        Err(fault) => Err(fault),
        Ok(asked) => Ok(speaks(scope, place, &asked)),
    }
}
