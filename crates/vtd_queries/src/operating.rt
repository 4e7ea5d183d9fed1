//! Operations on the nodes of an expression.

ghost use Rattle.std.specs.Prelude.{◌≡◌, length, IfOk};
ghost use Rattle.std.specs.List.{All};
ghost use Rattle.xml_model.specs.Nest.{Forest};
ghost use Rattle.vtd_edits.specs.Splices.{IsWithin};
ghost use Rattle.vtd_location.specs.Nav.{IsNavOf};
ghost use Rattle.vtd_queries.specs.Meets.{Makes};
ghost use Rattle.vtd_queries.specs.Operations.{Operates};

use crate::asking::ask_nodes;
use crate::faults::OperationFault;
use std::alloc::Global;
use vtd_edits::Splices;
use vtd_location::Nav;
use vtd_modifier::{Operation, splices_of};
use vtd_words::Words;
use xml_model::NodeList;
use xpath_grammar::Bindings;

/// What an operation makes of nodes.
#[derive(Drop)]
pub struct Operated {
    /// How many nodes there are.
    pub count: u64,
    /// The splices of each node, in document order.
    pub splices: Splices,
}

/// How many nodes a list has.
fn count_of(nodes: &NodeList) -> u64
    ensures { result ≡ length nodes.now }
{
    nodes.held.as_slice().len() as u64
}

/// The splices of an operation on the nodes that the text of an expression answers on a document; they are within the
/// document. It costs what `ask_nodes` and `splices_of` do.
///
/// # Errors
/// The first that applies: `Query` exactly where `ask_nodes` has that fault; `Name` exactly where the new name of
/// `Rename` is no QName; `Kind` exactly where the operation does not take the kind of a node, with the place where the
/// first such node begins. `Query(NoMemory)` may come in place of any other answer.
pub fn operate<W: Words>(
    alloc: Global,
    nav: &Nav<'_, W>,
    bindings: &Bindings,
    text: &str,
    operation: Operation<'_>,
) -> Result<Operated, OperationFault>
    ensures answers { (nest : Forest) → IsNavOf nav.now.bytes (W.lists nav.now.words) nest →
        Makes (Operates nav.now.bytes nest bindings.now text.now operation.entry) result }
    ensures within { IfOk result (λ made. All (IsWithin (length nav.now.bytes)) made.splices) }
{
    let nodes = ask_nodes(alloc, nav, bindings, text)?;
    let splices = splices_of(alloc, nav, operation, &nodes)?;
    Ok(Operated {
        count: count_of(&nodes),
        splices,
    })
}
