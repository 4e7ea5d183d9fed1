//! The lines of commands that take an expression.

ghost use Rattle.std.specs.Prelude.{◌≡◌, IfOk};
ghost use Rattle.vtd_script.specs.Changes.{Told, operation_stop, query_stop, stage_stop};
ghost use Rattle.vtd_script.specs.Queries.{Selects, Values};
ghost use Rattle.vtd_script.specs.Staging.{staged_line};

use crate::ready::Stop;
use crate::refusals::Refusal;
use std::alloc::Global;
use vtd_documents::Document;
use vtd_edits::StageFault;
use vtd_listing::{push_decimal, push_text};
use vtd_queries::{OperationFault, QueryFault};
use xml_model::{Bytes, NoMemory};
use xpath_grammar::Bindings;

/// Why a command ends, by why its expression has no answer.
pub fn query_stop(fault: QueryFault) -> Stop
    ensures { result ≡ query_stop fault }
{
    match fault {
        QueryFault::Long => Stop::Refused(Refusal::ExprLong),
        QueryFault::Deep => Stop::Refused(Refusal::ExprDeep),
        QueryFault::Syntax => Stop::Refused(Refusal::ExprSyntax),
        QueryFault::Axis => Stop::Refused(Refusal::Axis),
        QueryFault::Variable => Stop::Refused(Refusal::Variable),
        QueryFault::Function => Stop::Refused(Refusal::Function),
        QueryFault::Arguments => Stop::Refused(Refusal::Arguments),
        QueryFault::Prefix => Stop::Refused(Refusal::Prefix),
        QueryFault::LiteralFraction => Stop::Refused(Refusal::LiteralFraction),
        QueryFault::LiteralRange => Stop::Refused(Refusal::LiteralRange),
        QueryFault::NeedsNodes => Stop::Refused(Refusal::NeedsNodes),
        QueryFault::NotNodes => Stop::Refused(Refusal::NotNodes),
        QueryFault::Fraction => Stop::Refused(Refusal::Fraction),
        QueryFault::Infinite => Stop::Refused(Refusal::Infinite),
        QueryFault::Range => Stop::Refused(Refusal::Range),
        QueryFault::NoMemory => Stop::NoMemory,
    }
}

/// Why a command ends, by why an operation makes no splices.
pub fn operation_stop(fault: OperationFault) -> Stop
    ensures { result ≡ operation_stop fault }
{
    match fault {
        OperationFault::Query(fault) => query_stop(fault),
        OperationFault::Name => Stop::Refused(Refusal::Name),
        OperationFault::Kind { at } => Stop::Refused(Refusal::Kind { at }),
    }
}

/// Why a command ends, by why splices are not staged.
pub fn stage_stop(fault: StageFault) -> Stop
    ensures { result ≡ stage_stop fault }
{
    match fault {
        StageFault::Overlap { earlier, later } => {
            Stop::Refused(Refusal::Overlap { earlier, later })
        }
        StageFault::TextLong => Stop::Refused(Refusal::TextLong),
        StageFault::NoMemory => Stop::NoMemory,
    }
}

/// The line of what was staged, by how many nodes the expression has.
///
/// # Errors
/// `NoMemory` where the memory for the line was not to be had.
pub fn staged_lines(alloc: Global, count: u64) -> Result<Vec<u8>, NoMemory>
    ensures { IfOk result (λ lines. lines.items ≡ staged_line count) }
{
    let mut lines = Vec::new(alloc);
    push_text(&mut lines, b"staged ")?;
    push_decimal(&mut lines, count)?;
    push_text(&mut lines, b"\n")?;
    Ok(lines)
}

/// The lines of the command `select`: the nodes of an expression, in document order.
///
/// # Errors
/// `Refused` exactly where the expression has no nodes, with why; `NoMemory` may come in place of any other answer.
pub fn selected_lines(
    alloc: Global,
    document: &Document<'_>,
    bindings: &Bindings,
    expr: &str,
) -> Result<Bytes, Stop>
    ensures { Told (Selects document.now bindings.now expr.now) result }
{
    match document.node_lines(alloc, bindings, expr) {
        Ok(lines) => Ok(lines),
        Err(fault) => Err(query_stop(fault)),
    }
}

/// The line of the command `value`: the string of an expression (XPath 1.0, section 4.2).
///
/// # Errors
/// `Refused` exactly where the expression has no value, with why; `NoMemory` may come in place of any other answer.
pub fn valued_lines(
    alloc: Global,
    document: &Document<'_>,
    bindings: &Bindings,
    expr: &str,
) -> Result<Bytes, Stop>
    ensures { Told (Values document.now bindings.now expr.now) result }
{
    match document.value_lines(alloc, bindings, expr) {
        Ok(lines) => Ok(lines),
        Err(fault) => Err(query_stop(fault)),
    }
}
