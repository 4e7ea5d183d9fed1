//! The expression of a text.

ghost use Rattle.std.specs.Prelude.{◌≡◌, [], Ok, IfErr, IfOk};
ghost use Rattle.xpath_grammar.specs.Static.{refusals};
ghost use Rattle.xpath_grammar.specs.Tree.{tree_of};
ghost use Rattle.vtd_queries.specs.Meets.{IsRefused};
ghost use Rattle.vtd_queries.specs.Readings.{Reads};

use crate::faults::QueryFault;
use std::alloc::Global;
use xpath_grammar::{Bindings, Expr, check, parse};

/// The expression of a text, where it may meet a document.
pub(crate) fn read(alloc: Global, bindings: &Bindings, text: &str) -> Result<Expr, QueryFault>
    ensures read { IfOk result (λ e. Reads bindings.now text.now (Ok (tree_of e))) }
    ensures clean { IfOk result (λ e. refusals bindings.now (tree_of e) ≡ []) }
    ensures refused { IfErr result (IsRefused (Reads bindings.now text.now)) }
{
    let expr = parse(alloc, text)?;
    check(&expr, bindings)?;
    Ok(expr)
}
