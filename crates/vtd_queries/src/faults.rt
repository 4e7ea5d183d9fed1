//! Why a question is refused, and why an operation is.

use vtd_modifier::EditFault;
use xml_model::NoMemory;
use xpath_grammar::{GrammarFault, StaticFault};
use xpath_values::ValueFault;

/// Why the text of an expression has no answer. Those of the text come first (XPath 1.0, section 3), then the ones that
/// the expression shows, then `NotNodes`, then those of evaluation.
#[derive(Clone, Copy, Debug, PartialEq)]
pub enum QueryFault {
    /// The text has more than 4,096 bytes.
    Long,
    /// The text splits into tokens, and in some prefix of them the opening brackets outnumber the closing ones by
    /// more than 64.
    Deep,
    /// The text is no expression.
    Syntax,
    /// The axis is `namespace`.
    Axis,
    /// No variable is bound.
    Variable,
    /// The function is not known.
    Function,
    /// The function does not take so many arguments.
    Arguments,
    /// The prefix of a name test is not bound.
    Prefix,
    /// A digit after the sixth place of a number in the text is not 0.
    LiteralFraction,
    /// A number in the text is above 9007199254740991.
    LiteralRange,
    /// Nodes are needed within the expression where one of another type is.
    NeedsNodes,
    /// Nodes are asked for, and the type of the expression is no node-set.
    NotNodes,
    /// A number is no whole number of millionths.
    Fraction,
    /// A number is infinite: one that is not 0 was divided by 0.
    Infinite,
    /// A number is out of range: its absolute value is above 9007199254740991.
    Range,
    /// Memory was not to be had.
    NoMemory,
}

impl From<GrammarFault> for QueryFault {
    ghost use Rattle.std.specs.Prelude.{◌≡◌};
    ghost use Rattle.vtd_queries.specs.Faults.{grammar_fault};

    ghost from_gives = { λ fault made. made ≡ grammar_fault fault };

    fn from(fault: GrammarFault) -> QueryFault {
        match fault {
            GrammarFault::Long => QueryFault::Long,
            GrammarFault::Deep => QueryFault::Deep,
            GrammarFault::Syntax => QueryFault::Syntax,
            GrammarFault::NoMemory => QueryFault::NoMemory,
        }
    }
}

impl From<StaticFault> for QueryFault {
    ghost use Rattle.std.specs.Prelude.{◌≡◌};
    ghost use Rattle.vtd_queries.specs.Faults.{static_fault};

    ghost from_gives = { λ fault made. made ≡ static_fault fault };

    fn from(fault: StaticFault) -> QueryFault {
        match fault {
            StaticFault::Axis => QueryFault::Axis,
            StaticFault::Variable => QueryFault::Variable,
            StaticFault::Function => QueryFault::Function,
            StaticFault::Arguments => QueryFault::Arguments,
            StaticFault::Prefix => QueryFault::Prefix,
            StaticFault::Fraction => QueryFault::LiteralFraction,
            StaticFault::Range => QueryFault::LiteralRange,
            StaticFault::NotNodes => QueryFault::NeedsNodes,
        }
    }
}

impl From<ValueFault> for QueryFault {
    ghost use Rattle.std.specs.Prelude.{◌≡◌};
    ghost use Rattle.vtd_queries.specs.Faults.{value_fault};

    ghost from_gives = { λ fault made. made ≡ value_fault fault };

    fn from(fault: ValueFault) -> QueryFault {
        match fault {
            ValueFault::Fraction => QueryFault::Fraction,
            ValueFault::Infinite => QueryFault::Infinite,
            ValueFault::Range => QueryFault::Range,
            ValueFault::NoMemory => QueryFault::NoMemory,
        }
    }
}

impl From<NoMemory> for QueryFault {
    ghost use Rattle.std.specs.Prelude.{◌≡◌};
    ghost use Rattle.vtd_queries.specs.declared.faults.QueryFault.TheVariants.{NoMemory as OutOfMemory};

    ghost from_gives = { λ _ made. made ≡ OutOfMemory };

    fn from(_fault: NoMemory) -> QueryFault {
        QueryFault::NoMemory
    }
}

/// Why an operation on the nodes of an expression is refused.
#[derive(Clone, Copy, Debug, PartialEq)]
pub enum OperationFault {
    /// There are no nodes: the text of the expression is refused, or memory was not to be had.
    Query(QueryFault),
    /// The new name is no QName (Namespaces in XML 1.0, production 7).
    Name,
    /// The operation does not take the kind of a node; `at` is where the first such node begins, in bytes.
    Kind { at: u32 },
}

impl From<QueryFault> for OperationFault {
    ghost use Rattle.std.specs.Prelude.{◌≡◌};
    ghost use Rattle.vtd_queries.specs.declared.faults.OperationFault.TheVariants.{Query};

    ghost from_gives = { λ fault made. made ≡ Query fault };

    fn from(fault: QueryFault) -> OperationFault {
        OperationFault::Query(fault)
    }
}

impl From<EditFault> for OperationFault {
    ghost use Rattle.std.specs.Prelude.{◌≡◌};
    ghost use Rattle.vtd_queries.specs.Faults.{edit_fault};

    ghost from_gives = { λ fault made. made ≡ edit_fault fault };

    fn from(fault: EditFault) -> OperationFault {
        match fault {
            EditFault::Name => OperationFault::Name,
            EditFault::Kind { at } => OperationFault::Kind { at },
            EditFault::NoMemory => OperationFault::Query(QueryFault::NoMemory),
        }
    }
}
