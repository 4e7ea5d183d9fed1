//! The values of XPath 1.0: node-sets, booleans, numbers and strings, with their conversions, comparisons, arithmetic
//! and text functions. Numbers are whole counts of millionths in place of floating point.
#![tactic(auto)]

mod building;
mod bytewise;
mod digits;
mod languages;
pub mod laws;
mod normal;
mod numbers;
mod positions;
mod products;
mod reading;
mod spelled;
mod strings;
mod sums;
mod texts;
mod translating;
mod values;

ghost use Rattle.std.specs.Prelude.{◌≡◌};
ghost use Rattle.xpath_values.specs.declared.ValueFault.TheVariants.{NoMemory};

pub use building::{concat, substring_after, substring_before};
pub use languages::is_language;
pub use normal::normalize_space;
pub use numbers::{arithmetic, ceiling, compare_numbers, floor, negative, round};
pub use positions::substring;
pub use reading::{NumberReader, Phase, number_of_text, read_next, read_start, read_value};
pub use spelled::text_of_number;
use std::alloc::{AllocError, AllocFailed};
pub use strings::{chars_at, number_of, number_of_truth, number_seen, string_of, value_number};
pub use sums::{Sum, sum_next, sum_start, sum_value};
pub use texts::{contains, starts_with, string_length};
pub use translating::translate;
pub use values::{nodes_of, number_at, truth_of, truth_seen};
use xml_model::{NodeList, Text};

/// A number, in place of that of XPath 1.0, section 3.5: not a number, or so many millionths, of an absolute value of
/// at most 9007199254740991. Contracts that take a number ask for that range by `IsNumber`.
#[derive(Clone, Copy, Debug, PartialEq)]
pub enum Number {
    /// Not a number.
    Nan,
    /// So many millionths.
    Millionths(i128),
}

/// A value (XPath 1.0, section 1).
#[derive(Drop)]
pub enum Value {
    /// A node-set, in document order.
    Nodes(NodeList),
    /// A boolean.
    Truth(bool),
    /// A number.
    Number(Number),
    /// A string.
    Text(Text),
}

/// Why there is no value.
#[derive(Clone, Copy, Debug, PartialEq)]
pub enum ValueFault {
    /// A number is no whole number of millionths.
    Fraction,
    /// A number is infinite: one that is not 0 was divided by 0.
    Infinite,
    /// A number is out of range: its absolute value is above 9007199254740991.
    Range,
    /// Memory was not to be had.
    NoMemory,
}

impl From<AllocError> for ValueFault {
    ghost from_gives = { λ _ e. e ≡ NoMemory };

    fn from(_e: AllocError) -> ValueFault {
        ValueFault::NoMemory
    }
}

impl<T: Drop> From<AllocFailed<T>> for ValueFault {
    ghost from_gives = { λ _ e. e ≡ NoMemory };

    fn from(_e: AllocFailed<T>) -> ValueFault {
        ValueFault::NoMemory
    }
}
