//! The number of orders of a generated document.

ghost use Rattle.std.specs.Prelude.{◌≡◌};
ghost use Rattle.vtd_running.specs.Form.{count_of};

/// The most digits of a number of orders.
const DIGIT_LIMIT: usize = 7;

/// The most orders.
const ORDER_LIMIT: u32 = 1_000_000;

/// How many orders a text asks for: the number of its one to seven decimal digits, 1 to 1,000,000. Zeros may stand
/// first, and count as digits. `None` for every other text.
pub fn count_of(text: &str) -> Option<u32>
    ensures { result ≡ count_of text.now }
{
    if text.len() > DIGIT_LIMIT || text.starts_with('+') {
        return None;
    }
    let count = text.parse::<u32>().ok()?;
    if count == 0 || count > ORDER_LIMIT {
        return None;
    }
    Some(count)
}
