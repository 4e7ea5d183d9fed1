//! What lines are made of.

ghost use Rattle.std.specs.Prelude.{◌≡◌, ℕ, ◌+◌, ◌<◌, ◌++◌, ◌∷◌, [], OnOk};
ghost use Rattle.std.specs.Fmt.{decimal};

use xml_model::NoMemory;

/// Adds one decimal digit.
fn push_digit(lines: &mut Vec<u8>, digit: u8) -> Result<(), NoMemory>
    requires { digit < 10 }
    ensures { OnOk result (lines.new.items ≡ lines.old.items ++ (48 + digit) ∷ []) }
{
    lines.push(b'0' + digit).map_err(|_| NoMemory)
}

/// Adds the decimal digits of a number.
///
/// # Errors
/// `NoMemory` where the memory for them was not to be had.
pub fn push_decimal(lines: &mut Vec<u8>, number: u64) -> Result<(), NoMemory>
    ensures { OnOk result (lines.new.items ≡ lines.old.items ++ decimal number) }
{
    if number < 10 {
        return push_digit(lines, number as u8);
    }
    push_decimal(lines, number / 10)?;
    push_digit(lines, (number % 10) as u8)
}

/// Adds a text.
///
/// # Errors
/// `NoMemory` where the memory for it was not to be had.
pub fn push_text(lines: &mut Vec<u8>, text: &[u8]) -> Result<(), NoMemory>
    ensures { OnOk result (lines.new.items ≡ lines.old.items ++ text.now) }
{
    lines.extend_from_slice(text).map_err(|_| NoMemory)
}
