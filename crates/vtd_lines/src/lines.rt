//! The lines of a script.

ghost use Rattle.std.specs.Prelude.{◌≡◌, ℕ, ◌+◌, ◌-◌, ◌^◌, ◌<◌, ◌≤◌, ◌↔◌, length, IsNone, IfSome, IfNone};
ghost use Rattle.vtd_lines.specs.Lines.{IsLine, EndsLine, IsUnended, IsBeforeReturn};

use memchr::memchr;

/// A line of a script: its bytes are those from `start` to `end`, without the line end, and the next line begins at
/// `next`.
#[derive(Clone, Copy, Debug, PartialEq, Eq)]
pub struct Line {
    /// Where the line begins.
    pub start: u32,
    /// Where it ends, without its line end.
    pub end: u32,
    /// Where the next line begins, after the line feed; the length of the script where there is none.
    pub next: u32,
}

/// The place of the line feed that ends the line at `from`, or `None` where the script ends first.
fn line_feed(script: &[u8], from: usize) -> Option<usize>
    requires { from ≤ length script.now }
    ensures found { IfSome result (λ end. EndsLine script.now from end) }
    ensures none { IfNone result (IsUnended script.now from) }
{
    match memchr(b'\n', &script[from..]) {
        Some(length) => Some(from + length),
        None => None,
    }
}

/// Where a line ends whose line feed is at `end`: a carriage return directly before it belongs to the line end.
fn before_return(script: &[u8], from: usize, end: usize) -> usize
    requires { EndsLine script.now from end }
    ensures { IsBeforeReturn script.now from end result }
{
    if from < end && script[end - 1] == b'\r' {
        end - 1
    } else {
        end
    }
}

/// The line that begins at `at`, or `None` exactly at the end of the script.
///
/// A line feed ends a line, and a carriage return directly before it belongs to the line end; the last line may lack
/// it. `at` is where a line begins: 0, or the `next` of the line before. It takes linear time in the length of the
/// line, and no memory.
pub fn next_line(script: &[u8], at: u32) -> Option<Line>
    requires place { at ≤ length script.now }
    requires size { length script.now ≤ 16777216 }
    ensures end { IsNone result ↔ (at ≡ length script.now) }
    ensures line { IfSome result (IsLine script.now at) }
{
    let from = at as usize;
    if from == script.len() {
        return None;
    }
    let Some(end) = line_feed(script, from) else {
        let end = script.len() as u32;
        return Some(Line {
            start: at,
            end,
            next: end,
        });
    };
    Some(Line {
        start: at,
        end: before_return(script, from, end) as u32,
        next: end as u32 + 1,
    })
}
