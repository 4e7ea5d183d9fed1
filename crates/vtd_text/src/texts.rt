//! Comparing resolved texts. No call takes memory.
#![tactic(auto)]

ghost use Rattle.std.specs.Prelude.{◌≡◌, ℕ, List, [], ◌∷◌, ◌++◌, MatchOption};
ghost use Rattle.std.specs.Str.{bytes_eq, chars};
ghost use Rattle.vtd_text.specs.Apart.{AreAfter, AreApart};

use crate::chars::Chars;
use vtd_words::Words;
use xml_chars::text::step;

/// What follows the prefix, where the text begins with it.
fn after_prefix<'a>(text: &'a str, prefix: &str) -> Option<&'a str>
    ensures { MatchOption result ((rest : List ℕ) → chars text.now ≡ chars prefix.now ++ rest →
        ⊥) (λ r. chars text.now ≡ chars prefix.now ++ chars r.now) }
{
    if text.as_bytes().starts_with(prefix.as_bytes()) {
        Some(text.split_at(prefix.len()).1)
    } else {
        None
    }
}

/// What is left of two texts without what the shorter one has; `None` where neither begins with the other.
fn after_shorter<'a, 'b>(one: &'a str, other: &'b str) -> Option<(&'a str, &'b str)>
    ensures { MatchOption result (AreApart (chars one.now) (chars other.now))
        (λ p. AreAfter (chars one.now) (chars other.now) (chars p.0.now) (chars p.1.now)) }
{
    if let Some(rest) = after_prefix(other, one) {
        return Some(("", rest));
    }
    let rest = after_prefix(one, other)?;
    Some((rest, ""))
}

/// The first character of what is left of a text, with a slice before it, and what is left of the slice after it.
/// `None` exactly at the end.
fn take_first<'a, W: Words>(slice: &'a str, left: &mut Chars<'_, W>) -> Option<(char, &'a str)>
    ensures { MatchOption result (chars slice.now ++ left.old ≡ [])
        (λ p. chars slice.now ++ left.old ≡ p.0 ∷ (chars p.1.now ++ left.new)) }
{
    if let Some((c, rest)) = step(slice) {
        return Some((c, rest));
    }
    let c = left.next()?;
    Some((c, ""))
}

/// What is left of a text, where no character of it is plain: the slice, or where that is empty the next one.
fn refill<'a, W: Words>(slice: &'a str, left: &mut Chars<'a, W>) -> &'a str
    ensures { chars slice.now ++ left.old ≡ chars result.now ++ left.new }
{
    if slice.is_empty() {
        left.next_plain()
    } else {
        slice
    }
}

/// Whether two texts have the same code points. They are compared slice by slice.
pub fn equals<W: Words, V: Words>(one: Chars<'_, W>, other: Chars<'_, V>) -> bool
    ensures { result ≡ bytes_eq one.entry other.entry }
{
    let mut one = one;
    let mut other = other;
    let mut left = one.next_plain();
    let mut right = other.next_plain();
    'slices: while let Some((after, rest)) = after_shorter(left, right) {
        let Some((c, after)) = take_first(after, &mut one) else {
            return take_first(rest, &mut other).is_none();
        };
        let Some((d, rest)) = take_first(rest, &mut other) else {
            return false;
        };
        if c != d {
            return false;
        }
        left = refill(after, &mut one);
        right = refill(rest, &mut other);
    }
    false
}

/// What follows the character and then the prefix, where the text begins with them.
fn after_both<'a>(text: &'a str, c: char, prefix: &str) -> Option<&'a str>
    ensures { MatchOption result ((rest : List ℕ) → chars text.now ≡ c ∷ (chars prefix.now ++ rest) →
        ⊥) (λ r. chars text.now ≡ c ∷ (chars prefix.now ++ chars r.now)) }
{
    let (first, rest) = step(text)?;
    if first == c {
        after_prefix(rest, prefix)
    } else {
        None
    }
}

/// Whether a text has the code points of another one.
pub fn equals_str<W: Words>(one: Chars<'_, W>, text: &str) -> bool
    ensures { result ≡ bytes_eq one.entry (chars text.now) }
{
    let mut one = one;
    let Some(mut rest) = after_prefix(text, one.next_plain()) else {
        return false;
    };
    while let Some(c) = one.next() {
        let Some(after) = after_both(rest, c, one.next_plain()) else {
            return false;
        };
        rest = after;
    }
    rest.is_empty()
}
