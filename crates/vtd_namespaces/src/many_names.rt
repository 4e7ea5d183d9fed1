//! Names of a tag that repeat an earlier one, where the tag has many: by rounds of names in order (XML 1.0, section 3.1,
//! constraint 'Unique Att Spec').
//!
//! Each round is sorted, in O(n log n) comparisons on any order, and its names and those before it are sought in it by
//! halves: in a round of 16,384 a name costs at most 16 comparisons. So k names in r rounds cost at most 8 * k * (r + 1)
//! besides the sorts, whatever the names are.

ghost use Rattle.std.specs.Prelude.{◌≡◌, ℕ, ◌+◌, ◌*◌, ◌<◌, ◌≤◌, ◌^◌, ◌⊎◌, true, false, List, [], length, bytes_eq};
ghost use Rattle.std.specs.Prelude.{IfSome, IsSomeAnd, Contains};
ghost use Rattle.std.specs.List.{list_any};
ghost use Rattle.std.specs.List.Sorted.{IsSorted};
ghost use Rattle.xml_model.specs.Items.{Attribute};
ghost use Rattle.xml_model.specs.Records.{Record};
ghost use Rattle.xml_model.specs.Scan.{record_at};
ghost use Rattle.xml_model.specs.Accepted.{repeated};
ghost use Rattle.vtd_words.specs.Lists.{list_of};
ghost use Rattle.vtd_words.specs.Table.{Shows};
ghost use Rattle.vtd_text.specs.NameRecords.{is_attribute_name};
ghost use Rattle.vtd_namespaces.specs.NameRecords.{AreAttributeRecords};
ghost use Rattle.vtd_namespaces.specs.Repeats.{names_before, name_of, HasNoAttribute};
ghost use Rattle.vtd_namespaces.specs.Rounds.{numbered_cmp, AreNamesFrom, IsNamed, IsPlaceFor};
ghost use Rattle.vtd_namespaces.specs.Faults.{first_of};

use crate::records::{attribute_at, slice_of};
use vtd_words::{Part, Words, parts_at};

/// A name of a tag, and its number among the tag's names.
pub type Numbered<'b> = (&'b [u8], u32);

/// How many names a round has in a tag of no more names: 24 KiB of stack.
const FEW: usize = 1_024;

/// How many names a round has in a tag of more names: 384 KiB of stack.
const MANY: usize = 16_384;

/// Puts the names of a tag into a round, from the one with a number on, as many as there are and the round has room for;
/// how many these are.
fn gather<'b, W: Words>(
    bytes: &'b [u8],
    words: &W,
    first: u32,
    start: u32,
    round: &mut [Numbered<'b>],
) -> usize
    requires room { first + 2 * start ≤ length (list_of Part.Records (W.lists words.now)) }
    requires bound { first + 2 * start < 2 ^ 32 }
    ensures len { length round.new ≡ length round.old }
    ensures within { result ≤ length round.old }
    ensures room { first + 2 * (start + result) ≤ length (list_of Part.Records (W.lists words.now)) }
    ensures bound { first + 2 * (start + result) < 2 ^ 32 }
    ensures names { (rs : List Record) → Shows (list_of Part.Records (W.lists words.now)) rs →
        AreNamesFrom bytes.now rs first start result round.new }
    ensures kind { (rs : List Record) → Shows (list_of Part.Records (W.lists words.now)) rs → (n : ℕ) →
        start ≤ n → n < start + result → is_attribute_name (record_at (first + 2 * n) rs).token ≡ true }
    ensures end { (rs : List Record) → Shows (list_of Part.Records (W.lists words.now)) rs →
        result < length round.old → HasNoAttribute rs (first + 2 * (start + result)) }
{
    let mut count = 0;
    while count < round.len() {
        let Some(parts) = attribute_at(words, first + 2 * (start + count as u32)) else {
            return count;
        };
        round[count] = (slice_of(bytes, parts), start + count as u32);
        count += 1;
    }
    count
}

/// The place in a sorted round where a name stands with its least number, if the round has it; by halves.
fn place_for<'b>(round: &[Numbered<'b>], name: &'b [u8]) -> usize
    requires { IsSorted numbered_cmp round.now }
    ensures { IsPlaceFor round.now name.now result }
{
    match round.binary_search(&(name, 0)) {
        Ok(at) => at,
        Err(at) => at,
    }
}

/// The least number that a name has in a sorted round.
pub fn first_named<'b>(round: &[Numbered<'b>], name: &'b [u8]) -> Option<u32>
    requires { IsSorted numbered_cmp round.now }
    ensures found { IfSome result (IsNamed round.now name.now) }
    ensures least { (n : ℕ) → IsNamed round.now name.now n → IsSomeAnd result (λ m. m ≤ n) }
{
    let at = place_for(round, name);
    if at < round.len() && round[at].0 == name {
        return Some(round[at].1);
    }
    None
}

/// The lesser of a number and the later one of two that have one name: a name's and the least with that name in a round.
fn lesser(least: u32, number: u32, found: Option<u32>) -> u32
    ensures below { result ≤ least }
    ensures later { IfSome found (λ n. n < number → result ≤ number) }
    ensures earlier { IfSome found (λ n. number < n → result ≤ n) }
    ensures from { (result ≡ least) ⊎ IsSomeAnd found (λ n.
        ((n < number) × (result ≡ number)) ⊎ ((number < n) × (result ≡ n))) }
{
    match found {
        Some(other) if other < number && number < least => number,
        Some(other) if number < other && other < least => other,
        _ => least,
    }
}

/// The least number, of those of a round, of a name that repeats an earlier one of the tag; the number after the round's
/// where none does. The round has the names from `start` on, and is left in order.
fn first_in_round<'b, W: Words>(
    bytes: &'b [u8],
    words: &W,
    first: u32,
    start: u32,
    round: &mut [Numbered<'b>],
) -> u32
    requires room { first + 2 * (start + length round.old) ≤ length (list_of Part.Records (W.lists words.now)) }
    requires bound { first + 2 * (start + length round.old) < 2 ^ 32 }
    requires names { (rs : List Record) → Shows (list_of Part.Records (W.lists words.now)) rs →
        AreNamesFrom bytes.now rs first start (length round.old) round.old }
    ensures len { length round.new ≡ length round.old }
    ensures here { (rs : List Record) → Shows (list_of Part.Records (W.lists words.now)) rs → start ≤ result }
    ensures within { result ≤ start + length round.old }
    ensures none { (rs : List Record) → Shows (list_of Part.Records (W.lists words.now)) rs → (n : ℕ) → start ≤ n →
        n < result → list_any (bytes_eq (name_of bytes.now rs first n)) (names_before bytes.now rs first n) ≡ false }
    ensures some { (rs : List Record) → Shows (list_of Part.Records (W.lists words.now)) rs →
        result < start + length round.old →
        list_any (bytes_eq (name_of bytes.now rs first result)) (names_before bytes.now rs first result) ≡ true }
{
    round.sort_unstable();
    let end = start + round.len() as u32;
    let mut least = end;
    for number in 0..end {
        let name = slice_of(bytes, parts_at(words, first + 2 * number));
        least = lesser(least, number, first_named(round, name));
    }
    least
}

/// Where the first name of a tag begins that repeats an earlier one, by rounds of as many names as `round` has room for;
/// the records of the tag's attributes begin at `first`.
fn repeat_by_rounds<'b, W: Words>(
    bytes: &'b [u8],
    words: &W,
    first: u32,
    round: &mut [Numbered<'b>],
) -> Option<u32>
    requires first { first ≤ length (list_of Part.Records (W.lists words.now)) }
    requires room { 0 < length round.old }
    ensures { (rs : List Record) → Shows (list_of Part.Records (W.lists words.now)) rs →
        (at : ℕ) (others : List Attribute) →
        AreAttributeRecords bytes.now rs first at others → result ≡ first_of (repeated at [] others) }
{
    let mut start = 0;
    loop {
        let count = gather(bytes, words, first, start, round);
        let end = start + count as u32;
        let least = first_in_round(bytes, words, first, start, &mut round[..count]);
        if least < end {
            return Some(parts_at(words, first + 2 * least).offset);
        }
        if count < round.len() {
            return None;
        }
        start = end;
    }
}

/// The same, by rounds of 1,024 names.
fn repeat_in_few<W: Words>(bytes: &[u8], words: &W, first: u32) -> Option<u32>
    requires { first ≤ length (list_of Part.Records (W.lists words.now)) }
    ensures { (rs : List Record) → Shows (list_of Part.Records (W.lists words.now)) rs →
        (at : ℕ) (others : List Attribute) →
        AreAttributeRecords bytes.now rs first at others → result ≡ first_of (repeated at [] others) }
{
    let mut round: [Numbered<'_>; FEW] = [(bytes, 0); FEW];
    repeat_by_rounds(bytes, words, first, &mut round)
}

/// The same, by rounds of 16,384 names.
fn repeat_in_most<W: Words>(bytes: &[u8], words: &W, first: u32) -> Option<u32>
    requires { first ≤ length (list_of Part.Records (W.lists words.now)) }
    ensures { (rs : List Record) → Shows (list_of Part.Records (W.lists words.now)) rs →
        (at : ℕ) (others : List Attribute) →
        AreAttributeRecords bytes.now rs first at others → result ≡ first_of (repeated at [] others) }
{
    let mut round: [Numbered<'_>; MANY] = [(bytes, 0); MANY];
    repeat_by_rounds(bytes, words, first, &mut round)
}

/// Where the first name of a tag with many begins that repeats an earlier one; the records of the tag's attributes begin
/// at `first`. Up to 1,024 names are one round, which costs at most 12 comparisons a name besides its sort; more are
/// rounds of 16,384.
pub fn repeat_in_many<W: Words>(bytes: &[u8], words: &W, first: u32) -> Option<u32>
    requires { first ≤ length (list_of Part.Records (W.lists words.now)) }
    ensures { (rs : List Record) → Shows (list_of Part.Records (W.lists words.now)) rs →
        (at : ℕ) (others : List Attribute) →
        AreAttributeRecords bytes.now rs first at others → result ≡ first_of (repeated at [] others) }
{
    if attribute_at(words, first.saturating_add(2 * FEW as u32)).is_none() {
        return repeat_in_few(bytes, words, first);
    }
    repeat_in_most(bytes, words, first)
}
