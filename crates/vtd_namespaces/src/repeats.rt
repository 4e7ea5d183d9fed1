//! Names of a tag that repeat an earlier one (XML 1.0, section 3.1, constraint 'Unique Att Spec').

ghost use Rattle.std.specs.Prelude.{◌≡◌, ℕ, ◌+◌, ◌*◌, ◌≤◌, ◌<◌, ◌^◌, List, [], length, bytes_eq};
ghost use Rattle.std.specs.List.{list_any};
ghost use Rattle.xml_model.specs.Items.{Attribute, first_place};
ghost use Rattle.xml_model.specs.Nest.{Forest};
ghost use Rattle.xml_model.specs.Records.{Record};
ghost use Rattle.xml_model.specs.Accepted.{over_names, repeated, repeats};
ghost use Rattle.vtd_words.specs.Lists.{list_of};
ghost use Rattle.vtd_words.specs.Table.{IsNestOf, Shows};
ghost use Rattle.vtd_namespaces.specs.NameRecords.{AreAttributeRecords};
ghost use Rattle.vtd_namespaces.specs.Repeats.{names_before};
ghost use Rattle.vtd_namespaces.specs.Faults.{first_of};

use crate::many_names::repeat_in_many;
use crate::records::{attribute_at, slice_of};
use vtd_words::{Part, Words, parts_at};
use xml_model::TokenKind;

/// The number of names up to which each is compared with those before it.
const MANY: u32 = 64;

/// Whether one of so many names has these bytes; the record of the first of them has the index `first`.
fn is_among<W: Words>(bytes: &[u8], words: &W, first: u32, count: u32, name: &[u8]) -> bool
    requires room { first + 2 * count ≤ length (list_of Part.Records (W.lists words.now)) }
    requires bound { first + 2 * count < 2 ^ 32 }
    ensures { (rs : List Record) → Shows (list_of Part.Records (W.lists words.now)) rs →
        result ≡ list_any (bytes_eq name.now) (names_before bytes.now rs first count) }
{
    for number in 0..count {
        if slice_of(bytes, parts_at(words, first + 2 * number)) == name {
            return true;
        }
    }
    false
}

/// Where the first name of a tag begins that repeats an earlier one; the records of the tag's attributes begin at
/// `first`. Each name is compared with those before it, where they are few.
fn repeat_in<W: Words>(bytes: &[u8], words: &W, first: u32) -> Option<u32>
    requires { first ≤ length (list_of Part.Records (W.lists words.now)) }
    ensures { (rs : List Record) → Shows (list_of Part.Records (W.lists words.now)) rs →
        (at : ℕ) (others : List Attribute) →
        AreAttributeRecords bytes.now rs first at others → result ≡ first_of (repeated at [] others) }
{
    let mut earlier = 0;
    while let Some(parts) = attribute_at(words, first + 2 * earlier) {
        if earlier == MANY {
            return repeat_in_many(bytes, words, first);
        }
        if is_among(bytes, words, first, earlier, slice_of(bytes, parts)) {
            return Some(parts.offset);
        }
        earlier += 1;
    }
    None
}

/// Where the first name of a document begins that repeats an earlier one of its tag; `None` exactly where none does.
pub fn first_repeat<W: Words>(bytes: &[u8], words: &W) -> Option<u32>
    requires { length bytes.now < 2 ^ 30 }
    ensures { (nest : Forest) → IsNestOf bytes.now (W.lists words.now) nest →
        result ≡ first_of (over_names repeats [] (first_place bytes.now) nest) }
{
    let records = words.len(Part::Records);
    for at in 0..records {
        if parts_at(words, at).token != TokenKind::StartTag as u8 {
            continue;
        }
        if let Some(place) = repeat_in(bytes, words, at + 1) {
            return Some(place);
        }
    }
    None
}
