//! The prefixes that the elements round an element declare (Namespaces in XML 1.0, sections 3 and 6).

ghost use Rattle.std.specs.Prelude.{◌≡◌, ℕ, ◌+◌, ◌<◌, cond, false, List, length, bytes_eq, encode_utf8_all, OnOk};
ghost use Rattle.std.specs.Prelude.{Some, option_map};
ghost use Rattle.xml_model.specs.Items.{Tag};
ghost use Rattle.xml_model.specs.Names.{declaring};
ghost use Rattle.xml_model.specs.Records.{Record};
ghost use Rattle.vtd_words.specs.Lists.{list_of};
ghost use Rattle.vtd_words.specs.Table.{Shows};
ghost use Rattle.vtd_namespaces.specs.NameRecords.{AreAttributeRecords};
ghost use Rattle.xml_fragments.specs.Cut.{has_declaration};
ghost use Rattle.vtd_fragment.specs.Prefixes.{IsDeclared, fresh, known, marked, raised};

use crate::records::{attribute_at, slice_of};
use std::collections::BTreeMap;
use vtd_words::{Part, Words};
use xml_model::{NoMemory, TokenKind};

/// The name that declares the default namespace.
const DEFAULT: &[u8] = b"xmlns";

/// What a name begins with that declares a prefix.
const DECLARING: &[u8] = b"xmlns:";

/// What is known of a prefix that an element round an element declares.
#[derive(Clone, Copy)]
pub struct Declared {
    /// How many elements hold the nearest element that declares it.
    pub level: u32,
    /// Up to this record it is declared again in the element.
    pub hidden: u32,
    /// Whether a name of the element or in it is bound by the declaration.
    pub is_used: bool,
}

/// What is known of each prefix that is declared round an element; the empty one is the default.
pub type Prefixes<'a> = BTreeMap<&'a [u8], Declared>;

/// The prefix that a name declares, if it declares one; the empty one is the default.
pub fn declared_prefix(name: &[u8]) -> Option<&[u8]>
    ensures { (cs : List ℕ) → name.now ≡ encode_utf8_all cs → IsDeclared cs result }
{
    if name == DEFAULT {
        return Some(&[]);
    }
    if name.len() <= DECLARING.len() {
        return None;
    }
    let (mark, prefix) = name.split_at(DECLARING.len());
    if mark == DECLARING {
        Some(prefix)
    } else {
        None
    }
}

/// What is known of a prefix, if it is declared round the element.
pub fn known(prefixes: &Prefixes<'_>, prefix: &[u8]) -> Option<Declared>
    ensures { result ≡ known prefixes.now prefix.now }
{
    prefixes.get(prefix).copied()
}

/// Puts what is known of a prefix in the place of what was.
fn put<'a>(
    prefixes: &mut Prefixes<'a>,
    prefix: &'a [u8],
    declared: Declared,
) -> Result<(), NoMemory>
    ensures { OnOk result ((bs : List ℕ) → known prefixes.new bs ≡
        cond (bytes_eq prefix.now bs) (Some declared) (known prefixes.old bs)) }
{
    match prefixes.insert(prefix, declared) {
        Ok(_) => Ok(()),
        Err(_) => Err(NoMemory),
    }
}

/// Notes the prefix that a name declares, if it declares one, for an element that so many elements hold.
fn note_name<'a>(prefixes: &mut Prefixes<'a>, name: &'a [u8], level: u32) -> Result<(), NoMemory>
    ensures { OnOk result ((cs : List ℕ) → name.now ≡ encode_utf8_all cs → (p : List ℕ) →
        known prefixes.new (encode_utf8_all p) ≡
        cond (bytes_eq cs (declaring p)) (Some (fresh level)) (known prefixes.old (encode_utf8_all p))) }
{
    let declared = Declared {
        level,
        hidden: 0,
        is_used: false,
    };
    match declared_prefix(name) {
        Some(prefix) => put(prefixes, prefix, declared),
        None => Ok(()),
    }
}

/// Notes the declarations of a tag of an element that so many elements hold, in place of those further out.
pub fn note<'a, W: Words>(
    prefixes: &mut Prefixes<'a>,
    bytes: &'a [u8],
    words: &W,
    tag: u32,
    level: u32,
) -> Result<(), NoMemory>
    requires room { tag < length (list_of Part.Records (W.lists words.now)) }
    ensures { OnOk result ((rs : List Record) → Shows (list_of Part.Records (W.lists words.now)) rs →
        (at : ℕ) (t : Tag) → AreAttributeRecords bytes.now rs (tag + 1) at t.attributes →
        (p : List ℕ) → known prefixes.new (encode_utf8_all p) ≡
        cond (has_declaration p t) (Some (fresh level)) (known prefixes.old (encode_utf8_all p))) }
{
    let records = words.len(Part::Records);
    prove!(tag < records);
    let first = tag + 1;
    let mut number = 0;
    while let Some(parts) = attribute_at(words, first + 2 * number) {
        note_name(prefixes, slice_of(bytes, parts), level)?;
        number += 1;
    }
    Ok(())
}

/// Notes that a prefix is declared again up to a record.
fn hide_prefix<'a>(prefixes: &mut Prefixes<'a>, prefix: &'a [u8], past: u32) -> Result<(), NoMemory>
    ensures { OnOk result ((bs : List ℕ) → known prefixes.new bs ≡
        cond (bytes_eq prefix.now bs) (option_map (raised past) (known prefixes.old bs)) (known prefixes.old bs)) }
{
    match known(prefixes, prefix) {
        Some(declared) => put(
            prefixes,
            prefix,
            Declared {
                level: declared.level,
                hidden: declared.hidden.max(past),
                is_used: declared.is_used,
            },
        ),
        None => Ok(()),
    }
}

/// Notes that the prefix that a name declares, if it declares one, is declared again up to a record.
fn hide_name<'a>(prefixes: &mut Prefixes<'a>, name: &'a [u8], past: u32) -> Result<(), NoMemory>
    ensures { OnOk result ((cs : List ℕ) → name.now ≡ encode_utf8_all cs → (p : List ℕ) →
        known prefixes.new (encode_utf8_all p) ≡ cond (bytes_eq cs (declaring p))
        (option_map (raised past) (known prefixes.old (encode_utf8_all p)))
        (known prefixes.old (encode_utf8_all p))) }
{
    match declared_prefix(name) {
        Some(prefix) => hide_prefix(prefixes, prefix, past),
        None => Ok(()),
    }
}

/// Notes that the prefixes that a tag declares are declared again up to a record.
pub fn hide<'a, W: Words>(
    prefixes: &mut Prefixes<'a>,
    bytes: &'a [u8],
    words: &W,
    tag: u32,
    past: u32,
) -> Result<(), NoMemory>
    requires room { tag < length (list_of Part.Records (W.lists words.now)) }
    ensures { OnOk result ((rs : List Record) → Shows (list_of Part.Records (W.lists words.now)) rs →
        (at : ℕ) (t : Tag) → AreAttributeRecords bytes.now rs (tag + 1) at t.attributes →
        (p : List ℕ) → known prefixes.new (encode_utf8_all p) ≡
        cond (has_declaration p t) (option_map (raised past) (known prefixes.old (encode_utf8_all p)))
        (known prefixes.old (encode_utf8_all p))) }
{
    let records = words.len(Part::Records);
    prove!(tag < records);
    let first = tag + 1;
    let mut number = 0;
    while let Some(parts) = attribute_at(words, first + 2 * number) {
        hide_name(prefixes, slice_of(bytes, parts), past)?;
        number += 1;
    }
    Ok(())
}

/// Whether a tag declares a prefix at all.
pub fn declares_some<W: Words>(words: &W, tag: u32) -> bool
    requires room { tag < length (list_of Part.Records (W.lists words.now)) }
    ensures { result ≡ false → (rs : List Record) → Shows (list_of Part.Records (W.lists words.now)) rs →
        (bytes : List ℕ) (at : ℕ) (t : Tag) → AreAttributeRecords bytes rs (tag + 1) at t.attributes →
        (p : List ℕ) → has_declaration p t ≡ false }
{
    let records = words.len(Part::Records);
    prove!(tag < records);
    let first = tag + 1;
    let mut number = 0;
    while let Some(parts) = attribute_at(words, first + 2 * number) {
        if parts.token == TokenKind::NamespaceName as u8 {
            return true;
        }
        number += 1;
    }
    false
}

/// Marks the prefix of a name at a record as used, unless it is declared again there.
pub fn mark<'a>(prefixes: &mut Prefixes<'a>, prefix: &'a [u8], at: u32) -> Result<(), NoMemory>
    ensures { OnOk result ((bs : List ℕ) → known prefixes.new bs ≡
        cond (bytes_eq prefix.now bs) (option_map (marked at) (known prefixes.old bs)) (known prefixes.old bs)) }
{
    match known(prefixes, prefix) {
        Some(declared) => put(
            prefixes,
            prefix,
            Declared {
                level: declared.level,
                hidden: declared.hidden,
                is_used: declared.is_used || declared.hidden <= at,
            },
        ),
        None => Ok(()),
    }
}
