//! The first name of a document that offends Namespaces in XML 1.0, in the order of its records.

ghost use Rattle.std.specs.Prelude.{◌≡◌, ℕ, ◌+◌, ◌<◌, ◌⊎◌, List, [], length, IfSome};
ghost use Rattle.xml_model.specs.Items.{first_place};
ghost use Rattle.xml_model.specs.Records.{Record, kind_number};
ghost use Rattle.xml_model.specs.Scan.{record_at};
ghost use Rattle.xml_model.specs.Accepted.{offences, over_names, repeats};
ghost use Rattle.xml_model.specs.declared.TokenKind.TheVariants as token;
ghost use Rattle.vtd_words.specs.Lists.{list_of};
ghost use Rattle.vtd_words.specs.Packed.{record_of};
ghost use Rattle.vtd_words.specs.Table.{ForEachNest, Shows, nodes_of};
ghost use Rattle.vtd_namespaces.specs.Faults.{first_of, OffenceAt};
ghost use Rattle.vtd_namespaces.specs.Memos.{IsMemoOf};
ghost use Rattle.vtd_namespaces.specs.OpenTags.{open_before};
ghost use Rattle.vtd_namespaces.specs.Undeclared.{NoneDeclared};

use crate::declarations::declarations_end;
use crate::memo::{Memo, empty_memo};
use crate::offences::tag_offence;
use crate::open_tags::OpenTags;
use crate::plain::are_plain;
use crate::qnames::has_colon;
use crate::records::slice_of;
use crate::scope::Scope;
use vtd_words::{Part, Parts, Table, Words, parts_at};
use xml_model::TokenKind;

/// Where the first name of an element's tag begins that offends. The tags are those that are open after its record, and
/// no record from `end` on is of a declaration's name.
fn element_offence<W: Words>(
    table: &Table<'_, W>,
    memo: &mut Memo,
    open_tags: &OpenTags,
    at: u32,
    depth: u8,
    end: u32,
) -> Option<u32>
    requires known { IsMemoOf table.now.bytes (W.lists table.now.words).records memo.old }
    requires room { at < length (list_of Part.Records (W.lists table.now.words)) }
    requires opened { (rs : List Record) → Shows (list_of Part.Records (W.lists table.now.words)) rs →
        open_tags.now ≡ open_before (at + 1) rs }
    requires undeclared { NoneDeclared (list_of Part.Records (W.lists table.now.words)) end }
    requires tag { (rs : List Record) → Shows (list_of Part.Records (W.lists table.now.words)) rs →
        (record_at at rs).token ≡ kind_number token.StartTag }
    requires depth { (rs : List Record) → Shows (list_of Part.Records (W.lists table.now.words)) rs →
        (record_at at rs).depth ≡ depth }
    ensures known { IsMemoOf table.now.bytes (W.lists table.now.words).records memo.new }
    ensures offence { ForEachNest table.now.bytes (W.lists table.now.words) (λ nest.
        over_names repeats [] (first_place table.now.bytes) nest ≡ [] →
        OffenceAt at result (nodes_of table.now.bytes nest)) }
{
    let records = table.words().len(Part::Records);
    prove!(at < records);
    let scope = Scope {
        table,
        open_tags,
        depth,
        end,
    };
    tag_offence(&scope, memo, at)
}

/// The place of the target of an instruction, where it has a colon (Namespaces in XML 1.0, section 7).
fn instruction_offence<W: Words>(table: &Table<'_, W>, at: u32, parts: Parts) -> Option<u32>
    requires here { (rs : List Record) → Shows (list_of Part.Records (W.lists table.now.words)) rs →
        record_of parts ≡ record_at at rs }
    requires instruction { parts.token ≡ kind_number token.Target }
    ensures { ForEachNest table.now.bytes (W.lists table.now.words) (λ nest.
        OffenceAt at result (nodes_of table.now.bytes nest)) }
{
    if has_colon(slice_of(table.bytes(), parts)) {
        return Some(parts.offset);
    }
    None
}

/// Where a record begins a node: the first place of a name of it that offends. The tags are those that are open before
/// the record, and then those before the next. No record from `end` on is of a declaration's name.
fn offence_at<W: Words>(
    table: &Table<'_, W>,
    memo: &mut Memo,
    open_tags: &mut OpenTags,
    at: u32,
    end: u32,
) -> Option<u32>
    requires known { IsMemoOf table.now.bytes (W.lists table.now.words).records memo.old }
    requires room { at < length (list_of Part.Records (W.lists table.now.words)) }
    requires opened { (rs : List Record) → Shows (list_of Part.Records (W.lists table.now.words)) rs →
        open_tags.old ≡ open_before at rs }
    requires undeclared { NoneDeclared (list_of Part.Records (W.lists table.now.words)) end }
    ensures known { IsMemoOf table.now.bytes (W.lists table.now.words).records memo.new }
    ensures opened { (rs : List Record) → Shows (list_of Part.Records (W.lists table.now.words)) rs →
        open_tags.new ≡ open_before (at + 1) rs }
    ensures offence { ForEachNest table.now.bytes (W.lists table.now.words) (λ nest.
        over_names repeats [] (first_place table.now.bytes) nest ≡ [] →
        OffenceAt at result (nodes_of table.now.bytes nest)) }
    ensures starts { IfSome result (λ _. (rs : List Record) →
        Shows (list_of Part.Records (W.lists table.now.words)) rs →
        ((record_at at rs).token ≡ kind_number token.StartTag) ⊎ ((record_at at rs).token ≡ kind_number token.Target)) }
{
    let parts = parts_at(table.words(), at);
    open_tags.pass(at, parts);
    if parts.token == TokenKind::StartTag as u8 {
        return element_offence(table, memo, open_tags, at, parts.depth, end);
    }
    if parts.token == TokenKind::Target as u8 {
        return instruction_offence(table, at, parts);
    }
    None
}

/// Where the first name of a document begins that offends Namespaces in XML 1.0, in the order of the records; `None`
/// exactly where none does. No name repeats an earlier one of its tag. Where no name has a colon and nothing is declared it
/// reads each record once.
pub fn first_offence<W: Words>(table: &Table<'_, W>) -> Option<u32>
    ensures { ForEachNest table.now.bytes (W.lists table.now.words) (λ nest.
        over_names repeats [] (first_place table.now.bytes) nest ≡ [] →
        result ≡ first_of (over_names offences [] (first_place table.now.bytes) nest)) }
{
    if are_plain(table.bytes(), table.words()) {
        return None;
    }
    let records = table.words().len(Part::Records);
    let end = declarations_end(table.words());
    let mut open_tags = OpenTags::new();
    let mut memo = empty_memo();
    for at in 0..records {
        let offence = offence_at(table, &mut memo, &mut open_tags, at, end);
        if offence.is_some() {
            return offence;
        }
    }
    None
}
