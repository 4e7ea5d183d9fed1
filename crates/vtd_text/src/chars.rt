//! The code points of a text, resolved, one after another. No call takes memory.
#![tactic(auto)]

ghost use Rattle.std.specs.Prelude.{◌≡◌, ℕ, suc, ◌+◌, ◌<◌, ◌≤◌, List, [], ◌∷◌, ◌++◌, length};
ghost use Rattle.std.specs.Prelude.{MatchOption, IsSome};
ghost use Rattle.std.specs.Iterator.{YieldsFirst, item_count};
ghost use Rattle.std.specs.Str.{chars};
ghost use Rattle.xml_model.specs.Content.{content, value_content};
ghost use Rattle.xml_model.specs.Items.{Attribute};
ghost use Rattle.xml_model.specs.Records.{Record};
ghost use Rattle.xml_model.specs.Scan.{record_at};
ghost use Rattle.vtd_words.specs.Lists.{list_of};
ghost use Rattle.vtd_words.specs.Table.{ForEachEntry, ForEachNest, IsNodeOf, Shows};
ghost use Rattle.xml_model.specs.Wholes.{wholes};
ghost use Rattle.vtd_text.specs.Joined.{Joined, row};
ghost use Rattle.vtd_text.specs.NameRecords.{IsDeclaration, IsNameOf};
ghost use Rattle.vtd_text.specs.Resolved.{IsRecord, IsResolved, IsRow};

use crate::row::{Row, RowEnd, text_of};
use crate::token::{Rule, TokenChars};
use std::marker::Model;
use vtd_words::{Part, Table, Words, parts_at};
use xml_model::{Kind, Node};

/// The code points that are left of a text, resolved: line ends, references, the white space of attribute values, and
/// CDATA sections beside texts (XML 1.0, sections 2.11, 3.3.3, 4.1 and 4.6). Contracts see the list of them.
#[derive(Drop)]
pub struct Chars<'a, W: Words> {
    row: Row<'a, W>,
}

impl<'a, W: Words> Model for Chars<'a, W> {
    ghost use Rattle.std.specs.Prelude.{List, ℕ};
    ghost use Rattle.vtd_text.specs.Joined.{left_of};
    ghost use Rattle.vtd_text.specs.Resolved.{HasLeft};

    ghost Value = { List ℕ };

    ghost view = { λ s. left_of s.row.bytes.now (W.lists s.row.words.now).records s.row.token.rule s.row.token.text.now
        s.row.at s.row.end };

    ghost invariant = { λ s. HasLeft s.row.bytes.now (W.lists s.row.words.now).records s.row.token.rule
        s.row.token.text.now s.row.at s.row.end };
}

/// The index after that of a record, where there is one.
pub(crate) fn after<W: Words>(words: &W, at: u32) -> u32
    requires { at + 1 < length (list_of Part.Records (W.lists words.now)) }
    ensures { result ≡ at + 1 }
{
    let records = words.len(Part::Records);
    prove!(at < records);
    at + 1
}

impl<'a, W: Words> Chars<'a, W> {
    /// The code points of a node's string-value (XPath 1.0, section 5): for the root and an element those of all texts
    /// in it, in document order. It reads one record, and of a text those of its run; what is in an element is read as
    /// its code points are taken.
    pub fn of(table: &Table<'a, W>, node: Node) -> Chars<'a, W>
        requires { IsNodeOf table.now.bytes (W.lists table.now.words) node }
        ensures { ForEachEntry table.now.bytes (W.lists table.now.words) node (λ nest e. result ≡ content e.what) }
    {
        let bytes = table.bytes();
        let words = table.words();
        match node.kind {
            Kind::Root | Kind::Text => {
                let past = table.end_of(node);
                Chars::of_row(bytes, words, node.at, RowEnd { past, least: 0 })
            }
            Kind::Element => {
                let past = words.len(Part::Records);
                let least = table.level_at(node) + 1;
                Chars::of_row(
                    bytes,
                    words,
                    table.after_first(node),
                    RowEnd { past, least },
                )
            }
            Kind::Attribute => Chars::of_record(bytes, words, Rule::Value, after(words, node.at)),
            Kind::Comment => Chars::of_record(bytes, words, Rule::Literal, node.at),
            Kind::Instruction => Chars::of_record(
                bytes,
                words,
                Rule::Literal,
                after(words, node.at),
            ),
        }
    }

    /// The code points of the value of a declaration of a namespace, by the index of the record of its name, which has
    /// the type 3 (Namespaces in XML 1.0, section 3); its value is resolved as that of an attribute.
    pub fn of_declaration(table: &Table<'a, W>, at: u32) -> Chars<'a, W>
        requires { IsDeclaration table.now.bytes (W.lists table.now.words) at }
        ensures { ForEachNest table.now.bytes (W.lists table.now.words) (λ nest.
            (a : Attribute) → IsNameOf table.now.bytes nest at a → result ≡ value_content a.value) }
    {
        let words = table.words();
        Chars::of_record(table.bytes(), words, Rule::Value, after(words, at))
    }

    /// What is left, once more: it is taken from without a change of this one.
    pub fn again(&self) -> Chars<'a, W>
        ensures { result ≡ self.now }
    {
        let Row {
            bytes,
            words,
            token,
            at,
            end,
        } = &self.row;
        Chars {
            row: Row {
                bytes: *bytes,
                words: *words,
                token: *token,
                at: *at,
                end: *end,
            },
        }
    }

    /// Takes code points at the start, perhaps none; their UTF-8 is answered.
    pub(crate) fn next_plain(&mut self) -> &'a str
        ensures { self.old ≡ chars result.now ++ self.new }
    {
        self.row.next_plain()
    }

    /// The code points of the texts and CDATA sections of a row of records.
    fn of_row(bytes: &'a [u8], words: &'a W, at: u32, end: RowEnd) -> Chars<'a, W>
        requires within { end.past ≤ length (list_of Part.Records (W.lists words.now)) }
        requires row { IsRow bytes.now (list_of Part.Records (W.lists words.now)) at end }
        ensures { (rs : List Record) → Shows (list_of Part.Records (W.lists words.entry.now)) rs →
            (content : List ℕ) → Joined bytes.entry.now (wholes (row at end rs)) content → result ≡ content }
    {
        let row = Row {
            bytes,
            words,
            token: TokenChars {
                text: "",
                rule: Rule::Text,
            },
            at,
            end,
        };
        Chars { row }
    }

    /// The code points of one record, by a rule.
    fn of_record(bytes: &'a [u8], words: &'a W, rule: Rule, at: u32) -> Chars<'a, W>
        requires within { at < length (list_of Part.Records (W.lists words.now)) }
        requires record { IsRecord bytes.now (list_of Part.Records (W.lists words.now)) rule at }
        ensures { (rs : List Record) → Shows (list_of Part.Records (W.lists words.entry.now)) rs →
            (content : List ℕ) → IsResolved bytes.entry.now rule (record_at at rs) content → result ≡ content }
    {
        let text = text_of(bytes, parts_at(words, at));
        let row = Row {
            bytes,
            words,
            token: TokenChars { text, rule },
            at: 0,
            end: RowEnd { past: 0, least: 0 },
        };
        Chars { row }
    }
}

impl<'a, W: Words> Iterator for Chars<'a, W> {
    type Item = char;

    ghost next_gives = { YieldsFirst (λ s. s) };

    ghost remaining = { item_count (λ s. s) };

    /// The next code point; `None` exactly at the end.
    fn next(&mut self) -> Option<char> {
        self.row.next()
    }
}
