//! What an XML document is: characters, items, nests, trees, records, contents, names and axes, as definitions that
//! the contracts of every other crate cite, and the plain types that these crates share.
//!
//! The definitions are in `specs/`; docs/DEFINITIONS.md reads them in plain words.
#![tactic(auto)]

ghost use Rattle.std.specs.Prelude.{◌≡◌};

use std::marker::Model;

pub mod laws;
pub mod laws_of_contexts;
pub mod texts;

/// The kinds of node of the tree (XPath 1.0, section 5; namespace nodes are left out).
#[derive(Clone, Copy, Debug, PartialEq, Eq)]
pub enum Kind {
    Root,
    Element,
    Attribute,
    Text,
    Comment,
    Instruction,
}

impl Kind {
    ghost use Rattle.xml_model.specs.Laws.{is_child_kind};

    /// Whether nodes of this kind are children where they are: all but the root and attributes.
    pub fn is_child(self) -> bool
        ensures { result ≡ is_child_kind self }
    {
        !matches!(self, Kind::Root | Kind::Attribute)
    }
}

/// The axes along which nodes are found (XPath 1.0, section 2.2; the namespace axis is left out). `Itself` is the
/// axis `self`.
#[derive(Clone, Copy, Debug, PartialEq, Eq)]
pub enum Axis {
    Child,
    Descendant,
    Parent,
    Ancestor,
    FollowingSibling,
    PrecedingSibling,
    Following,
    Preceding,
    Attribute,
    Itself,
    DescendantOrSelf,
    AncestorOrSelf,
}

/// A test of an expanded name (XPath 1.0, section 2.3). An empty `uri` is no namespace.
#[derive(Clone, Copy)]
pub enum NameTest<'b> {
    /// `*`
    Any,
    /// `prefix:*`, with the URI that the prefix is bound to.
    AnyIn { uri: &'b str },
    /// A name, with the URI of its prefix.
    Named { uri: &'b str, local: &'b str },
}

/// A node test (XPath 1.0, section 2.3). `Target` passes the instructions of that target.
#[derive(Clone, Copy)]
pub enum NodeTest<'b> {
    Node,
    Text,
    Comment,
    Instruction,
    Target(&'b str),
    Name(NameTest<'b>),
}

/// The kinds of token that have a record. The number of each is that of its records, in their upper four bits;
/// docs/RECORDS.md has the table.
#[derive(Clone, Copy)]
pub enum TokenKind {
    /// The name in a start tag or an empty tag.
    StartTag = 0,
    /// The name of an attribute.
    AttributeName = 2,
    /// The name of an attribute that declares a namespace.
    NamespaceName = 3,
    /// The value of an attribute or of a declaration of a namespace.
    Value = 4,
    /// Character data in the root element.
    Text = 5,
    /// What is in a comment.
    Comment = 6,
    /// The target of an instruction.
    Target = 7,
    /// The data of an instruction.
    Data = 8,
    /// The name of a part of the XML declaration.
    PartName = 9,
    /// The value of a part of the XML declaration.
    PartValue = 10,
    /// What is in a CDATA section.
    Cdata = 11,
    /// What is in a DOCTYPE.
    Doctype = 12,
    /// The document itself, whose record comes first.
    Document = 13,
}

/// The part of a record that is too wide for its field.
#[derive(Clone, Copy, Debug, PartialEq, Eq)]
pub enum Field {
    Token,
    Name,
    Prefix,
}

/// Why a document is refused. `at` is a place: bytes from the start of the document, a byte order mark included.
#[derive(Clone, Copy, Debug, PartialEq, Eq)]
pub enum DocFault {
    /// The bytes are not UTF-8; `at` is the length of the longest prefix that is.
    Utf8 { at: u32 },
    /// At `at` whole items end and no item begins (XML 1.0, productions 14 to 44).
    Syntax { at: u32 },
    /// The reference at `at` names no built-in entity (XML 1.0, section 4.6).
    Entity { at: u32 },
    /// The declared encoding, whose first letter is at `at`, is neither `UTF-8` nor `US-ASCII`.
    Encoding { at: u32 },
    /// The items do not nest (XML 1.0, productions 1, 22, 27 and 39).
    Nesting { at: u32 },
    /// The element at `at` would be inside 255 others.
    Depth { at: u32 },
    /// The record of the token at `at` has no room for it.
    Width { field: Field, at: u32 },
    /// The name at `at` repeats an earlier one of its tag (XML 1.0, section 3.1).
    Twice { at: u32 },
    /// The name at `at` offends Namespaces in XML 1.0.
    Namespace { at: u32 },
}

/// A node of a document, by the index of its first record.
#[derive(Clone, Copy, Debug, PartialEq, Eq)]
pub struct Node {
    pub kind: Kind,
    pub at: u32,
}

/// A range of the document's bytes, from `start` up to `end`, which is left out.
#[derive(Clone, Copy, Debug, PartialEq, Eq)]
pub struct Span {
    pub start: u32,
    pub end: u32,
}

/// How many words each list of a document has, or is to have room for: its records, and the elements of depth 1 to 5.
#[derive(Clone, Copy, Debug, PartialEq)]
pub struct Counts {
    pub records: u32,
    pub level1: u32,
    pub level2: u32,
    pub level3: u32,
    pub level4: u32,
    pub level5: u32,
}

impl Counts {
    ghost use Rattle.std.specs.Prelude.{◌^◌, ◌-◌};
    ghost use Rattle.xml_model.specs.Levels.{with_element, LevelsAtMost};

    /// These counts with one more element of a depth; only elements of depth 1 to 5 are counted.
    #[inline(always)]
    pub fn with_element(self, depth: u32) -> Counts
        requires { LevelsAtMost (2 ^ 32 - 2) self }
        ensures { result ≡ with_element depth self }
    {
        let mut counts = self;
        match depth {
            1 => counts.level1 += 1,
            2 => counts.level2 += 1,
            3 => counts.level3 += 1,
            4 => counts.level4 += 1,
            5 => counts.level5 += 1,
            _ => {}
        }
        counts
    }
}

/// Memory was not to be had.
#[derive(Clone, Copy, Debug, PartialEq, Eq)]
pub struct NoMemory;

/// A text, which contracts see as the list of its code points.
#[derive(Drop)]
pub struct Text {
    pub held: String,
}

impl Model for Text {
    ghost use Rattle.std.specs.Prelude.{List, ℕ, string_bytes};
    ghost use Rattle.std.specs.Str.{chars};

    ghost Value = { List ℕ };

    ghost view = { λ t. chars (string_bytes t.held) };
}

/// Bytes, which contracts see as a list.
#[derive(Drop)]
pub struct Bytes {
    pub held: Vec<u8>,
}

impl Model for Bytes {
    ghost use Rattle.std.specs.Prelude.{List, ℕ};

    ghost Value = { List ℕ };

    ghost view = { λ b. b.held.items };
}

/// Nodes of one document, which contracts see as a list.
#[derive(Drop)]
pub struct NodeList {
    pub held: Vec<Node>,
}

impl Model for NodeList {
    ghost use Rattle.std.specs.Prelude.{List};
    ghost use Rattle.xml_model.specs.declared.Node.{Node};

    ghost Value = { List Node };

    ghost view = { λ n. n.held.items };
}
