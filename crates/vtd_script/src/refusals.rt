//! Why a line of a script is refused.

ghost use Rattle.std.specs.Prelude.{◌≡◌, ◌++◌, codes, IfOk, OnOk};
ghost use Rattle.std.specs.Fmt.{decimal};
ghost use Rattle.vtd_script.specs.States.{refusal_words, refused_line};
ghost use Rattle.vtd_script.specs.Steps.{index_refusal, refusal_of};

use crate::faults::width_word;
use std::alloc::Global;
use vtd_index::IndexFault;
use vtd_listing::{push_decimal, push_text};
use xml_model::{DocFault, Field, NoMemory};

/// Why a line of a script is refused. The refusals of a line come in this order, and the first one counts.
#[derive(Clone, Copy, Debug, PartialEq, Eq)]
pub enum Refusal {
    /// The line has more than 65,536 bytes without its line end.
    LineLong,
    /// The line is not UTF-8.
    LineUtf8,
    /// No command has this word with so many fields.
    Command,
    /// A backslash in a field is not before `t`, `n`, `r` or another backslash.
    Escape,
    /// A document is to be opened or loaded, and a splice is staged.
    Staged,
    /// The expression has more than 4,096 bytes.
    ExprLong,
    /// The expression splits into tokens, and in some prefix of them the opening brackets outnumber the closing ones by
    /// more than 64.
    ExprDeep,
    /// The text is no expression (XPath 1.0, sections 3.1 to 3.7).
    ExprSyntax,
    /// The expression has the axis `namespace`. The refusals up to `NeedsNodes` are of the first token in the
    /// expression at which there is one, and this order counts at one token alone.
    Axis,
    /// It refers to a variable; none is bound.
    Variable,
    /// It calls a function that is none of the core library, or `id` (XPath 1.0, section 4).
    Function,
    /// It calls a function with a number of arguments that the function does not take.
    Arguments,
    /// It has a name test whose prefix is not bound.
    Prefix,
    /// It has a number of more than six decimals, a further one of which is not 0.
    LiteralFraction,
    /// It has a number above 9007199254740991.
    LiteralRange,
    /// Within it nodes are needed where something of another type is.
    NeedsNodes,
    /// The command takes nodes, and the type of the expression is no node-set.
    NotNodes,
    /// Evaluating it met a number that is no whole number of millionths.
    Fraction,
    /// It divided a number other than 0 by 0.
    Infinite,
    /// It met a number whose absolute value is above 9007199254740991.
    Range,
    /// A name, or what is bound to it, is none that the command takes.
    Name,
    /// The command does not take the kind of a node; `at` is where the first such node begins.
    Kind {
        /// Where.
        at: u32,
    },
    /// A splice of the command overlaps an earlier one. `later` is where the first such splice starts, and `earlier`
    /// where the first splice starts that it overlaps.
    Overlap {
        /// Where the earlier one starts.
        earlier: u32,
        /// Where the later one starts.
        later: u32,
    },
    /// All staged texts would have more than 268,435,456 bytes.
    TextLong,
    /// The bytes that are to be the document are more than 1,073,741,823, or those of an index file that is to be loaded
    /// more than 4,294,967,295.
    FileLong,
    /// The index file of the document would have more than 4,294,967,295 bytes.
    IndexLong,
    /// `undo`: no change is kept.
    NoUndo,
    /// `redo`: no undone change is kept.
    NoRedo,
    /// They are not UTF-8; `at` is the length of the longest prefix that is.
    Utf8 {
        /// Where.
        at: u32,
    },
    /// At `at` whole items end and no item begins (XML 1.0, productions 14 to 44).
    Syntax {
        /// Where.
        at: u32,
    },
    /// The reference at `at` names no built-in entity (XML 1.0, section 4.6).
    Entity {
        /// Where.
        at: u32,
    },
    /// The declared encoding, whose first letter is at `at`, is neither `UTF-8` nor `US-ASCII`.
    Encoding {
        /// Where.
        at: u32,
    },
    /// The items do not nest (XML 1.0, productions 1, 22, 27 and 39).
    Nesting {
        /// Where.
        at: u32,
    },
    /// The element at `at` would be inside 255 others.
    Depth {
        /// Where.
        at: u32,
    },
    /// The record of the token at `at` has no room for it.
    Width {
        /// What is too wide.
        field: Field,
        /// Where.
        at: u32,
    },
    /// The name at `at` repeats an earlier one of its tag (XML 1.0, section 3.1).
    Twice {
        /// Where.
        at: u32,
    },
    /// The name at `at` offends Namespaces in XML 1.0.
    Namespace {
        /// Where.
        at: u32,
    },
    /// The index file has fewer than 32 bytes, or begins as one and has fewer than 40.
    Short,
    /// The file does not begin as an index file.
    Magic,
    /// The parts of the index file by their lengths do not fill it, or its document has more than 1,073,741,823 bytes.
    Size,
    /// The byte of the index file at `at` is the first that is to be zero and is not.
    Padding {
        /// Where.
        at: u32,
    },
    /// The stored records are not those of the document: the first that differs, is missing or is surplus.
    Records {
        /// Which.
        at: u32,
    },
    /// The stored levels are not those of the records.
    Caches {
        /// The first level that differs.
        level: u8,
        /// Its first entry that differs, is missing or is surplus.
        at: u32,
    },
}

/// The refusal of a command by a document that is refused.
pub fn refusal_of(fault: DocFault) -> Refusal
    ensures { result ≡ refusal_of fault }
{
    match fault {
        DocFault::Utf8 { at } => Refusal::Utf8 { at },
        DocFault::Syntax { at } => Refusal::Syntax { at },
        DocFault::Entity { at } => Refusal::Entity { at },
        DocFault::Encoding { at } => Refusal::Encoding { at },
        DocFault::Nesting { at } => Refusal::Nesting { at },
        DocFault::Depth { at } => Refusal::Depth { at },
        DocFault::Width { field, at } => Refusal::Width { field, at },
        DocFault::Twice { at } => Refusal::Twice { at },
        DocFault::Namespace { at } => Refusal::Namespace { at },
    }
}

/// The refusal of a command by a file that is no index file.
pub fn index_refusal(fault: IndexFault) -> Refusal
    ensures { result ≡ index_refusal fault }
{
    match fault {
        IndexFault::Short => Refusal::Short,
        IndexFault::Magic => Refusal::Magic,
        IndexFault::Size => Refusal::Size,
        IndexFault::Padding { at } => Refusal::Padding { at },
        IndexFault::Doc(fault) => refusal_of(fault),
        IndexFault::Records { at } => Refusal::Records { at },
        IndexFault::Caches { level, at } => Refusal::Caches { level, at },
    }
}

/// Adds a word and a place.
fn push_at(line: &mut Vec<u8>, word: &[u8], at: u32) -> Result<(), NoMemory>
    ensures { OnOk result (line.new.items ≡ line.old.items ++ (word.now ++ decimal at)) }
{
    push_text(line, word)?;
    push_decimal(line, u64::from(at))
}

/// Adds the words of an overlap.
fn push_overlap(line: &mut Vec<u8>, earlier: u32, later: u32) -> Result<(), NoMemory>
    ensures { OnOk result
        (line.new.items ≡ line.old.items ++ (codes "overlap " ++ decimal earlier ++ codes " " ++ decimal later)) }
{
    push_at(line, b"overlap ", earlier)?;
    push_at(line, b" ", later)
}

/// Adds the words of a level and an entry in it.
fn push_caches(line: &mut Vec<u8>, level: u8, at: u32) -> Result<(), NoMemory>
    ensures { OnOk result
        (line.new.items ≡ line.old.items ++ (codes "caches " ++ decimal level ++ codes " " ++ decimal at)) }
{
    push_at(line, b"caches ", u32::from(level))?;
    push_at(line, b" ", at)
}

/// Adds the words of a refusal.
fn push_words(line: &mut Vec<u8>, refusal: Refusal) -> Result<(), NoMemory>
    ensures { OnOk result (line.new.items ≡ line.old.items ++ refusal_words refusal) }
{
    match refusal {
        Refusal::LineLong => push_text(line, b"line-long"),
        Refusal::LineUtf8 => push_text(line, b"line-utf8"),
        Refusal::Command => push_text(line, b"command"),
        Refusal::Escape => push_text(line, b"escape"),
        Refusal::Staged => push_text(line, b"staged"),
        Refusal::Name => push_text(line, b"name"),
        Refusal::ExprLong => push_text(line, b"expr-long"),
        Refusal::ExprSyntax => push_text(line, b"expr-syntax"),
        Refusal::ExprDeep => push_text(line, b"expr-deep"),
        Refusal::Axis => push_text(line, b"axis"),
        Refusal::Variable => push_text(line, b"variable"),
        Refusal::Function => push_text(line, b"function"),
        Refusal::Arguments => push_text(line, b"arguments"),
        Refusal::Prefix => push_text(line, b"prefix"),
        Refusal::LiteralFraction => push_text(line, b"literal-fraction"),
        Refusal::LiteralRange => push_text(line, b"literal-range"),
        Refusal::NeedsNodes => push_text(line, b"type"),
        Refusal::NotNodes => push_text(line, b"not-nodes"),
        Refusal::Fraction => push_text(line, b"fraction"),
        Refusal::Infinite => push_text(line, b"infinite"),
        Refusal::Range => push_text(line, b"range"),
        Refusal::Kind { at } => push_at(line, b"kind ", at),
        Refusal::Overlap { earlier, later } => push_overlap(line, earlier, later),
        Refusal::TextLong => push_text(line, b"text-long"),
        Refusal::FileLong => push_text(line, b"file-long"),
        Refusal::IndexLong => push_text(line, b"index-long"),
        Refusal::NoUndo => push_text(line, b"no-undo"),
        Refusal::NoRedo => push_text(line, b"no-redo"),
        Refusal::Utf8 { at } => push_at(line, b"utf8 ", at),
        Refusal::Syntax { at } => push_at(line, b"syntax ", at),
        Refusal::Entity { at } => push_at(line, b"entity ", at),
        Refusal::Encoding { at } => push_at(line, b"encoding ", at),
        Refusal::Nesting { at } => push_at(line, b"nesting ", at),
        Refusal::Depth { at } => push_at(line, b"depth ", at),
        Refusal::Width { field, at } => push_at(line, width_word(field), at),
        Refusal::Twice { at } => push_at(line, b"twice ", at),
        Refusal::Namespace { at } => push_at(line, b"namespace ", at),
        Refusal::Short => push_text(line, b"short"),
        Refusal::Magic => push_text(line, b"magic"),
        Refusal::Size => push_text(line, b"size"),
        Refusal::Padding { at } => push_at(line, b"padding ", at),
        Refusal::Records { at } => push_at(line, b"records ", at),
        Refusal::Caches { level, at } => push_caches(line, level, at),
    }
}

/// The line of a refusal: `refused`, and its words.
///
/// # Errors
/// `NoMemory` where the memory for the line was not to be had.
#[tactic(auto, unfolding(crate::specs::States::refused_line))]
pub fn refusal_line(alloc: Global, refusal: Refusal) -> Result<Vec<u8>, NoMemory>
    ensures { IfOk result (λ line. line.items ≡ refused_line refusal) }
{
    let mut line = Vec::new(alloc);
    push_text(&mut line, b"refused ")?;
    push_words(&mut line, refusal)?;
    push_text(&mut line, b"\n")?;
    Ok(line)
}

/// The line of a file that is no index file.
///
/// # Errors
/// `NoMemory` where the memory for the line was not to be had.
pub fn index_fault_line(alloc: Global, fault: IndexFault) -> Result<Vec<u8>, NoMemory>
    ensures { IfOk result (λ line. line.items ≡ refused_line (index_refusal fault)) }
{
    refusal_line(alloc, index_refusal(fault))
}
