//! What a line of a script asks for.

ghost use Rattle.std.specs.Prelude.{◌≡◌};
ghost use Rattle.std.specs.Str.{chars};
ghost use Rattle.vtd_lines.specs.Fields.{fields, unescaped};
ghost use Rattle.vtd_lines.specs.Commands.{bare_command, command, command_with_one, command_with_two, read};
ghost use Rattle.vtd_lines.specs.Commands.{with_one, with_two, word_with_one, word_with_two};
ghost use Rattle.vtd_lines.specs.Readings.{IsCommand, Reads};

use crate::fields::{first_field, unescape};
use std::alloc::{AllocError, Global};
use std::str::from_utf8;
use thiserror::Error;
use xml_model::Text;

/// The longest line, in bytes without its line end.
const LINE_LIMIT: usize = 65_536;

/// A command of a script. An expression is the text of one (XPath 1.0, section 3); it is read when the command is
/// carried out.
#[derive(Drop)]
pub enum Command {
    /// Lists all elements.
    Elements,
    /// Binds a prefix to a URI in expressions, in place of an earlier binding.
    Ns {
        /// The prefix.
        prefix: Text,
        /// The URI.
        uri: Text,
    },
    /// Lists the nodes of an expression, in document order.
    Select {
        /// The expression.
        expr: Text,
    },
    /// Tells the string of an expression (XPath 1.0, section 4.2).
    Value {
        /// The expression.
        expr: Text,
    },
    /// Stages that the nodes of an expression go, an attribute with the white space before it.
    Remove {
        /// The expression.
        expr: Text,
    },
    /// Stages a text in place of each node of an expression.
    Replace {
        /// The expression.
        expr: Text,
        /// The text, as markup.
        text: Text,
    },
    /// Stages a text before each node of an expression.
    Before {
        /// The expression.
        expr: Text,
        /// The text, as markup.
        text: Text,
    },
    /// Stages a text after each node of an expression.
    After {
        /// The expression.
        expr: Text,
        /// The text, as markup.
        text: Text,
    },
    /// Stages a text as the first thing in each element of an expression.
    First {
        /// The expression.
        expr: Text,
        /// The text, as markup.
        text: Text,
    },
    /// Stages a text as the last thing in each element of an expression.
    Last {
        /// The expression.
        expr: Text,
        /// The text, as markup.
        text: Text,
    },
    /// Stages a text after the name in each element's first tag, with a space before it.
    Attr {
        /// The expression.
        expr: Text,
        /// The text, as markup.
        text: Text,
    },
    /// Stages that each node of an expression says a plain text, which is escaped.
    Set {
        /// The expression.
        expr: Text,
        /// The text.
        text: Text,
    },
    /// Stages a new name of each node of an expression.
    Rename {
        /// The expression.
        expr: Text,
        /// The name.
        name: Text,
    },
    /// Drops all that is staged.
    Discard,
    /// Makes the new bytes the document, for which nothing is staged.
    Apply,
    /// Makes document and staging what they were before the last change.
    Undo,
    /// Makes document and staging what they were before the last `undo`.
    Redo,
    /// Writes the new bytes to a file.
    Save {
        /// The name of the file.
        file: Text,
    },
    /// Writes the index file of the document, in which what is staged plays no part.
    Index {
        /// The name of the file.
        file: Text,
    },
    /// Reads a file as the document, for which nothing is staged.
    Open {
        /// The name of the file.
        file: Text,
    },
    /// Reads a file as an index file, whose document becomes the document, for which nothing is staged.
    Load {
        /// The name of the file.
        file: Text,
    },
}

/// The words that one field follows.
#[derive(Clone, Copy)]
enum OneField {
    Select,
    Value,
    Remove,
    Save,
    Index,
    Open,
    Load,
}

/// The words that two fields follow.
#[derive(Clone, Copy)]
enum TwoFields {
    Ns,
    Replace,
    Before,
    After,
    First,
    Last,
    Attr,
    Set,
    Rename,
}

/// Why a line is no command.
#[derive(Clone, Copy, Debug, PartialEq, Error)]
pub enum LineFault {
    /// The line has more than 65,536 bytes.
    #[error("the line has more than 65,536 bytes")]
    Long,
    /// The line is not UTF-8.
    #[error("the line is not UTF-8")]
    Utf8,
    /// No command has this word with so many fields.
    #[error("no command has this word with so many fields")]
    Command,
    /// A backslash in a field is not before `t`, `n`, `r` or another backslash.
    #[error("a backslash begins no escape")]
    Escape,
    /// Memory was not to be had.
    #[error("no memory")]
    NoMemory,
}

impl From<AllocError> for LineFault {
    ghost use Rattle.std.specs.Prelude.{◌≡◌};
    ghost use Rattle.vtd_lines.specs.declared.commands.LineFault.TheVariants.{NoMemory};

    ghost from_gives = { λ _ e. e ≡ NoMemory };

    fn from(_e: AllocError) -> LineFault {
        LineFault::NoMemory
    }
}

/// The command of a line that has no tab.
fn bare_command(word: &str) -> Result<Command, LineFault>
    ensures { IsCommand result (bare_command word.now) }
{
    match word {
        "elements" => Ok(Command::Elements),
        "discard" => Ok(Command::Discard),
        "apply" => Ok(Command::Apply),
        "undo" => Ok(Command::Undo),
        "redo" => Ok(Command::Redo),
        _ => Err(LineFault::Command),
    }
}

/// The word, if it is one that one field follows.
fn word_with_one(word: &str) -> Option<OneField>
    ensures { result ≡ word_with_one word.now }
{
    match word {
        "select" => Some(OneField::Select),
        "value" => Some(OneField::Value),
        "remove" => Some(OneField::Remove),
        "save" => Some(OneField::Save),
        "index" => Some(OneField::Index),
        "open" => Some(OneField::Open),
        "load" => Some(OneField::Load),
        _ => None,
    }
}

/// The command of such a word and the text of its field.
fn with_one(word: OneField, field: Text) -> Command
    ensures { result ≡ with_one word field }
{
    match word {
        OneField::Select => Command::Select { expr: field },
        OneField::Value => Command::Value { expr: field },
        OneField::Remove => Command::Remove { expr: field },
        OneField::Save => Command::Save { file: field },
        OneField::Index => Command::Index { file: field },
        OneField::Open => Command::Open { file: field },
        OneField::Load => Command::Load { file: field },
    }
}

/// The command of a line whose word one field follows.
fn command_with_one(alloc: Global, word: &str, first: &str) -> Result<Command, LineFault>
    ensures { IsCommand result (command_with_one word.now first.now) }
{
    let Some(word) = word_with_one(word) else {
        return Err(LineFault::Command);
    };
    match unescape(alloc, first) {
        Ok(field) => Ok(with_one(word, field)),
        Err(fault) => Err(fault),
    }
}

/// The word, if it is one that two fields follow.
fn word_with_two(word: &str) -> Option<TwoFields>
    ensures { result ≡ word_with_two word.now }
{
    match word {
        "ns" => Some(TwoFields::Ns),
        "replace" => Some(TwoFields::Replace),
        "before" => Some(TwoFields::Before),
        "after" => Some(TwoFields::After),
        "first" => Some(TwoFields::First),
        "last" => Some(TwoFields::Last),
        "attr" => Some(TwoFields::Attr),
        "set" => Some(TwoFields::Set),
        "rename" => Some(TwoFields::Rename),
        _ => None,
    }
}

/// The command of such a word and the texts of its fields; those of `ns` are a prefix and a URI.
fn with_two(word: TwoFields, expr: Text, text: Text) -> Command
    ensures { result ≡ with_two word expr text }
{
    match word {
        TwoFields::Ns => Command::Ns {
            prefix: expr,
            uri: text,
        },
        TwoFields::Replace => Command::Replace { expr, text },
        TwoFields::Before => Command::Before { expr, text },
        TwoFields::After => Command::After { expr, text },
        TwoFields::First => Command::First { expr, text },
        TwoFields::Last => Command::Last { expr, text },
        TwoFields::Attr => Command::Attr { expr, text },
        TwoFields::Set => Command::Set { expr, text },
        TwoFields::Rename => Command::Rename { expr, name: text },
    }
}

/// The command of a line whose word two fields follow.
fn command_with_two(
    alloc: Global,
    word: &str,
    first: &str,
    second: &str,
) -> Result<Command, LineFault>
    ensures { IsCommand result (command_with_two word.now first.now second.now) }
{
    let Some(word) = word_with_two(word) else {
        return Err(LineFault::Command);
    };
    let first = unescape(alloc, first)?;
    let second = unescape(alloc, second)?;
    Ok(with_two(word, first, second))
}

/// The command of a line, by its fields.
fn read_fields(alloc: Global, line: &str) -> Result<Command, LineFault>
    ensures { IsCommand result (command (fields line.now)) }
{
    let (word, rest) = first_field(line);
    let Some(rest) = rest else {
        return bare_command(word);
    };
    let (first, rest) = first_field(rest);
    let Some(rest) = rest else {
        return command_with_one(alloc, word, first);
    };
    let (second, rest) = first_field(rest);
    if rest.is_some() {
        return Err(LineFault::Command);
    }
    command_with_two(alloc, word, first, second)
}

/// What a line, without its line end, asks for: a command, or nothing where it is empty. Its fields are separated by
/// single tabs, and in a field after the first `\t`, `\n`, `\r` and `\\` stand for a tab, a line feed, a carriage
/// return and a backslash. It takes linear time.
///
/// # Errors
/// The first that applies: `Long` for more than 65,536 bytes; `Utf8`; `Command` where no command has this word with so
/// many fields; `Escape` where a backslash in a field begins no escape. `NoMemory` may come in place of any other
/// answer.
pub fn read_line(alloc: Global, line: &[u8]) -> Result<Option<Command>, LineFault>
    ensures { Reads result (read line.now) }
{
    if line.is_empty() {
        return Ok(None);
    }
    if line.len() > LINE_LIMIT {
        return Err(LineFault::Long);
    }
    let Ok(line) = from_utf8(line) else {
        return Err(LineFault::Utf8);
    };
    match read_fields(alloc, line) {
        Ok(command) => Ok(Some(command)),
        Err(fault) => Err(fault),
    }
}
