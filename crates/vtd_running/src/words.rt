//! The words of a command line, read by `clap`: what they ask for is that crate's exact rule for a simple command.

ghost use Rattle.std.specs.Prelude.{◌≡◌, codes, map, option_copied, IfOk, string_bytes};
ghost use Rattle.clap.specs.Words.{app_of, found_of, first_value};
ghost use Rattle.vtd_running.specs.Form.{choose, form, generation_of, is_set, vtd_app};
ghost use Rattle.vtd_running.specs.Form.{count_of};
ghost use Rattle.vtd_running.specs.Seen.{form_seen};

use crate::counts::count_of;
use clap::error::ErrorKind;
use clap::{Arg, ArgAction, ArgMatches, Command};
use std::alloc::{AllocError, Global};
use xml_model::NoMemory;

/// What the words ask for.
#[derive(Clone, Copy, Debug)]
pub enum Words<'a> {
    /// To read the document of this name, and to go on after refused commands or not.
    Document(&'a str, bool),
    /// To read the index file of this name, and to go on after refused commands or not.
    IndexFile(&'a str, bool),
    /// To generate the document of so many orders, 1 to 1,000,000, and to carry out its script over it.
    Generation(u32),
    /// Nothing: they are not of the form.
    NoForm,
}

/// The command: the flags `-k` and `-x`, the option `-g` with its value, and the name of a document.
fn vtd_command<'a>(alloc: Global) -> Result<Command<'a>, AllocError>
    ensures { IfOk result (λ command. app_of command ≡ vtd_app) }
{
    let keep = Arg::new(alloc, "keep")
        .short('k')
        .action(ArgAction::SetTrue);
    let index = Arg::new(alloc, "index")
        .short('x')
        .action(ArgAction::SetTrue);
    let generate = Arg::new(alloc, "generate")
        .short('g')
        .action(ArgAction::Set);
    let doc = Arg::new(alloc, "doc").action(ArgAction::Set);
    Command::new(alloc, "vtd")
        .no_binary_name(true)
        .disable_help_flag(true)
        .arg(keep)?
        .arg(index)?
        .arg(generate)?
        .arg(doc)
}

/// Whether a flag stands among the words.
fn has_flag(matches: &ArgMatches<'_>, id: &str) -> bool
    ensures { result ≡ is_set (first_value (found_of matches.now) id.now) }
{
    matches.get_str(id) == Some("true")
}

/// What the text of `-g` asks for.
fn generation_of<'a>(count: &str) -> Words<'a>
    ensures { form_seen result ≡ generation_of (count_of count.now) }
{
    match count_of(count) {
        Some(count) => Words::Generation(count),
        None => Words::NoForm,
    }
}

/// What the name of a document, the text of `-g` and the flags `-k` and `-x` ask for.
fn choose<'a>(doc: Option<&'a str>, count: Option<&str>, keep: bool, indexed: bool) -> Words<'a>
    ensures { form_seen result ≡ choose (option_copied doc.entry) (option_copied count.entry) keep indexed }
{
    match (doc, count) {
        (Some(doc), None) if indexed => Words::IndexFile(doc, keep),
        (Some(doc), None) => Words::Document(doc, keep),
        (None, Some(count)) if !keep && !indexed => generation_of(count),
        _ => Words::NoForm,
    }
}

/// What was found in the words asks for.
fn chosen<'a>(matches: &ArgMatches<'a>) -> Words<'a>
    ensures { form_seen result ≡ choose (first_value (found_of matches.now) (codes "doc"))
        (first_value (found_of matches.now) (codes "generate"))
        (is_set (first_value (found_of matches.now) (codes "keep")))
        (is_set (first_value (found_of matches.now) (codes "index"))) }
{
    choose(
        matches.get_str("doc"),
        matches.get_str("generate"),
        has_flag(matches, "keep"),
        has_flag(matches, "index"),
    )
}

/// What the words, those after the program's name, ask for.
///
/// # Errors
/// `NoMemory` where memory was not to be had.
pub fn read_words<'a>(alloc: Global, words: &'a [String]) -> Result<Words<'a>, NoMemory>
    ensures { IfOk result (λ seen. form_seen seen ≡ form (map string_bytes words.now)) }
{
    let Ok(command) = vtd_command(alloc) else {
        return Err(NoMemory);
    };
    match command.try_get_matches_from(words) {
        Ok(matches) => Ok(chosen(&matches)),
        Err(error) => match error.kind() {
            ErrorKind::OutOfMemory => Err(NoMemory),
            _ => Ok(Words::NoForm),
        },
    }
}
