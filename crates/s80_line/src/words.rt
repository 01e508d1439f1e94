// The words as clap reads them.
ghost use Rattle.std.specs.Prelude.{◌≡◌, ◌≢◌, All, false, IfOk, IfSome, IfNone, IsUtf8, map, option_map, unwrap_or, [], None};
ghost use Rattle.clap.specs.Words.{app_of, kind_of, rule_of};
ghost use Rattle.s80_line.specs.Shape.{bare_app, option_rule, required_rule, rest_rule, the_app};
ghost use Rattle.s80_line.specs.Rows.{IsOutcome, whole_read};
ghost use Rattle.s80_line.specs.Shown.{parts_shown};

use clap::error::ErrorKind;
use clap::{Arg, ArgAction, ArgMatches, Command, Error};
use s80_base::{OutOfMemory, Text};
use std::alloc::{AllocError, Global};

/// The parts of a line as they were read: the values of each option, and the plain words.
#[derive(Drop)]
pub struct Parts<'a> {
    pub budgets: Vec<&'a str>,
    pub keeps: Vec<&'a str>,
    pub folder: &'a str,
    pub command: &'a str,
    pub arguments: Vec<&'a str>,
}

/// The words as texts of characters, or `None` exactly where one isn't UTF-8.
pub fn texts<'a>(alloc: Global, words: &'a [Text]) -> Result<Option<Vec<&'a str>>, OutOfMemory>
    ensures texts { IfOk result (λ r. IfSome r (λ texts. All IsUtf8 words.now × (map (λ s. s.now) texts.items ≡ words.now))) }
    ensures none { IfOk result (λ r. IfNone r (All IsUtf8 words.now → ⊥)) }
{
    let mut texts = Vec::new(alloc);
    for word in words {
        let Ok(text) = str::from_utf8(word.bytes()) else {
            return Ok(None);
        };
        texts.push(text)?;
    }
    Ok(Some(texts))
}

// An option with a value. Each use adds one, so that whoever reads them can count.
fn option<'a>(alloc: Global, name: &'a str) -> Arg<'a>
    ensures rule { rule_of result ≡ option_rule name.entry.now }
    ensures local { result.global ≡ false }
{
    Arg::new(alloc, name).long(name).action(ArgAction::Append)
}

// A plain word that has to be there.
fn required<'a>(alloc: Global, name: &'a str) -> Arg<'a>
    ensures rule { rule_of result ≡ required_rule name.entry.now }
    ensures local { result.global ≡ false }
{
    Arg::new(alloc, name).required(true).action(ArgAction::Set)
}

// All further plain words.
fn rest<'a>(alloc: Global, name: &'a str) -> Arg<'a>
    ensures rule { rule_of result ≡ rest_rule name.entry.now }
    ensures local { result.global ≡ false }
{
    Arg::new(alloc, name).action(ArgAction::Append)
}

// The command that reads them.
fn command<'a>(alloc: Global) -> Result<Command<'a>, AllocError>
    ensures { IfOk result (λ r. app_of r ≡ the_app) }
{
    let command = bare_command(alloc)
        .arg(option(alloc, "budget"))?
        .arg(option(alloc, "keep"))?;
    command
        .arg(required(alloc, "folder"))?
        .arg(required(alloc, "command"))?
        .arg(rest(alloc, "arguments"))
}

// The command with no argument yet, and no option of clap's own.
fn bare_command<'a>(alloc: Global) -> Command<'a>
    ensures { app_of result ≡ bare_app }
{
    Command::new(alloc, "st80").disable_help_flag(true)
}

// The matches of a line, or `None` where the words are no line.
fn matched<'a>(alloc: Global, words: &'a [&'a str]) -> Result<Option<ArgMatches<'a>>, AllocError>
    requires { All IsUtf8 (map (λ s. s.now) words.now) }
    ensures { IfOk result (IsOutcome (map (λ s. s.now) words.entry.now)) }
{
    let command = command(alloc)?;
    match command.try_get_matches_from(words) {
        Ok(matches) => Ok(Some(matches)),
        Err(error) => refused(error),
    }
}

// A refused line is `None`, and want of memory an error.
fn refused<'a>(error: Error) -> Result<Option<ArgMatches<'a>>, AllocError>
    ensures { IfOk result (λ r. (kind_of error ≢ ErrorKind.OutOfMemory) × (r ≡ None)) }
{
    match error.kind() {
        ErrorKind::OutOfMemory => Err(AllocError),
        _ => Ok(None),
    }
}

// The words that an argument has, where it has any.
fn words_of<'a>(alloc: Global, found: Option<&[&'a str]>) -> Result<Vec<&'a str>, AllocError>
    ensures { IfOk result (λ v. map (λ s. s.now) v.items ≡ unwrap_or (option_map (λ s. map (λ v. v.now) s.now) found.entry) []) }
{
    match found {
        Some(words) => Vec::from_slice(alloc, words),
        None => Ok(Vec::new(alloc)),
    }
}

/// The parts of a line, or `None` exactly where the words are no line with a folder and a command.
pub fn read_parts<'a>(alloc: Global, words: &'a [&'a str]) -> Result<Option<Parts<'a>>, AllocError>
    requires { All IsUtf8 (map (λ s. s.now) words.now) }
    ensures { IfOk result (λ r. option_map parts_shown r ≡ whole_read (map (λ s. s.now) words.entry.now)) }
{
    let Some(matches) = matched(alloc, words)? else {
        return Ok(None);
    };
    let budgets = words_of(alloc, matches.get_raw("budget"))?;
    let keeps = words_of(alloc, matches.get_raw("keep"))?;
    let arguments = words_of(alloc, matches.get_raw("arguments"))?;
    let folder = matches.get_str("folder").unwrap();
    let command = matches.get_str("command").unwrap();
    Ok(Some(Parts {
        budgets,
        keeps,
        folder,
        command,
        arguments,
    }))
}
