// A command line, and how its words are read.
ghost use Rattle.std.specs.Prelude.{◌≡◌, ◌≤◌, IfOk, IfSome, map, option_map};
ghost use Rattle.s80_line.specs.Line.{IsLine, line_of_read};
ghost use Rattle.s80_line.specs.Shown.{line_shown, parts_shown, shown};

use crate::number::number_or;
use crate::words::{Parts, read_parts, texts};
use s80_base::{OutOfMemory, Text};
use std::alloc::Global;

const DEFAULT_BUDGET: u64 = 1_000_000;

const BUDGET_DIGITS: usize = 13;

const MOST_BUDGET: u64 = 1_000_000_000_000;

const DEFAULT_KEEP: u64 = 1;

const KEEP_DIGITS: usize = 3;

const MOST_KEEP: u64 = 999;

/// What a command line says: the folder, the command and its arguments, and the options.
#[derive(Drop)]
pub struct Line {
    /// It isn't empty.
    pub folder: Text,
    pub command: Text,
    pub arguments: Vec<Text>,
    /// How many ticks a doIt may take, from 1 to 1,000,000,000,000: `--budget`, or 1,000,000.
    pub budget: u64,
    /// How many of the newest versions of each method a condensed list keeps, from 1 to 999: `--keep`, or 1.
    pub keep: u32,
}

/// Reads the words of a command line, of which the first is the program's name: `st80 [--budget N] [--keep K] FOLDER COMMAND [ARGUMENTS]`. Answers
/// `None` exactly where they are no such line. An option stands before the first `--`, as two words or with a `=`, and at most once; behind `--` every
/// word is plain, and before it no plain word begins with `-`, but for `-` alone. Each word is UTF-8, the program's name too.
pub fn read_line(alloc: Global, words: &[Text]) -> Result<Option<Line>, OutOfMemory>
    ensures read { IfOk result (λ line. IsLine words.now (option_map shown line)) }
    ensures keep { IfOk result (λ line. IfSome line (λ l. 1 ≤ l.keep)) }
{
    let Some(words) = texts(alloc, words)? else {
        return Ok(None);
    };
    let Some(parts) = read_parts(alloc, words.as_slice())? else {
        return Ok(None);
    };
    line_of(alloc, &parts)
}

// The line that was read, where its numbers are lawful and its folder has a name.
fn line_of(alloc: Global, parts: &Parts<'_>) -> Result<Option<Line>, OutOfMemory>
    ensures read { IfOk result (λ line. option_map shown line ≡ line_of_read (parts_shown parts.now)) }
    ensures keep { IfOk result (λ line. IfSome line (λ l. 1 ≤ l.keep)) }
{
    let budgets = parts.budgets.as_slice();
    let Some(budget) = number_or(budgets, DEFAULT_BUDGET, BUDGET_DIGITS, MOST_BUDGET) else {
        return Ok(None);
    };
    let keeps = parts.keeps.as_slice();
    let Some(keep) = number_or(keeps, DEFAULT_KEEP, KEEP_DIGITS, MOST_KEEP) else {
        return Ok(None);
    };
    if parts.folder.is_empty() {
        return Ok(None);
    }
    let line = owned_line(alloc, parts, budget, keep as u32)?;
    Ok(Some(line))
}

fn owned_line(alloc: Global, parts: &Parts<'_>, budget: u64, keep: u32) -> Result<Line, OutOfMemory>
    ensures { IfOk result (λ line. shown line ≡ line_shown parts.now budget keep) }
{
    let folder = Text::from_bytes(alloc, parts.folder.as_bytes())?;
    let command = Text::from_bytes(alloc, parts.command.as_bytes())?;
    let arguments = owned_words(alloc, parts.arguments.as_slice())?;
    Ok(Line {
        folder,
        command,
        arguments,
        budget,
        keep,
    })
}

fn owned_words(alloc: Global, words: &[&str]) -> Result<Vec<Text>, OutOfMemory>
    ensures { IfOk result (λ owned. owned.items ≡ map (λ s. s.now) words.now) }
{
    let mut owned = Vec::new(alloc);
    for word in words {
        owned.push(Text::from_bytes(alloc, word.as_bytes())?)?;
    }
    Ok(owned)
}
