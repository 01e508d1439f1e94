//! Reads rows from standard input and prints behind each what the public calls answer to it: texts, their tokens, trees and core trees, the texts of trees,
//! changes, the tables of classes and methods, and look-ups. What it is given and what it prints are tables of the repository's tests.
#![tactic(auto)]

mod changes;
mod lookups;
mod tables;
mod texts;

use anyhow::{Context, Result, bail};
use s80_base::Text;
use s80_rows::{input, print, word_of};
use std::alloc::Global;

/// What a row shows.
fn answer(alloc: Global, word: &str, rest: &str) -> Result<Text> {
    if let Some(lines) = texts::row(alloc, word, rest)? {
        return Ok(lines);
    }
    if let Some(lines) = changes::row(alloc, word, rest)? {
        return Ok(lines);
    }
    if let Some(lines) = lookups::row(alloc, word, rest)? {
        return Ok(lines);
    }
    match tables::row(alloc, word, rest)? {
        Some(lines) => Ok(lines),
        None => bail!("no row: {word}"),
    }
}

fn main(rt: HostRuntime) -> Result<()> {
    let rows = input(&rt)?;
    let rows = std::str::from_utf8(rows.bytes()).context("the rows are no text")?;
    for row in rows.lines() {
        let lines = match word_of(row) {
            Some((word, rest)) => answer(rt.alloc(), word, rest).with_context(|| row)?,
            None => Text::empty(rt.alloc()),
        };
        print(&rt, row, &lines)?;
    }
    Ok(())
}
