//! Reads rows from standard input and prints behind each what the image of a list of changes is, and what becomes of it where its bytes are changed.
//! What it is given and what it prints are tables of the repository's tests.
#![tactic(auto)]

mod edited;
mod images;
mod resumed;

use anyhow::{Context, Result, bail};
use s80_base::Text;
use s80_rows::{input, print, word_of};
use std::alloc::Global;

/// What a row shows.
fn answer(alloc: Global, word: &str, rest: &str) -> Result<Text> {
    match word {
        "head" => images::head(alloc, rest),
        "tail" => images::tail(alloc, rest),
        "from" => images::from(alloc, rest),
        "read" => edited::read(alloc, rest),
        "cut" => edited::cut(alloc, rest),
        "less" => edited::less(alloc, rest),
        "put" => edited::put(alloc, rest),
        "each" => edited::each(alloc, rest),
        "nested" => edited::nested(alloc, rest),
        _ => bail!("no row: {word}"),
    }
}

fn main(rt: HostRuntime) -> Result<()> {
    let rows = input(&rt)?;
    let rows = std::str::from_utf8(rows.bytes()).context("the rows are no text")?;
    for row in rows.lines() {
        let lines = match word_of(row) {
            Some((word, rest)) => answer(rt.alloc(), word, rest).with_context(|| row)?,
            None => Text::empty(rt.alloc()),
        };
        print(&rt, row, &lines)?;
    }
    Ok(())
}
