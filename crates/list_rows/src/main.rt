//! Reads rows from standard input and prints behind each the text of a file of changes, the shortest list that makes the state of a list of
//! changes, what a file of one class has, which methods send a message, implement it or refer to a name behind changes, or where two sets of
//! changes are in conflict, and what they make together. What it is given and what it prints are tables of the repository's tests.
#![tactic(auto)]

mod links;
mod lists;
mod merging;
mod systems;

use anyhow::{Context, Result, bail};
use links::Asked;
use s80_base::Text;
use s80_rows::{input, print, word_of};
use std::alloc::Global;

/// What a row shows.
fn answer(alloc: Global, word: &str, rest: &str) -> Result<Text> {
    match word {
        "file" => lists::file(alloc, rest),
        "file_on" => lists::file_on(alloc, rest),
        "filed_on" => lists::filed_on(alloc, rest),
        "shortest" => lists::shortest(alloc, rest),
        "senders" => links::of_word(alloc, Asked::Senders, rest),
        "implementors" => links::of_word(alloc, Asked::Implementors, rest),
        "references" => links::of_word(alloc, Asked::References, rest),
        "undeclared" => links::of_all(alloc, Asked::Undeclared, rest),
        "unimplemented" => links::of_all(alloc, Asked::Unimplemented, rest),
        "unsent" => links::of_all(alloc, Asked::Unsent, rest),
        "conflicts" => merging::conflicts(alloc, rest),
        "merged" => merging::merged(alloc, rest),
        _ => bail!("no row: {word}"),
    }
}

fn main(rt: HostRuntime) -> Result<()> {
    let rows = input(&rt)?;
    let rows = std::str::from_utf8(rows.bytes()).context("the rows are no text")?;
    for row in rows.lines() {
        let lines = match word_of(row) {
            Some((word, rest)) => answer(rt.alloc(), word, rest).with_context(|| row)?,
            None => Text::empty(rt.alloc()),
        };
        print(&rt, row, &lines)?;
    }
    Ok(())
}
