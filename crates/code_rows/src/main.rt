//! Reads rows from standard input and prints behind each what the public calls answer to it: instructions, compiled methods and doIts, and
//! what can be run. What it is given and what it prints are tables of the repository's tests.
#![tactic(auto)]

mod compiled;
mod decoded;
mod spelled;

use anyhow::{Context, Result, bail};
use s80_base::Text;
use s80_lex::parameters_of;
use s80_rows::{input, print, word_of};
use s80_verify::verify;
use std::alloc::Global;

/// What a row shows.
fn answer(alloc: Global, word: &str, rest: &str) -> Result<Text> {
    match word {
        "decode" => decoded::at_place(alloc, rest),
        "sixteen" => decoded::sixteen(alloc, rest),
        "disassemble" => decoded::listing(alloc, rest),
        "verify" => verdict(alloc, rest),
        "parameters" => parameters(alloc, rest),
        "shape" => compiled::shape(alloc, rest),
        "compile" => compiled::method_bytes(alloc, rest),
        "compile-header" => compiled::method_header(alloc, rest),
        "compile-doit" => compiled::doit_bytes(alloc, rest),
        "compile-size" => compiled::doit_size(alloc, rest),
        _ => bail!("no row: {word}"),
    }
}

/// Whether a code can be run, or why not.
fn verdict(alloc: Global, spelled: &str) -> Result<Text> {
    match verify(spelled::code(alloc, spelled)?) {
        Ok(_) => Ok(Text::from_bytes(alloc, b"ok")?),
        Err(fault) => {
            let told = format!(in alloc; "{fault}")?;
            Ok(Text::from_bytes(alloc, told.as_bytes())?)
        }
    }
}

/// How many parameters a selector has.
fn parameters(alloc: Global, selector: &str) -> Result<Text> {
    match parameters_of(selector.as_bytes()) {
        Some(count) => {
            let told = format!(in alloc; "{count}")?;
            Ok(Text::from_bytes(alloc, told.as_bytes())?)
        }
        None => Ok(Text::from_bytes(alloc, b"no selector")?),
    }
}

fn main(rt: HostRuntime) -> Result<()> {
    let rows = input(&rt)?;
    let rows = std::str::from_utf8(rows.bytes()).context("the rows are no text")?;
    for row in rows.lines() {
        let lines = match word_of(row) {
            Some((word, rest)) => answer(rt.alloc(), word, rest).with_context(|| row)?,
            None => Text::empty(rt.alloc()),
        };
        print(&rt, row, &lines)?;
    }
    Ok(())
}
