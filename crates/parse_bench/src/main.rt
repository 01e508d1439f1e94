//! `parse_bench KIND TIMES`: parses the text on standard input so many times, and once more for the answer that it prints, so that
//! the parser can be timed. KIND is `doit` or `method`.
#![tactic(auto)]

mod input;
mod kind;

use anyhow::Result;
use input::{order, text};

fn main(rt: HostRuntime) -> Result<()> {
    let (kind, times) = order(&rt)?;
    let text = text(&rt)?;
    match kind.parse_again(rt.alloc(), &text, times) {
        Ok(()) => println!(rt; "tree")?,
        Err(fault) => println!(rt; "{fault}")?,
    }
    Ok(())
}
