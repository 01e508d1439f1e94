//! Reads rows from standard input and prints behind each what the public calls answer to it: runs of the whole program over disks that fail,
//! what is found after crashes, and what the disk over real files asks of the system. What it is given and what it prints are tables of
//! the repository's tests.
#![tactic(auto)]

mod disks;
mod keepers;
mod stops;
mod sweeps;
mod system;
mod trial;

use anyhow::{Context, Result};
use s80_base::Text;
use s80_rows::{input, print, word_of};
use trial::Trial;

fn main(rt: HostRuntime) -> Result<()> {
    let rows = input(&rt)?;
    let rows = std::str::from_utf8(rows.bytes()).context("the rows are no text")?;
    let mut trial = Trial::new(rt.alloc())?;
    for row in rows.lines() {
        let lines = match word_of(row) {
            Some((word, rest)) => trial.row(rt.alloc(), word, rest).with_context(|| row)?,
            None => Text::empty(rt.alloc()),
        };
        print(&rt, row, &lines)?;
    }
    Ok(())
}
