// What the program is given: words and a text.
ghost use Rattle.std.specs.Prelude.{◌≤◌, IfOk, length};

use crate::kind::TextKind;
use anyhow::{Context, Result, bail, ensure};
use s80_base::Text;
use std::env;
use std::env::Env;
use std::io::Read;

/// The greatest length of a text.
const LONGEST: usize = 65_535;

/// What the words ask for: a kind, and how many times.
pub(crate) fn order<R: Env + AllocGlobal>(rt: &R) -> Result<(TextKind, u64)> {
    let mut words = env::args(rt)?.skip(1);
    let (Some(kind), Some(times), None) = (words.next(), words.next(), words.next()) else {
        bail!("usage: parse_bench doit|method TIMES");
    };
    let Some(kind) = TextKind::named(kind.as_str()) else {
        bail!("no kind of text: {kind}");
    };
    let times = times.parse().context("TIMES is no number")?;
    Ok((kind, times))
}

/// The text on standard input.
pub(crate) fn text<R: Input + AllocGlobal>(rt: &R) -> Result<Text>
    ensures { IfOk result (λ text. length text ≤ 65535) }
{
    let mut bytes = Vec::new(rt.alloc());
    rt.reader()
        .take(LONGEST as u64 + 1)
        .read_to_end(&mut bytes)?;
    ensure!(bytes.len() <= LONGEST, "a text has at most {LONGEST} bytes");
    Ok(Text::from_bytes(rt.alloc(), &bytes)?)
}
