// Rows, one a line.
use anyhow::Result;
use s80_base::Text;
use std::io::Read;

/// All that stands on standard input.
pub fn input<R: Input + AllocGlobal>(rt: &R) -> Result<Text> {
    let mut bytes = Vec::new(rt.alloc());
    rt.reader().read_to_end(&mut bytes)?;
    Ok(Text::from_bytes(rt.alloc(), &bytes)?)
}

/// A row's word, and what stands behind it. A row that is empty or begins with `#` is a heading, and has none.
pub fn word_of(row: &str) -> Option<(&str, &str)> {
    if row.is_empty() || row.starts_with('#') {
        return None;
    }
    Some(row.split_once(' ').unwrap_or((row, "")))
}

/// Prints a row, and behind it the lines that it is answered.
pub fn print<R: Print>(rt: &R, row: &str, lines: &Text) -> Result<()> {
    println!(rt; "{row}")?;
    for line in std::str::from_utf8(lines.bytes())?.lines() {
        println!(rt; "  {line}")?;
    }
    Ok(())
}
