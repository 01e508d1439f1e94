// Code as rows spell it: its header, a colon, the entries of its frame, a bar, and its bytes in hexadecimal.
use anyhow::{Context, Result, bail};
use s80_base::{Literal, OutOfMemory, Side, Text};
use s80_code::{Code, Entry, Frame};
use s80_rows::bytes::digit;
use std::alloc::Global;

/// The byte of two hexadecimal digits.
fn byte_of(digits: &[u8]) -> Option<u8> {
    let [high, low] = digits else {
        return None;
    };
    digit(*high)?.checked_mul(16)?.checked_add(digit(*low)?)
}

/// Appends the bytes of hexadecimal digits.
fn add_bytes(bytes: &mut Text, digits: &str) -> Result<()> {
    for pair in digits.as_bytes().chunks(2) {
        let byte = byte_of(pair).with_context(|| digits)?;
        bytes.append(&[byte])?;
    }
    Ok(())
}

/// The bytes of words in hexadecimal. `511x7087` stands for 511 times the bytes 70 and 87.
pub(crate) fn bytes(alloc: Global, spelled: &str) -> Result<Text> {
    let mut bytes = Text::empty(alloc);
    for word in spelled.split_whitespace() {
        let (count, digits) = word.split_once('x').unwrap_or(("1", word));
        let count: u32 = count.parse().with_context(|| word)?;
        for _ in 0..count {
            add_bytes(&mut bytes, digits)?;
        }
    }
    Ok(bytes)
}

/// The code of a spelling.
pub(crate) fn code(alloc: Global, spelled: &str) -> Result<Code> {
    let (front, hexadecimal) = spelled.split_once('|').context("no bytes")?;
    let (header, entries) = front.split_once(':').context("no frame")?;
    let mut fields = Vec::new(alloc);
    for field in header.split_whitespace() {
        fields.push(field)?;
    }
    let [flag, arguments, primitive, temporaries, size] = fields.as_slice() else {
        bail!("a header has five fields");
    };
    let mut literals = Frame::empty(alloc);
    for entry in entries.split_whitespace() {
        literals.push(entry_of(alloc, entry)?)?;
    }
    Ok(Code {
        flag: flag.parse()?,
        arguments: arguments.parse()?,
        primitive: primitive.parse()?,
        temporaries: temporaries.parse()?,
        large: *size == "large",
        literals,
        bytes: bytes(alloc, hexadecimal)?,
    })
}

/// The entry of a frame that a word spells.
fn entry_of(alloc: Global, word: &str) -> Result<Entry> {
    if let Some(number) = word.strip_prefix("extension:") {
        return Ok(Entry::Extension(number.parse()?));
    }
    if let Some(owner) = word.strip_prefix("owner:") {
        return Ok(owner_of(alloc, owner)?);
    }
    if let Some(symbol) = word.strip_prefix("#") {
        return Ok(Entry::Const(Literal::Symbol(text(alloc, symbol)?)));
    }
    if let Ok(number) = word.parse::<i32>() {
        return Ok(Entry::Const(Literal::Small(number)));
    }
    if let Some((class, name)) = word.split_once('.') {
        return Ok(Entry::ClassVar(text(alloc, class)?, text(alloc, name)?));
    }
    Ok(Entry::Outer(text(alloc, word)?))
}

/// The owner that a word spells, as `A` or `A:class`.
fn owner_of(alloc: Global, word: &str) -> Result<Entry, OutOfMemory> {
    match word.strip_suffix(":class") {
        Some(class) => Ok(Entry::Owner(text(alloc, class)?, Side::Class)),
        None => Ok(Entry::Owner(text(alloc, word)?, Side::Instance)),
    }
}

fn text(alloc: Global, word: &str) -> Result<Text, OutOfMemory> {
    Text::from_bytes(alloc, word.as_bytes())
}

/// Bytes in hexadecimal, parted by spaces.
pub(crate) fn in_hexadecimal(alloc: Global, bytes: &[u8]) -> Result<Text, OutOfMemory> {
    let mut out = Text::empty(alloc);
    for (i, byte) in bytes.iter().enumerate() {
        if i > 0 {
            out.append(b" ")?;
        }
        out.append(format!(in alloc; "{byte:02X}")?.as_bytes())?;
    }
    Ok(out)
}

/// Flag, arguments, primitive, temporaries, size and frame.
pub(crate) fn header(alloc: Global, code: &Code) -> Result<Text, OutOfMemory> {
    let (flag, arguments) = (code.flag, code.arguments);
    let (primitive, temporaries) = (code.primitive, code.temporaries);
    let size = size_word(code);
    let mut out = Text::empty(alloc);
    let line = format!(in alloc; "{flag} {arguments} {primitive} {temporaries} {size}:")?;
    out.append(line.as_bytes())?;
    for i in 0..code.literals.count() {
        out.append(b" ")?;
        add_entry(alloc, &mut out, code.literals.at(i))?;
    }
    Ok(out)
}

pub(crate) fn size_word(code: &Code) -> &'static str {
    if code.large { "large" } else { "small" }
}

/// Appends the word of an entry.
fn add_entry(alloc: Global, out: &mut Text, entry: &Entry) -> Result<(), OutOfMemory> {
    match entry {
        Entry::Const(Literal::Small(number)) => {
            out.append(format!(in alloc; "{number}")?.as_bytes())
        }
        Entry::Const(Literal::Symbol(symbol)) => {
            out.append(b"#")?;
            out.append(symbol.bytes())
        }
        Entry::Const(_) => out.append(b"constant"),
        Entry::ClassVar(class, name) => {
            out.append(class.bytes())?;
            out.append(b".")?;
            out.append(name.bytes())
        }
        Entry::Outer(name) => out.append(name.bytes()),
        Entry::Owner(class, side) => {
            out.append(b"owner:")?;
            out.append(class.bytes())?;
            out.append(if *side == Side::Class { b":class" } else { b"" })
        }
        Entry::Extension(number) => {
            out.append(format!(in alloc; "extension:{number}")?.as_bytes())
        }
    }
}
