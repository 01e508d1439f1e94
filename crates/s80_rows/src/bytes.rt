// Bytes as rows spell them: `\n`, `\r`, `\t`, `\f`, `\\` and `\xHH`, `\{N:PART\}` for a part so many times, and each other character by
// itself.
use anyhow::{Context, Result, bail};
use s80_base::{OutOfMemory, Text};
use std::alloc::Global;

/// The value of a hexadecimal digit.
pub fn digit(byte: u8) -> Option<u8> {
    match byte {
        b'0'..=b'9' => Some(byte - b'0'),
        b'A'..=b'F' => Some(byte - b'A' + 10),
        b'a'..=b'f' => Some(byte - b'a' + 10),
        _ => None,
    }
}

/// The byte that an escape spells behind its `\`, and what stands behind it.
fn escaped(rest: &[u8]) -> Option<(u8, &[u8])> {
    match rest {
        [b'n', behind @ ..] => Some((b'\n', behind)),
        [b'r', behind @ ..] => Some((b'\r', behind)),
        [b't', behind @ ..] => Some((b'\t', behind)),
        [b'f', behind @ ..] => Some((b'\x0c', behind)),
        [b'\\', behind @ ..] => Some((b'\\', behind)),
        [b'x', high, low, behind @ ..] => {
            let value = digit(*high)?.checked_mul(16)?.checked_add(digit(*low)?)?;
            Some((value, behind))
        }
        _ => None,
    }
}

/// The bytes that a row spells.
pub fn read(alloc: Global, spelled: &str) -> Result<Text> {
    let mut bytes = Vec::new(alloc);
    let mut pieces = spelled.split("\\{");
    add(&mut bytes, pieces.next().unwrap_or(""))?;
    for piece in pieces {
        let (repeated, behind) = piece.split_once("\\}").context("no end of a part")?;
        let (count, part) = repeated.split_once(':').context("no count of a part")?;
        let count: u64 = count.parse().with_context(|| count)?;
        for _ in 0..count {
            add(&mut bytes, part)?;
        }
        add(&mut bytes, behind)?;
    }
    Ok(Text::from_vec(bytes))
}

/// Appends the bytes that a row spells without repeated parts.
fn add(bytes: &mut Vec<u8>, spelled: &str) -> Result<()> {
    let mut rest = spelled.as_bytes();
    for _ in 0..spelled.len() {
        match rest {
            [] => break,
            [b'\\', behind @ ..] => {
                let Some((byte, behind)) = escaped(behind) else {
                    bail!("no escape: {spelled}");
                };
                bytes.push(byte)?;
                rest = behind;
            }
            [byte, behind @ ..] => {
                bytes.push(*byte)?;
                rest = behind;
            }
        }
    }
    Ok(())
}

/// Appends bytes as rows spell them.
pub fn spell(alloc: Global, out: &mut Text, bytes: &[u8]) -> Result<(), OutOfMemory> {
    for byte in bytes {
        match byte {
            b'\n' => out.append(b"\\n")?,
            b'\r' => out.append(b"\\r")?,
            b'\t' => out.append(b"\\t")?,
            b'\\' => out.append(b"\\\\")?,
            b' '..=b'~' => out.append(&[*byte])?,
            _ => out.append(format!(in alloc; "\\x{byte:02X}")?.as_bytes())?,
        }
    }
    Ok(())
}
