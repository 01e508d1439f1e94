// Single fields, read from the front of bytes.
ghost use Rattle.std.specs.Prelude.{◌≡◌, ◌≤◌, length, nat_le, IfOk};
ghost use Rattle.s80_image.specs.Format.{Gives, byte, number_where, text, word32, word64};

use crate::fault::{Fault, ReadError};
use s80_base::Text;
use std::alloc::Global;

/// A field that begins where these bytes are left has an unlawful value.
pub(crate) fn unlawful(bytes: &[u8], value: u64) -> ReadError
    ensures { result ≡ ReadError.Fault (Fault.Field (length bytes.now) value) }
{
    ReadError::Fault(Fault::Field(bytes.len() as u64, value))
}

pub(crate) fn byte(bytes: &[u8]) -> Result<(u8, &[u8]), ReadError>
    ensures { Gives (λ x. (x.0, x.1.now)) result (byte.read bytes.now) }
{
    match bytes {
        [] => Err(ReadError::Fault(Fault::Short)),
        [byte, rest @ ..] => Ok((*byte, rest)),
    }
}

/// A byte that is at most this one.
pub(crate) fn byte_to(most: u8, bytes: &[u8]) -> Result<(u8, &[u8]), ReadError>
    ensures { Gives (λ x. (x.0, x.1.now)) result ((number_where (λ n. nat_le n most) byte).read bytes.now) }
{
    let (value, rest) = byte(bytes)?;
    if value > most {
        return Err(unlawful(bytes, u64::from(value)));
    }
    Ok((value, rest))
}

pub(crate) fn word32(bytes: &[u8]) -> Result<(u32, &[u8]), ReadError>
    ensures { Gives (λ x. (x.0, x.1.now)) result (word32.read bytes.now) }
{
    if bytes.len() < 4 {
        return Err(ReadError::Fault(Fault::Short));
    }
    let (front, rest) = bytes.split_at(4);
    let number = u32::from_be_bytes([front[0], front[1], front[2], front[3]]);
    Ok((number, rest))
}

pub(crate) fn word64(bytes: &[u8]) -> Result<(u64, &[u8]), ReadError>
    ensures { Gives (λ x. (x.0, x.1.now)) result (word64.read bytes.now) }
{
    if bytes.len() < 8 {
        return Err(ReadError::Fault(Fault::Short));
    }
    let (front, rest) = bytes.split_at(8);
    let number = u64::from_be_bytes([
        front[0], front[1], front[2], front[3], front[4], front[5], front[6], front[7],
    ]);
    Ok((number, rest))
}

/// The bytes of a text, and those behind it.
pub(crate) fn text_bytes(bytes: &[u8]) -> Result<(&[u8], &[u8]), ReadError>
    ensures given { Gives (λ x. (x.0.now, x.1.now)) result (text.read bytes.now) }
    ensures shorter { IfOk result (λ x. length x.1.now ≤ length bytes.now) }
{
    let (length, rest) = word32(bytes)?;
    let length = length as usize;
    if rest.len() < length {
        return Err(ReadError::Fault(Fault::Short));
    }
    Ok(rest.split_at(length))
}

pub(crate) fn text(alloc: Global, bytes: &[u8]) -> Result<(Text, &[u8]), ReadError>
    ensures given { Gives (λ x. (x.0, x.1.now)) result (text.read bytes.now) }
    ensures shorter { IfOk result (λ x. length x.1.now ≤ length bytes.now) }
{
    let (text, rest) = text_bytes(bytes)?;
    Ok((Text::from_bytes(alloc, text)?, rest))
}
