// The bytes of one file in memory, in the room that was taken for them.
ghost use Rattle.std.specs.Prelude.{◌≡◌, ◌+◌, ◌≤◌, ◌++◌, length, vec_capacity, IfOk};
ghost use Rattle.s80_disk.specs.Five.{filled, overwritten};
ghost use Rattle.s80_disk.specs.Crash.{any_byte, Scattered};

use std::alloc::{AllocError, Global};

/// Adds bytes at the end.
pub(crate) fn append(bytes: &mut Vec<u8>, more: &[u8])
    requires { length bytes.old.items + length more.now ≤ vec_capacity bytes.old }
    ensures items { bytes.new.items ≡ bytes.old.items ++ more.now }
    ensures room { vec_capacity bytes.old ≤ vec_capacity bytes.new }
{
    match bytes.extend_from_slice(more) {
        Ok(()) => {}
        Err(_) => unreachable!(),
    }
}

/// A copy with room for more.
pub(crate) fn roomy_copy(alloc: Global, bytes: &[u8], room: usize) -> Result<Vec<u8>, AllocError>
    requires { length bytes.now ≤ room }
    ensures items { IfOk result (λ copy. copy.items ≡ bytes.now) }
    ensures room { IfOk result (λ copy. room ≤ vec_capacity copy) }
{
    let mut copy = Vec::with_capacity(alloc, room)?;
    append(&mut copy, bytes);
    Ok(copy)
}

/// Fills up with zeros.
fn fill_to(bytes: &mut Vec<u8>, length: usize)
    requires { length ≤ vec_capacity bytes.old }
    ensures items { bytes.new.items ≡ filled length bytes.old.items }
    ensures room { vec_capacity bytes.old ≤ vec_capacity bytes.new }
{
    if bytes.len() < length {
        match bytes.resize(length, 0) {
            Ok(()) => {}
            Err(_) => unreachable!(),
        }
    }
}

/// Writes a piece over what is there and past the end.
pub(crate) fn overwrite(bytes: &mut Vec<u8>, at: usize, piece: &[u8])
    requires { at + length piece.now ≤ vec_capacity bytes.old }
    ensures items { bytes.new.items ≡ overwritten at piece.now bytes.old.items }
    ensures room { vec_capacity bytes.old ≤ vec_capacity bytes.new }
{
    fill_to(bytes, at);
    let inside = piece.len().min(bytes.len() - at);
    bytes[at..at + inside].copy_from_slice(&piece[..inside]);
    append(bytes, &piece[inside..]);
}

fn any_byte(choice: u64, place: usize) -> u8
    ensures { result ≡ any_byte choice place }
{
    ((u128::from(choice) + place as u128) % 256) as u8
}

/// Puts the choice's bytes from a place, or from the end if that is before it, up to another place.
pub(crate) fn scatter(bytes: &mut Vec<u8>, from: usize, to: usize, choice: u64)
    requires { to ≤ vec_capacity bytes.old }
    ensures scattered { Scattered choice from to bytes.old.items bytes.new.items }
    ensures room { vec_capacity bytes.old ≤ vec_capacity bytes.new }
{
    let start = from.min(bytes.len());
    fill_to(bytes, to);
    for place in start..to {
        bytes[place] = any_byte(choice, place);
    }
}
