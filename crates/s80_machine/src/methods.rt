// The methods that were activated.
ghost use Rattle.std.specs.Prelude.{◌≡◌, ◌<◌, ◌^◌, [], IfOk, OnOk, None, Some, MatchOption, drop, length, option_copied, slice_get};
ghost use Rattle.std.specs.Option.{option_map};
ghost use Rattle.s80_code.specs.Table.{decoded};
ghost use Rattle.s80_machine.specs.World.{doit, method};
ghost use Rattle.s80_machine.specs.Turn.{begins_block, holds_block};
ghost use Rattle.s80_machine.specs.Seen.{IsActivated, Method, Numbers, key_bytes, key_in, listing, place_in, side_byte};

use indexmap::IndexSet;
use s80_base::{OutOfMemory, Side, Text};
use s80_code::{BLOCK_COPY, Code, Instruction, decode};
use s80_verify::Verified;
use std::alloc::Global;
use std::marker::Model;
use std::mem;

/// A method that was activated, by the class and side that have it; a doIt has none.
#[derive(Clone, Copy, Debug)]
pub(crate) struct Activated<'a> {
    pub place: Option<(u32, Side)>,
    pub code: &'a Code,
    /// Whether its code holds a real block.
    pub holds_block: bool,
}

/// The methods by their numbers, in order of first activation. Contracts see where each stands, with its code.
#[derive(Debug, Drop)]
pub(crate) struct Methods<'a> {
    // Of a doIt empty; else its class and side in five bytes, and the selector.
    keys: IndexSet<Vec<u8>>,
    activated: Vec<Activated<'a>>,
    // Of each of them, what stands at each place of its code.
    listings: Vec<Vec<Option<(Instruction, u32)>>>,
    // Room for the key that is looked up. What it holds says nothing.
    room: Vec<u8>,
}

impl<'a> Model for Methods<'a> {
    ghost use Rattle.std.specs.Prelude.{List, map as list_map};
    ghost use Rattle.s80_machine.specs.Seen.{AreActivated, AreListed, Method, methods_of};
    ghost use Rattle.s80_base.specs.contracts.literal.Literal as literal;
    ghost use Rattle.std.specs.Coded.{codes};

    ghost Value = { List Method };

    ghost coded = { Prim.hlevel (codes, literal.the_row.coded) };

    ghost view = { λ m. methods_of (list_map (λ k. k.items) m.keys.keys) m.activated.items };

    ghost invariant = { λ m. AreActivated (list_map (λ k. k.items) m.keys.keys) m.activated.items
        × AreListed m.activated.items (list_map (λ l. l.items) m.listings.items) };
}

impl<'a> Methods<'a> {
    pub(crate) fn none(alloc: Global) -> Self
        ensures { result ≡ [] }
    {
        Methods {
            keys: IndexSet::new(alloc),
            activated: Vec::new(alloc),
            listings: Vec::new(alloc),
            room: Vec::new(alloc),
        }
    }

    pub(crate) fn get(&self, number: u32) -> Option<Activated<'a>>
        ensures { MatchOption result (slice_get self.now number ≡ None) (IsActivated (slice_get self.now number)) }
    {
        self.activated.get(number as usize).copied()
    }

    /// The instruction at a place of a method's code, and its width.
    pub(crate) fn instruction(&self, number: u32, place: u32) -> Option<&(Instruction, u32)>
        ensures { (m : Method) → slice_get self.now number ≡ Some m → option_copied result ≡ decoded (drop place m.code.bytes) }
    {
        self.listings
            .get(number as usize)?
            .get(place as usize)?
            .as_ref()
    }

    /// What stands at each place of a method's code.
    pub(crate) fn listing(&self, number: u32) -> Option<&[Option<(Instruction, u32)>]>
        ensures { option_copied result ≡ option_map (λ m. listing m.code.bytes) (slice_get self.now number) }
    {
        Some(self.listings.get(number as usize)?.as_slice())
    }

    /// The number of the doIt, which is added where it isn't there.
    pub(crate) fn number_of_doit(
        &mut self,
        alloc: Global,
        code: &'a Verified,
    ) -> Result<u32, OutOfMemory>
        ensures { IfOk result (Numbers doit code.now self.old self.new) }
    {
        let key = Vec::new(alloc);
        self.number_of_key(alloc, &key, None, code)
    }

    /// The number of a method, which is added where it isn't there. Where it is, its key takes the room of those before.
    pub(crate) fn number(
        &mut self,
        alloc: Global,
        class: u32,
        side: Side,
        selector: &Text,
        code: &'a Verified,
    ) -> Result<u32, OutOfMemory>
        ensures { IfOk result (Numbers (method class side selector.now) code.now self.old self.new) }
    {
        let mut key = mem::replace(&mut self.room, Vec::new(alloc));
        write_key(&mut key, class, side, selector)?;
        let number = self.number_of_key(alloc, &key, Some((class, side)), code);
        self.room = key;
        number
    }

    fn number_of_key(
        &mut self,
        alloc: Global,
        key: &[u8],
        place: Option<(u32, Side)>,
        code: &'a Verified,
    ) -> Result<u32, OutOfMemory>
        requires key { key_bytes (key_in key.now) ≡ key.now }
        requires place { place ≡ place_in (key_in key.now) }
        ensures { IfOk result (Numbers (key_in key.now) code.now self.old self.new) }
    {
        if let Some(number) = self.keys.get_index_of(key) {
            return Ok(number as u32);
        }
        let Ok(number) = u32::try_from(self.keys.len()) else {
            return Err(OutOfMemory);
        };
        let code = code.code();
        let kept = key.to_vec(alloc)?;
        let listing = listing_of(alloc, code)?;
        self.activated.reserve(1)?;
        self.listings.reserve(1)?;
        self.keys.insert(kept)?;
        self.listings.push_reserved(listing);
        self.activated.push_reserved(Activated {
            place,
            code,
            holds_block: holds_block(code),
        });
        Ok(number)
    }
}

// What stands at each place of a code.
fn listing_of(alloc: Global, code: &Code) -> Result<Vec<Option<(Instruction, u32)>>, OutOfMemory>
    requires { length code.now.bytes < 2 ^ 32 }
    ensures { IfOk result (λ items. items.items ≡ listing code.now.bytes) }
{
    let mut listing = Vec::new(alloc);
    for at in 0..code.bytes.bytes().len() {
        listing.push(decode(code, at as u32))?;
    }
    Ok(listing)
}

// Writes where a method stands, as bytes, in the place of what was there.
fn write_key(key: &mut Vec<u8>, class: u32, side: Side, selector: &Text) -> Result<(), OutOfMemory>
    ensures { OnOk result (key.new.items ≡ key_bytes (method class side selector.now)) }
{
    key.clear();
    key.push(side_byte(side))?;
    key.extend_from_slice(&class.to_be_bytes())?;
    key.extend_from_slice(selector.bytes())?;
    Ok(())
}

fn side_byte(side: Side) -> u8
    ensures { result ≡ side_byte side }
{
    match side {
        Side::Instance => 0,
        Side::Class => 1,
    }
}

// Whether a real block begins at one of the instructions from the first byte on.
fn holds_block(code: &Code) -> bool
    requires { length code.now.bytes < 2 ^ 32 }
    ensures { result ≡ holds_block code.now }
{
    let mut at = 0;
    for _ in 0..code.bytes.bytes().len() {
        let Some((instruction, width)) = decode(code, at) else {
            return false;
        };
        if begins_block(instruction) {
            return true;
        }
        at += width;
    }
    false
}

fn begins_block(instruction: Instruction) -> bool
    ensures { result ≡ begins_block instruction }
{
    matches!(instruction, Instruction::SendSpecial(BLOCK_COPY))
}
