// Where the instructions of a code stand.
ghost use Rattle.std.specs.Prelude.{◌<◌, ◌↔◌, IsTrue, length};
ghost use Rattle.s80_verify.specs.Reach.{IsPlace, IsInstruction};
ghost use Rattle.s80_verify.specs.Found.{ArePlaces, IsBefore};

use s80_code::{Code, decode};

/// One more than the greatest number of bytes.
pub(crate) const PLACES: usize = 1024;

/// For each place, where the instruction stands that ends there.
#[derive(Drop)]
pub(crate) struct Places {
    pub before: [Option<u32>; PLACES],
}

/// The places of a code.
pub(crate) fn places_of(code: &Code) -> Places
    requires { length code.now.bytes < 1024 }
    ensures { ArePlaces code.now.bytes result.before }
{
    let mut before = [None; PLACES];
    let mut at = 0;
    while let Some((_, width)) = decode(code, at) {
        let next = at + width;
        before[next as usize] = Some(at);
        at = next;
    }
    Places { before }
}

impl Places {
    /// Where the instruction stands that ends at a place.
    pub fn before(&self, at: u32) -> Option<u32>
        ensures { IsBefore self.now.before at result }
    {
        *self.before.get(at as usize)?
    }

    /// Whether instructions lead from the beginning to a place.
    fn is_place(&self, code: &Code, at: u32) -> bool
        requires { ArePlaces code.now.bytes self.now.before }
        ensures { IsTrue result ↔ IsPlace code.now.bytes at }
    {
        if at == 0 {
            return true;
        }
        match self.before(at) {
            Some(_) => true,
            None => false,
        }
    }

    /// Whether an instruction of the code stands at a place.
    pub fn has_instruction(&self, code: &Code, at: u32) -> bool
        requires short { length code.now.bytes < 1024 }
        requires places { ArePlaces code.now.bytes self.now.before }
        ensures { IsTrue result ↔ IsInstruction code.now.bytes at }
    {
        if !self.is_place(code, at) {
            return false;
        }
        match decode(code, at) {
            Some(_) => true,
            None => false,
        }
    }
}
