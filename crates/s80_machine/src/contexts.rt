// The activations that are alive.
ghost use Rattle.std.specs.Prelude.{◌≡◌, ◌+◌, ◌<◌, ◌≤◌, ◌∷◌, [], ℕ, List, IfOk, IfSome, OnOk, get_or, length, option_copied, reverse, slice_get, take, vec_capacity, vec_len};
ghost use Rattle.std.specs.Option.{option_map};
ghost use Rattle.s80_code.specs.declared.code.Code.{Code};
ghost use Rattle.s80_machine.specs.Counted.{count_of, one_of};
ghost use Rattle.s80_machine.specs.Seen.{Does, IsEnded, IsUnwound, below_home, message_taken, moved, popped, pushed, temporary_set, topped};
ghost use Rattle.s80_machine.specs.Seen.{Given, listing};
ghost use Rattle.s80_machine.specs.Quick.{IsQuick};
ghost use Rattle.s80_machine.specs.Stretch.{LeadsFar, local};
ghost use Rattle.s80_machine.specs.Turn.{is_active, Context as Active};

use crate::context::{Activation, Context};
use crate::halt::Halt;
use crate::quick::Quick;
use s80_base::OutOfMemory;
use s80_code::Instruction;
use s80_object::{Objects, Value};
use s80_prims::Stop;
use std::alloc::Global;
use std::marker::Model;

/// The activations that are alive. Contracts see them with the active one first. No call takes longer where more are alive, but for `end_to_home`,
/// which ends them one by one.
#[derive(Debug, Drop)]
pub(crate) struct Contexts {
    // The last is the active one.
    contexts: Vec<Context>,
    // How many of them are of each block, at the number of its object. A block past the end has none.
    counts: Vec<u32>,
    // Room that ended activations left, for arguments and stacks. What it holds says nothing.
    rooms: Vec<Vec<Value>>,
}

impl Model for Contexts {
    ghost use Rattle.std.specs.Prelude.{List, reverse};
    ghost use Rattle.s80_machine.specs.Turn.{Context as Active};
    ghost use Rattle.s80_machine.specs.Counted.{AreCounted};

    ghost Value = { List Active };

    ghost view = { λ c. reverse c.contexts.items };

    ghost invariant = { λ c. AreCounted c.counts.items c.contexts.items };
}

impl Contexts {
    pub(crate) fn none(alloc: Global) -> Self
        ensures { result ≡ [] }
    {
        Contexts {
            contexts: Vec::new(alloc),
            counts: Vec::new(alloc),
            rooms: Vec::new(alloc),
        }
    }

    pub(crate) fn count(&self) -> usize
        ensures { result ≡ length self.now }
    {
        self.contexts.len()
    }

    /// The active context.
    pub(crate) fn active(&self) -> Option<&Context>
        ensures { option_copied result ≡ slice_get self.now 0 }
    {
        self.contexts.last()
    }

    /// Begins an activation, which becomes the active one.
    #[inline(always)]
    pub(crate) fn begin(&mut self, context: Context) -> Result<(), OutOfMemory>
        ensures { OnOk result (self.new ≡ context ∷ self.old) }
    {
        let Some(block) = context.block() else {
            make_room(&mut self.contexts)?;
            self.contexts.push_reserved(context);
            return Ok(());
        };
        let count = raised_count(&mut self.counts, block)?;
        make_room(&mut self.contexts)?;
        self.contexts.push_reserved(context);
        self.counts[block as usize] = count;
        Ok(())
    }

    /// Pushes a value on the stack of the active context.
    #[inline(always)]
    pub(crate) fn push(&mut self, value: Value) -> Result<(), Halt>
        ensures { Does (λ done. done) (pushed value) self.old self.new result }
    {
        let Some(active) = self.contexts.last_mut() else {
            return Err(Halt::Stuck);
        };
        active.push(value)
    }

    #[inline(always)]
    pub(crate) fn pop(&mut self) -> Result<Value, Halt>
        ensures { Does (λ v. v) popped self.old self.new result }
    {
        let Some(active) = self.contexts.last_mut() else {
            return Err(Halt::Stuck);
        };
        active.pop()
    }

    /// The top of the stack, which stays.
    #[inline(always)]
    pub(crate) fn top(&self) -> Result<Value, Halt>
        ensures { Does (λ v. v) topped self.now self.now result }
    {
        let Some(active) = self.contexts.last() else {
            return Err(Halt::Stuck);
        };
        active.top()
    }

    /// Takes so many arguments off the stack, of which the last is on top, and the receiver below them.
    #[inline(always)]
    pub(crate) fn take_message(
        &mut self,
        alloc: Global,
        count: u8,
    ) -> Result<(Value, Vec<Value>), Halt>
        ensures { Does (λ p. (p.0, p.1.items)) (message_taken count) self.old self.new result }
    {
        let Some(active) = self.contexts.last_mut() else {
            return Err(Halt::Stuck);
        };
        active.take_message(take_room(&mut self.rooms, alloc), count)
    }

    /// Pushes the answer to a message whose arguments were taken, and keeps their room.
    pub(crate) fn answer(&mut self, arguments: Vec<Value>, value: Value) -> Result<(), Halt>
        ensures { Does (λ done. done) (pushed value) self.old self.new result }
    {
        keep_room(&mut self.rooms, arguments);
        self.push(value)
    }

    /// Room for the stack of an activation.
    #[inline(always)]
    pub(crate) fn take_room(&mut self, alloc: Global) -> Vec<Value>
        ensures empty { result.items ≡ [] }
        ensures same { self.new ≡ self.old }
    {
        take_room(&mut self.rooms, alloc)
    }

    /// The active context goes on at this place.
    #[inline(always)]
    pub(crate) fn move_to(&mut self, place: u32) -> Result<(), Halt>
        ensures { Does (λ done. done) (moved place) self.old self.new result }
    {
        let Some(active) = self.contexts.last_mut() else {
            return Err(Halt::Stuck);
        };
        active.move_to(place)
    }

    /// Sets a temporary that the active context keeps itself.
    pub(crate) fn set_temporary(&mut self, i: u8, value: Value) -> Result<(), Halt>
        ensures { Does (λ done. done) (temporary_set i value) self.old self.new result }
    {
        let Some(active) = self.contexts.last_mut() else {
            return Err(Halt::Stuck);
        };
        active.set_temporary(i, value)
    }

    /// The active context goes on through the instructions of its code, which these entries list, up to one that needs more.
    #[inline(always)]
    pub(crate) fn go_on(
        &mut self,
        quick: &Quick,
        entries: &[Option<(Instruction, u32)>],
        objects: &mut Objects,
        ticks: &mut u64,
    )
        ensures { (on : Given) (code : Code) (c : Active) (rest : List Active) → IsQuick on quick.now → entries.now ≡ listing code.bytes → self.old ≡ c ∷ rest
            → (new : Active) × (self.new ≡ new ∷ rest) × ((n : ℕ) × LeadsFar on code n (local c objects.old ticks.old) (local new objects.new ticks.new)) }
    {
        let Some(active) = self.contexts.last_mut() else {
            return;
        };
        active.go_on(quick, entries, objects, ticks);
    }

    /// Ends the active context, and keeps its room.
    #[inline(always)]
    pub(crate) fn end(&mut self) -> Result<(), Halt>
        ensures { IsEnded self.old self.new result }
    {
        match self.contexts.pop() {
            Some(ended) => {
                take_off(&mut self.counts, &ended);
                keep_rooms(&mut self.rooms, ended);
                Ok(())
            }
            None => Err(Halt::Stuck),
        }
    }

    /// Ends all contexts down to the activation that has this home, and that one too.
    pub(crate) fn end_to_home(&mut self, alloc: Global, home: u32) -> Result<(), Halt>
        ensures { IsUnwound (below_home home self.old) self.old self.new result }
    {
        let Some(place) = place_of_home(&self.contexts, home) else {
            return Err(Halt::stop(alloc, Stop::CannotReturn));
        };
        take_all_off(&mut self.counts, &self.contexts[place..]);
        end_from(&mut self.contexts, place, &mut self.rooms);
        Ok(())
    }

    /// Whether a block is active, by its object.
    pub(crate) fn is_active(&self, block: u32) -> bool
        ensures { result ≡ is_active block self.now }
    {
        count_at(&self.counts, block) > 0
    }
}

// Makes room for one more activation, where there is none.
#[inline(always)]
fn make_room(contexts: &mut Vec<Context>) -> Result<(), OutOfMemory>
    ensures items { contexts.new.items ≡ contexts.old.items }
    ensures room { OnOk result (vec_len contexts.new < vec_capacity contexts.new) }
{
    if contexts.len() < contexts.capacity() {
        return Ok(());
    }
    contexts.reserve(1)?;
    Ok(())
}

// Room that is there, or what grows into one.
#[inline(always)]
fn take_room(rooms: &mut Vec<Vec<Value>>, alloc: Global) -> Vec<Value>
    ensures { result.items ≡ [] }
{
    match rooms.pop() {
        Some(room) => emptied(room),
        None => Vec::new(alloc),
    }
}

/// The same room with nothing in it.
#[inline(always)]
pub(crate) fn emptied(mut room: Vec<Value>) -> Vec<Value>
    ensures { result.items ≡ [] }
{
    room.clear();
    room
}

// Keeps a room for others. When out of memory, it is let go.
#[inline(always)]
fn keep_room(rooms: &mut Vec<Vec<Value>>, room: Vec<Value>) {
    if rooms.len() < rooms.capacity() {
        rooms.push_reserved(room);
    } else {
        let _ = rooms.push(room);
    }
}

// Keeps the rooms of an activation. That of its temporaries, which were arguments, is taken first again.
#[inline(always)]
fn keep_rooms(rooms: &mut Vec<Vec<Value>>, ended: Context) {
    keep_room(rooms, ended.stack);
    if let Activation::Own(temporaries) = ended.activation {
        keep_room(rooms, temporaries);
    }
}

// Ends all activations from a place on, and keeps their rooms.
fn end_from(contexts: &mut Vec<Context>, place: usize, rooms: &mut Vec<Vec<Value>>)
    ensures { contexts.new.items ≡ take place contexts.old.items }
{
    while contexts.len() > place {
        if let Some(ended) = contexts.pop() {
            keep_rooms(rooms, ended);
        }
    }
}

fn count_at(counts: &[u32], block: u32) -> u32
    ensures { result ≡ get_or counts.now block 0 }
{
    counts.get(block as usize).copied().unwrap_or(0)
}

// The count of this block with one activation more. There is a place for it from then on.
#[inline(always)]
fn raised_count(counts: &mut Vec<u32>, block: u32) -> Result<u32, OutOfMemory>
    ensures same { (b : ℕ) → get_or counts.new.items b 0 ≡ get_or counts.old.items b 0 }
    ensures raised { IfOk result (λ count. (count ≡ get_or counts.old.items block 0 + 1) × (block < length counts.new.items)) }
{
    let place = block as usize;
    if counts.len() <= place {
        counts.resize(place + 1, 0)?;
    }
    counts[place].checked_add(1).ok_or(OutOfMemory)
}

// One activation less of its block.
#[inline(always)]
fn take_off(counts: &mut [u32], ended: &Context)
    requires { (b : ℕ) → one_of b ended.now ≤ get_or counts.old b 0 }
    ensures { (b : ℕ) → get_or counts.new b 0 + one_of b ended.now ≡ get_or counts.old b 0 }
{
    if let Some(block) = ended.block() {
        counts[block as usize] -= 1;
    }
}

fn take_all_off(counts: &mut [u32], ended: &[Context])
    requires { (b : ℕ) → count_of b ended.now ≤ get_or counts.old b 0 }
    ensures { (b : ℕ) → get_or counts.new b 0 + count_of b ended.now ≡ get_or counts.old b 0 }
{
    for context in ended {
        take_off(counts, context);
    }
}

// The place of the last context that has this home, which is as many as lie below it.
fn place_of_home(contexts: &[Context], home: u32) -> Option<usize>
    ensures below { option_map (λ place. reverse (take place contexts.now)) result ≡ below_home home (reverse contexts.now) }
    ensures within { IfSome result (λ place. place < length contexts.now) }
{
    for place in (0..contexts.len()).rev() {
        if contexts[place].is_home(home) {
            return Some(place);
        }
    }
    None
}
