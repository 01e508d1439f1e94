// Frames over the words of one block.
ghost use Rattle.std.specs.Prelude.{◌≡◌, ◌+◌, ◌-◌, ◌*◌, ◌<◌, ◌≤◌, [], ◌∷◌, ◌++◌, length, take, drop, replicate, IfOk, OnOk, OnErr, IsOk};
ghost use Rattle.std.specs.Borrow.{sem};
ghost use Rattle.std.specs.List.{All};
ghost use Rattle.s80_frames.specs.Frames.{HasFrameWords, frames_of, upper as upper_frames};
ghost use Rattle.s80_frames.specs.Lending.{LendsTwoTops, LendsUpper, LendsHalves};

use crate::block::{Block, fits};
use s80_base::OutOfMemory;
use std::alloc::{AllocError, Global};
use std::marker::Model;
use std::mem;

/// How many words a frame has.
pub const FRAME_WORDS: usize = 38;

/// Frames of 38 words, one on another, in one block of memory that grows by `reserve` alone. Contracts see the list of the
/// frames, the lowest first, and how many more there is room for.
pub struct FrameArena<W> {
    // All its words are written, those of the spare frames too.
    words: Block<W, Global>,
    alloc: Global,
    frames: usize,
    spare: usize,
    blank: W,
}

impl<W> Model for FrameArena<W> {
    ghost use Rattle.std.specs.Prelude.{◌≡◌, ◌+◌, ◌*◌, ◌^◌, ◌<◌, length};
    ghost use Rattle.s80_frames.specs.Frames.{ArenaValue, arena_code, frames_of};

    ghost Value = { ArenaValue W };

    ghost coded = { arena_code W.code };

    ghost view = { λ a. record { frames = frames_of a.frames a.words.items; spare = a.spare; blank = a.blank } };

    ghost invariant = { λ a. (length a.words.items ≡ (a.frames + a.spare) * 38) × (a.words.room ≡ (a.frames + a.spare) * 38) × (a.words.heap ≡ a.alloc) × ((a.frames + a.spare) * 38 < 2 ^ 64) };
}

impl<W: Drop> Drop for FrameArena<W> {
    fn drop(self) {
        let FrameArena {
            words,
            alloc,
            frames,
            spare,
            blank: _,
        } = self;
        words.free(&alloc, (frames + spare) * FRAME_WORDS);
    }
}

impl<W: Copy> FrameArena<W> {
    /// No frames, and room for none. Takes no memory.
    pub fn make(alloc: Global, blank: W) -> Self
        ensures frames { result.frames ≡ [] }
        ensures spare { result.spare ≡ 0 }
        ensures blank { result.blank ≡ blank }
    {
        FrameArena {
            words: Block::none(&alloc),
            alloc,
            frames: 0,
            spare: 0,
            blank,
        }
    }

    /// Makes room for at least so many frames more. The room doubles at least where it grows, so that pushes cost a constant
    /// each, taken together.
    pub fn reserve(&mut self, n: usize) -> Result<(), OutOfMemory>
        ensures frames { self.new.frames ≡ self.old.frames }
        ensures blank { self.new.blank ≡ self.old.blank }
        ensures enough { OnOk result (n ≤ self.new.spare) }
        ensures more { self.old.spare ≤ self.new.spare }
        ensures refused { OnErr result (self.new.spare ≡ self.old.spare) }
        ensures at_hand { n ≤ self.old.spare → IsOk result }
    {
        if n <= self.spare {
            return Ok(());
        }
        self.grow(n)?;
        Ok(())
    }

    /// For how many frames more there is room.
    pub fn spare(&self) -> usize
        ensures spare { result ≡ self.now.spare }
        ensures words { All HasFrameWords self.now.frames }
    {
        self.spare
    }

    /// A frame of blanks on top. Takes no memory.
    pub fn push(&mut self)
        requires { 0 < self.old.spare }
        ensures frames { self.new.frames ≡ self.old.frames ++ (replicate 38 self.old.blank ∷ []) }
        ensures count { length self.new.frames ≡ length self.old.frames + 1 }
        ensures spare { self.new.spare ≡ self.old.spare - 1 }
        ensures blank { self.new.blank ≡ self.old.blank }
    {
        self.raise();
        let blanks = [self.blank; FRAME_WORDS];
        self.top().copy_from_slice(&blanks);
    }

    /// Takes the top frame away. Its room is spare then.
    pub fn pop(&mut self)
        requires { 0 < length self.old.frames }
        ensures frames { self.new.frames ≡ take (length self.old.frames - 1) self.old.frames }
        ensures count { length self.new.frames ≡ length self.old.frames - 1 }
        ensures spare { self.new.spare ≡ self.old.spare + 1 }
        ensures blank { self.new.blank ≡ self.old.blank }
    {
        self.frames -= 1;
        self.spare += 1;
    }

    /// Lends the words of the top frame.
    pub fn top(&mut self) -> &mut [W]
        requires { 0 < length self.old.frames }
        ensures* writes_back { sem 𝓛 (LendsUpper W.row self.entry 1 result) }
        ensures frame { result.now ∷ [] ≡ upper_frames 1 self.old.frames }
        ensures words { length result.now ≡ 38 }
    {
        self.upper(1)
    }

    /// Lends the words of the two upper frames: the lower, and the upper.
    pub fn two_tops(&mut self) -> (&mut [W], &mut [W])
        requires { 1 < length self.old.frames }
        ensures* writes_back { sem 𝓛 (LendsTwoTops W.row self.entry result) }
        ensures frames { result.0.now ∷ result.1.now ∷ [] ≡ upper_frames 2 self.old.frames }
        ensures words { (length result.0.now ≡ 38) × (length result.1.now ≡ 38) }
    {
        halves(self.upper_two())
    }

    // A larger block with the same words and blanks behind them. The old one is given back.
    fn grow(&mut self, n: usize) -> Result<(), AllocError>
        requires { self.old.spare < n }
        ensures frames { self.new.frames ≡ self.old.frames }
        ensures blank { self.new.blank ≡ self.old.blank }
        ensures enough { OnOk result (n ≤ self.new.spare) }
        ensures refused { OnErr result (self.new.spare ≡ self.old.spare) }
    {
        let held = self.frames + self.spare;
        let total = match self.frames.checked_add(n) {
            Some(least) => least.max(held.saturating_mul(2)),
            None => return Err(AllocError),
        };
        let Some(words) = total.checked_mul(FRAME_WORDS) else {
            return Err(AllocError);
        };
        let old = self.words.run_mut(0, held * FRAME_WORDS);
        let larger = filled(&self.alloc, words, old, self.blank)?;
        let old = mem::replace(&mut self.words, larger);
        old.free(&self.alloc, held * FRAME_WORDS);
        self.spare = total - self.frames;
        Ok(())
    }

    // One frame more, with whatever its words hold.
    fn raise(&mut self)
        requires { 0 < self.old.spare }
        ensures count { length self.new.frames ≡ length self.old.frames + 1 }
        ensures below { take (length self.old.frames) self.new.frames ≡ self.old.frames }
        ensures spare { self.new.spare ≡ self.old.spare - 1 }
        ensures blank { self.new.blank ≡ self.old.blank }
    {
        self.frames += 1;
        self.spare -= 1;
    }

    // Lends the words of the k upper frames as one slice.
    fn upper(&mut self, k: usize) -> &mut [W]
        requires { k ≤ length self.old.frames }
        ensures* writes_back { sem 𝓛 (LendsUpper W.row self.entry k result) }
        ensures frames { frames_of k result.now ≡ upper_frames k self.old.frames }
        ensures words { length result.now ≡ k * 38 }
    {
        let end = self.frames * FRAME_WORDS;
        self.words.run_mut(end - k * FRAME_WORDS, end)
    }

    fn upper_two(&mut self) -> &mut [W]
        requires { 1 < length self.old.frames }
        ensures* writes_back { sem 𝓛 (LendsUpper W.row self.entry 2 result) }
        ensures frames { frames_of 2 result.now ≡ upper_frames 2 self.old.frames }
        ensures words { length result.now ≡ 76 }
    {
        self.upper(2)
    }
}

// A block of these words with blanks behind them.
fn filled<W: Copy>(
    alloc: &Global,
    room: usize,
    words: &[W],
    blank: W,
) -> Result<Block<W, Global>, AllocError>
    requires { (length words.now ≤ room) × (0 < room) }
    ensures { IfOk result (λ b. (b.heap ≡ alloc.now) × (b.room ≡ room) × (b.items ≡ words.now ++ replicate (room - length words.now) blank)) }
{
    if !fits::<W>(room) {
        return Err(AllocError);
    }
    let mut block = Block::allocate(alloc, room)?;
    for i in 0..words.len() {
        block.put(i, words[i]);
    }
    for i in words.len()..room {
        block.put(i, blank);
    }
    Ok(block)
}

// The words of two frames, apart.
fn halves<W: Copy>(words: &mut [W]) -> (&mut [W], &mut [W])
    requires { length words.old ≡ 76 }
    ensures* writes_back { sem 𝓛 (LendsHalves W.row words.entry result) }
    ensures lower { result.0.now ≡ take 38 words.old }
    ensures upper { result.1.now ≡ drop 38 words.old }
{
    words.split_at_mut(FRAME_WORDS)
}
