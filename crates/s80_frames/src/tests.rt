// Arenas of numbers.
ghost use Rattle.std.specs.Prelude.{◌≡◌, ◌+◌, ◌-◌, ◌<◌, length, OnOk};

use crate::{FRAME_WORDS, FrameArena};
use std::process::Abort;
use std::test::Fail;

const DEEP: u64 = 10_001;

// Room for one frame more. Where it is refused all is as it was, and the next try finds memory.
fn make_room(rt: &impl Abort, arena: &mut FrameArena<u64>) -> Result<(), Fail>
    ensures frames { arena.new.frames ≡ arena.old.frames }
    ensures room { OnOk result (0 < arena.new.spare) }
{
    if arena.spare() > 0 {
        return Ok(());
    }
    if arena.reserve(1).is_ok() {
        return Ok(());
    }
    assert_eq!(rt; arena.spare(), 0);
    arena.reserve(1)?;
    Ok(())
}

// A frame on top with a number in each word.
fn push_number(rt: &impl Abort, arena: &mut FrameArena<u64>, number: u64) -> Result<(), Fail>
    ensures { OnOk result (length arena.new.frames ≡ length arena.old.frames + 1) }
{
    make_room(rt, arena)?;
    arena.push();
    let words = arena.top();
    assert!(rt; words.iter().all(|word| *word == 0));
    words.fill(number);
    Ok(())
}

// Takes a frame away that has a number in each word.
fn pop_number(rt: &impl Abort, arena: &mut FrameArena<u64>, number: u64)
    requires { 0 < length arena.old.frames }
    ensures { length arena.new.frames ≡ length arena.old.frames - 1 }
{
    assert!(rt; arena.top().iter().all(|word| *word == number));
    arena.pop();
}

#[test]
fn two_frames_are_lent_apart(rt: HostRuntime) -> Result<(), Fail> {
    let mut arena = FrameArena::make(rt.alloc(), 0);
    push_number(&rt, &mut arena, 5)?;
    push_number(&rt, &mut arena, 6)?;
    let (lower, upper) = arena.two_tops();
    assert_eq!(rt; lower.len(), FRAME_WORDS);
    assert_eq!(rt; upper.len(), FRAME_WORDS);
    upper[3] = 7;
    lower[4] = upper[3];
    assert_eq!(rt; lower[3], 5);
    assert_eq!(rt; lower[4], 7);
    assert_eq!(rt; upper[4], 6);
    Ok(())
}

#[test]
fn frames_go_deep_and_come_back(rt: HostRuntime) -> Result<(), Fail> {
    let mut arena = FrameArena::make(rt.alloc(), 0);
    let mut count = 0;
    while count < DEEP {
        push_number(&rt, &mut arena, count)?;
        count += 1;
    }
    while count > 0 {
        count -= 1;
        pop_number(&rt, &mut arena, count);
    }
    Ok(())
}

// All of them at once would take three hundred megabytes (tools/try-dropped-frames).
#[test]
fn dropped_arenas_give_their_memory_back(rt: HostRuntime) -> Result<(), Fail> {
    for _ in 0..100 {
        let mut arena = FrameArena::make(rt.alloc(), 0_u64);
        if arena.reserve(10_000).is_err() {
            arena.reserve(10_000)?;
        }
        arena.push();
        assert_eq!(rt; arena.top()[37], 0);
    }
    Ok(())
}
