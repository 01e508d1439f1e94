// The search for all that is reached.
ghost use Rattle.std.specs.Prelude.{◌≡◌, ◌≢◌, ℕ, pos, ◌+ℤ◌, ◌<◌, ◌≤◌, ◌↔◌, IsTrue, true, if◌then◌else◌, option_map, length, drop, slice_get, IfErr, OnOk, IfOk, IfSome, Some, None};
ghost use Rattle.s80_code.specs.Table.{Stands, decoded, is_unused};
ghost use Rattle.s80_verify.specs.Reach.{IsReached, Reached};
ghost use Rattle.s80_verify.specs.Fault.{Fails, room_of, taken};
ghost use Rattle.s80_verify.specs.Record.{Depths, Fits, IsClear};
ghost use Rattle.s80_verify.specs.Operands.{Suits};
ghost use Rattle.s80_verify.specs.declared.stack.Stack.TheVariants.{OfBlock};
ghost use Rattle.s80_verify.specs.Effect.{goes_on, takes};
ghost use Rattle.s80_verify.specs.Found.{ArePlaces, IsSound, AreSteps, point_at, Grows, IsKnown, IsDone, IsTarget, LandsAt, AreBetween, SetsBetween, JumpsClear, depth_in, depths_in};

use crate::effect::{distance_of, goes_on, leaves, takes};
use crate::fault::{VerifyFault, VerifyKind};
use crate::operands::{Beginning, block_at, suits};
use crate::places::{PLACES, Places};
use crate::point::{Marks, Point, Points};
use crate::stack::Stack;
use s80_code::{Code, Instruction, decode};

/// What was found by a search.
#[derive(Drop)]
pub(crate) struct Found {
    pub marks: Marks,
    /// In the order in which they were found.
    pub points: Points,
}

/// The room of a context's temporaries and values together.
fn room_of(code: &Code) -> u32
    ensures { result ≡ room_of code.now }
{
    if code.large { 32 } else { 12 }
}

/// How much of it a point takes up.
fn taken(code: &Code, point: Point) -> u64
    ensures { result ≡ taken code.now point.stack point.depth }
{
    match point.stack {
        Stack::OfHome => u64::from(code.temporaries) + u64::from(point.depth),
        Stack::OfBlock => u64::from(point.depth),
    }
}

impl Found {
    /// Adds a point, if it isn't there.
    fn reach(&mut self, code: &Code, point: Point) -> Result<(), VerifyFault>
        requires within { point.at ≤ length code.now.bytes }
        requires short { length code.now.bytes < 1024 }
        requires reached { Reached code.now point.at point.stack point.depth }
        requires sound { IsSound code.now self.old }
        ensures sound { OnOk result (IsSound code.now self.new) }
        ensures grows { OnOk result (Grows self.old self.new) }
        ensures marked { OnOk result (depth_in self.new.marks point.stack point.at ≡ Some point.depth) }
        ensures fault { IfErr result (λ fault. Fails code.now fault.kind fault.place) }
    {
        if taken(code, point) > u64::from(room_of(code)) {
            return Err(VerifyKind::StackHigh.at(point.at));
        }
        if self.marks.clashes(point) {
            return Err(VerifyKind::StackDiffers.at(point.at));
        }
        if self.marks.get(point.stack, point.at).is_none() {
            self.marks.set(point);
            self.points.push(point);
        }
        Ok(())
    }

    /// Adds a point, if there is one.
    fn reach_if(&mut self, code: &Code, point: Option<Point>) -> Result<(), VerifyFault>
        requires short { length code.now.bytes < 1024 }
        requires within { IfSome point (λ p. p.at ≤ length code.now.bytes) }
        requires reached { IfSome point (λ p. Reached code.now p.at p.stack p.depth) }
        requires sound { IsSound code.now self.old }
        ensures sound { OnOk result (IsSound code.now self.new) }
        ensures grows { OnOk result (Grows self.old self.new) }
        ensures marked { OnOk result (IfSome point (λ p. depth_in self.new.marks p.stack p.at ≡ Some p.depth)) }
        ensures fault { IfErr result (λ fault. Fails code.now fault.kind fault.place) }
    {
        match point {
            Some(point) => self.reach(code, point),
            None => Ok(()),
        }
    }
}

/// The instruction at a place that is reached, and the place behind it.
fn instruction_at(code: &Code, at: u32) -> Result<(Instruction, u32), VerifyFault>
    requires within { at ≤ length code.now.bytes }
    requires short { length code.now.bytes < 1024 }
    requires reached { IsReached code.now at }
    ensures stands { IfOk result (λ found. Stands code.now.bytes at found.0 found.1) }
    ensures fault { IfErr result (λ fault. Fails code.now fault.kind fault.place) }
{
    if let Some((instruction, width)) = decode(code, at) {
        return Ok((instruction, at + width));
    }
    Err(no_instruction(code, at))
}

/// Why no instruction stands at a place that is reached.
fn no_instruction(code: &Code, at: u32) -> VerifyFault
    requires within { at ≤ length code.now.bytes }
    requires none { decoded (drop at code.now.bytes) ≡ None }
    requires reached { IsReached code.now at }
    ensures { Fails code.now result.kind result.place }
{
    match byte_at(code, at) {
        None => VerifyKind::Falls.at(at),
        Some(byte) if is_unused(byte) => VerifyKind::Unused.at(at),
        Some(_) => VerifyKind::Short.at(at),
    }
}

fn byte_at(code: &Code, at: u32) -> Option<u8>
    ensures { result ≡ slice_get code.now.bytes at }
{
    Some(*code.bytes.bytes().get(at as usize)?)
}

/// Whether no instruction begins with a byte.
fn is_unused(byte: u8) -> bool
    ensures value { result ≡ is_unused byte }
    ensures byte { byte < 256 }
{
    matches!(byte, 126 | 127 | 138..=143)
}

/// Where an instruction jumps to, if it does.
fn target(
    code: &Code,
    places: &Places,
    point: Point,
    instruction: Instruction,
    next: u32,
) -> Result<Option<u32>, VerifyFault>
    requires short { length code.now.bytes < 1024 }
    requires places { ArePlaces code.now.bytes places.now.before }
    requires reached { Reached code.now point.at point.stack point.depth }
    requires stands { Stands code.now.bytes point.at instruction next }
    ensures target { IfOk result (λ to. IsTarget code.now instruction next to) }
    ensures fault { IfErr result (λ fault. Fails code.now fault.kind fault.place) }
{
    let Some(distance) = distance_of(instruction) else {
        return Ok(None);
    };
    let Some(to) = place_from(next, distance) else {
        return Err(VerifyKind::JumpTarget.at(point.at));
    };
    if !places.has_instruction(code, to) {
        return Err(VerifyKind::JumpTarget.at(point.at));
    }
    Ok(Some(to))
}

/// The place that is so far behind or before another.
fn place_from(next: u32, distance: i32) -> Option<u32>
    ensures { LandsAt (pos next +ℤ distance) result }
{
    next.checked_add_signed(distance)
}

/// The places where a point leads.
#[derive(Clone, Copy, Drop)]
pub(crate) struct Steps {
    pub behind: Option<Point>,
    pub jump: Option<Point>,
    pub block: Option<Point>,
}

/// The place behind an instruction, where it goes on there.
fn behind(instruction: Instruction, next: u32) -> Option<u32>
    ensures { result ≡ (if goes_on instruction then Some next else None) }
{
    if goes_on(instruction) {
        Some(next)
    } else {
        None
    }
}

fn point_at(at: Option<u32>, stack: Stack, depth: u32) -> Option<Point>
    ensures { result ≡ option_map (λ at. point_at at stack depth) at }
{
    Some(Point {
        at: at?,
        stack,
        depth,
    })
}

/// Where a real block starts, with its arguments on its own stack.
fn start_of(block: Option<Beginning>) -> Option<Point>
    ensures { result ≡ option_map (λ block. point_at block.start OfBlock block.arguments) block }
{
    let block = block?;
    Some(Point {
        at: block.start,
        stack: Stack::OfBlock,
        depth: block.arguments,
    })
}

/// Whether an instruction finds what it takes, and follows the rules on operands.
fn check_fit(
    code: &Code,
    places: &Places,
    point: Point,
    instruction: Instruction,
) -> Result<(), VerifyFault>
    requires short { length code.now.bytes < 1024 }
    requires places { ArePlaces code.now.bytes places.now.before }
    requires runs { (next : ℕ) × Stands code.now.bytes point.at instruction next }
    requires reached { Reached code.now point.at point.stack point.depth }
    ensures enough { OnOk result (takes instruction ≤ point.depth) }
    ensures suits { OnOk result (Suits code.now point.at point.stack instruction) }
    ensures fault { IfErr result (λ fault. Fails code.now fault.kind fault.place) }
{
    if point.depth < takes(instruction) {
        return Err(VerifyKind::StackLow.at(point.at));
    }
    if !suits(code, places, point.at, point.stack, instruction) {
        return Err(VerifyKind::Operand.at(point.at));
    }
    Ok(())
}

/// Where a point leads; its instruction fits there.
fn steps_of(code: &Code, places: &Places, point: Point) -> Result<Steps, VerifyFault>
    requires short { length code.now.bytes < 1024 }
    requires places { ArePlaces code.now.bytes places.now.before }
    requires within { point.at ≤ length code.now.bytes }
    requires reached { Reached code.now point.at point.stack point.depth }
    requires room { taken code.now point.stack point.depth ≤ room_of code.now }
    ensures fits { IfOk result (λ steps. Fits code.now point.at point.stack point.depth) }
    ensures steps { IfOk result (λ steps. AreSteps code.now point steps) }
    ensures fault { IfErr result (λ fault. Fails code.now fault.kind fault.place) }
{
    let (instruction, next) = instruction_at(code, point.at)?;
    check_fit(code, places, point, instruction)?;
    let to = target(code, places, point, instruction, next)?;
    let depth = point.depth - takes(instruction) + leaves(instruction);
    Ok(Steps {
        behind: point_at(behind(instruction, next), point.stack, depth),
        jump: point_at(to, point.stack, depth),
        block: start_of(block_at(code, places, point.at)),
    })
}

/// Looks at the instruction at a point, and adds the points where it leads.
fn visit(code: &Code, places: &Places, found: &mut Found, point: Point) -> Result<(), VerifyFault>
    requires short { length code.now.bytes < 1024 }
    requires places { ArePlaces code.now.bytes places.now.before }
    requires sound { IsSound code.now found.old }
    requires known { IsKnown code.now found.old.marks point }
    ensures sound { OnOk result (IsSound code.now found.new) }
    ensures grows { OnOk result (Grows found.old found.new) }
    ensures done { OnOk result (IsDone code.now found.new.marks point) }
    ensures fault { IfErr result (λ fault. Fails code.now fault.kind fault.place) }
{
    let steps = steps_of(code, places, point)?;
    found.reach_if(code, steps.behind)?;
    found.reach_if(code, steps.jump)?;
    found.reach_if(code, steps.block)?;
    Ok(())
}

/// All that is reached.
pub(crate) fn find_all(code: &Code, places: &Places) -> Result<Found, VerifyFault>
    requires short { length code.now.bytes < 1024 }
    requires places { ArePlaces code.now.bytes places.now.before }
    ensures depths { IfOk result (λ found. Depths code.now (depths_in found)) }
    ensures sound { IfOk result (λ found. IsSound code.now found) }
    ensures fault { IfErr result (λ fault. Fails code.now fault.kind fault.place) }
{
    let mut found = Found {
        marks: Marks::none(),
        points: Points::none(),
    };
    let start = Point {
        at: 0,
        stack: Stack::OfHome,
        depth: 0,
    };
    found.reach(code, start)?;
    let mut next = 0;
    while let Some(point) = found.points.get(next) {
        visit(code, places, &mut found, point)?;
        next += 1;
    }
    Ok(found)
}

/// The places between the four instructions of the beginnings of blocks.
fn between(code: &Code, places: &Places, found: &Found) -> [bool; PLACES]
    requires short { length code.now.bytes < 1024 }
    requires places { ArePlaces code.now.bytes places.now.before }
    requires sound { IsSound code.now found.now }
    ensures { AreBetween code.now found.now result }
{
    let mut between = [false; PLACES];
    let mut next = 0;
    while let Some(point) = found.points.get(next) {
        set_between(&mut between, point.at, block_at(code, places, point.at));
        next += 1;
    }
    between
}

/// Sets the places between the four instructions of a block's beginning, if there is one.
fn set_between(between: &mut [bool; PLACES], at: u32, block: Option<Beginning>)
    requires { IfSome block (λ b. (b.push < 1024) × (at < 1024) × (b.jump < 1024)) }
    ensures { SetsBetween between.old between.new at block }
{
    if let Some(block) = block {
        between[block.push as usize] = true;
        between[at as usize] = true;
        between[block.jump as usize] = true;
    }
}

/// No jump at a place lands between the four instructions of a block's beginning.
fn check_jump(
    code: &Code,
    between: &[bool; PLACES],
    found: &Found,
    at: u32,
) -> Result<(), VerifyFault>
    requires short { length code.now.bytes < 1024 }
    requires sound { IsSound code.now found.now }
    requires reached { IsReached code.now at }
    requires between { AreBetween code.now found.now between.now }
    ensures clear { OnOk result (JumpsClear code.now found.now at) }
    ensures fault { IfErr result (λ fault. Fails code.now fault.kind fault.place) }
{
    let Some((instruction, width)) = decode(code, at) else {
        return Ok(());
    };
    let Some(distance) = distance_of(instruction) else {
        return Ok(());
    };
    let Some(to) = place_from(at + width, distance) else {
        return Ok(());
    };
    if is_set(between, to) {
        return Err(VerifyKind::Operand.at(at));
    }
    Ok(())
}

fn is_set(places: &[bool; PLACES], at: u32) -> bool
    ensures { IsTrue result ↔ (slice_get places.now at ≡ Some true) }
{
    match places.get(at as usize) {
        Some(set) => *set,
        None => false,
    }
}

/// No jump that was found lands between the four instructions of a block's beginning.
pub(crate) fn check_jumps(code: &Code, places: &Places, found: &Found) -> Result<(), VerifyFault>
    requires short { length code.now.bytes < 1024 }
    requires places { ArePlaces code.now.bytes places.now.before }
    requires sound { IsSound code.now found.now }
    ensures clear { OnOk result (IsClear code.now (depths_in found.now)) }
    ensures fault { IfErr result (λ fault. Fails code.now fault.kind fault.place) }
{
    let between = between(code, places, found);
    let mut next = 0;
    while let Some(point) = found.points.get(next) {
        check_jump(code, &between, found, point.at)?;
        next += 1;
    }
    Ok(())
}
