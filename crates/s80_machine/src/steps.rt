// The instructions.
ghost use Rattle.std.specs.Prelude.{◌≡◌, ◌≤◌, ◌∷◌, ℕ, All, List, None, Some, false, true, if◌then◌else◌, slice_get};
ghost use Rattle.s80_code.specs.declared.code.Code.{Code};
ghost use Rattle.s80_code.specs.declared.instruction.Instruction.TheVariants.{Duplicate, Jump, JumpOnFalse, JumpOnTrue, Pop, PopInto, PushFixed, ReturnFixed, ReturnFromBlock, ReturnTop, Send, SendSpecial, SendSuper, Store};
ghost use Rattle.s80_code.specs.Special.{block_copy};
ghost use Rattle.s80_object.specs.declared.value.Value.{Value};
ghost use Rattle.s80_verify.specs.declared.stack.Stack.{Stack};
ghost use Rattle.s80_verify.specs.Operands.{Sends, Suits};
ghost use Rattle.s80_machine.specs.Turn.{Context, State, deliver, return_from};
ghost use Rattle.s80_machine.specs.World.{World};
ghost use Rattle.s80_machine.specs.Shared.{decided, fixed};
ghost use Rattle.s80_machine.specs.Step.{jump, turn};
ghost use Rattle.s80_machine.specs.Sound.{IsSound};
ghost use Rattle.s80_machine.specs.Seen.{Given, IsUnwound};
ghost use Rattle.s80_machine.specs.Came.{Came, IsGiven, IsReady, IsSet, Shows, TopHasHome, TopIsKnown, given_of, left_at};
ghost use Rattle.s80_machine.specs.Messages.{ReceiverIsKnown, TopRuns};
ghost use Rattle.s80_machine.specs.Acts.{Acts, TopCountsFew, TopHasMethod, left_by};

use crate::context::Activation;
use crate::contexts::Contexts;
use crate::halt::Halt;
use crate::machine::Machine;
use crate::setting::Setting;
use crate::stores::selector_at;
use s80_code::{BLOCK_COPY, Code, Instruction, Storage};
use s80_object::Value;
use s80_prims::Stop;
use std::alloc::Global;

impl<'a> Machine<'a> {
    /// One instruction of the active context.
    pub(crate) fn step(&mut self, on: &Setting<'a>) -> Result<(), Halt>
        requires ready { IsReady on.now }
        requires setting { IsSet (given_of on.now) }
        requires sound { (s : State) × Shows (given_of on.now) self.old s × IsSound on.now.classes.now on.now.methods.now on.now.doit.now s }
        ensures { (s : State) → Shows (given_of on.now) self.old s → Came (given_of on.now) (turn on.now.classes.now on.now.methods.now on.now.doit.now on.now.budget s) self.new result }
    {
        let active = self.contexts.active().ok_or(Halt::Stuck)?;
        let (method, place) = (active.method, active.place);
        let code = self.methods.get(method).ok_or(Halt::Stuck)?.code;
        let (instruction, width) = *self.methods.instruction(method, place).ok_or(Halt::Stuck)?;
        let next = place.checked_add(width).ok_or(Halt::Stuck)?;
        self.contexts.move_to(next)?;
        self.act(on, code, instruction, next)
    }

    // One instruction of a code that has at most 1,023 bytes.
    fn act(
        &mut self,
        on: &Setting<'a>,
        code: &'a Code,
        instruction: Instruction,
        next: u32,
    ) -> Result<(), Halt>
        requires ready { IsReady on.now }
        requires setting { IsSet (given_of on.now) }
        requires known { TopIsKnown on.now.classes.now self.old }
        requires receiver { ReceiverIsKnown on.now.classes.now self.old }
        requires given { All (IsGiven (given_of on.now)) self.old.methods }
        requires home { TopHasHome self.old }
        requires method { TopHasMethod self.old }
        requires near { next ≤ 1023 }
        requires suits { (at : ℕ) × (stack : Stack) × Suits code.now at stack instruction }
        requires few { instruction ≡ SendSpecial block_copy → TopCountsFew self.old }
        requires runs { TopRuns (given_of on.now) code.now self.old }
        ensures { Acts (given_of on.now) code.now next instruction self.old self.new result }
    {
        match instruction {
            Instruction::Push(storage) => self.push_stored(on, code, storage),
            Instruction::Store(storage) => self.store_top(on, code, storage),
            Instruction::PopInto(storage) => self.pop_into(on, code, storage),
            Instruction::PushFixed(number) => self.push_fixed(number),
            Instruction::ReturnFixed(number) => self.return_fixed(number),
            Instruction::ReturnTop => self.return_top(),
            Instruction::ReturnFromBlock => self.return_to_caller(),
            Instruction::Send {
                arguments,
                selector,
            } => self.send_literal(on, code, arguments, selector),
            Instruction::SendSuper {
                arguments,
                selector,
            } => self.send_literal_super(on, code, arguments, selector),
            Instruction::SendSpecial(number) => self.send_short(on, next, number),
            Instruction::Pop => self.pop(),
            Instruction::Duplicate => self.duplicate(),
            Instruction::PushContext => self.contexts.push(Value::Context),
            Instruction::Jump(distance) => self.jump_or_back(on, next, distance),
            Instruction::JumpOnTrue(distance) => self.jump_on(true, next, distance),
            Instruction::JumpOnFalse(distance) => self.jump_on(false, next, distance),
        }
    }

    // ---- the stack

    fn store_top(&mut self, on: &Setting<'a>, code: &'a Code, storage: Storage) -> Result<(), Halt>
        ensures { (next : ℕ) → Acts (given_of on.now) code.now next (Store storage) self.old self.new result }
    {
        let value = self.contexts.top()?;
        self.store(on, code, storage, value)
    }

    fn pop_into(&mut self, on: &Setting<'a>, code: &'a Code, storage: Storage) -> Result<(), Halt>
        ensures { (next : ℕ) → Acts (given_of on.now) code.now next (PopInto storage) self.old self.new result }
    {
        let value = self.contexts.pop()?;
        self.store(on, code, storage, value)
    }

    fn push_fixed(&mut self, number: u8) -> Result<(), Halt>
        ensures { (on : Given) (code : Code) (next : ℕ) → Acts on code next (PushFixed number) self.old self.new result }
    {
        let value = self.fixed(number).ok_or(Halt::Stuck)?;
        self.contexts.push(value)
    }

    // The receiver, true, false, nil, -1, 0, 1 or 2.
    fn fixed(&self, number: u8) -> Option<Value>
        ensures { (c : Context) (rest : List Context) → self.now.contexts ≡ c ∷ rest → result ≡ slice_get (fixed c.receiver) number }
    {
        self.contexts.active()?.fixed(number)
    }

    fn pop(&mut self) -> Result<(), Halt>
        ensures { (on : Given) (code : Code) (next : ℕ) → Acts on code next Pop self.old self.new result }
    {
        self.contexts.pop()?;
        Ok(())
    }

    fn duplicate(&mut self) -> Result<(), Halt>
        ensures { (on : Given) (code : Code) (next : ℕ) → Acts on code next Duplicate self.old self.new result }
    {
        let value = self.contexts.top()?;
        self.contexts.push(value)
    }

    // ---- messages

    #[inline(always)]
    fn send_literal(
        &mut self,
        on: &Setting<'a>,
        code: &'a Code,
        arguments: u8,
        literal: u8,
    ) -> Result<(), Halt>
        requires ready { IsReady on.now }
        requires setting { IsSet (given_of on.now) }
        requires known { TopIsKnown on.now.classes.now self.old }
        requires sends { Sends code.now arguments literal }
        requires runs { TopRuns (given_of on.now) code.now self.old }
        ensures { (next : ℕ) → Acts (given_of on.now) code.now next (Send arguments literal) self.old self.new result }
    {
        let selector = selector_at(code, literal).ok_or(Halt::Stuck)?;
        self.send(on, literal, selector, arguments)
    }

    #[inline(never)]
    fn send_literal_super(
        &mut self,
        on: &Setting<'a>,
        code: &'a Code,
        arguments: u8,
        selector: u8,
    ) -> Result<(), Halt>
        requires ready { IsReady on.now }
        requires setting { IsSet (given_of on.now) }
        requires known { TopIsKnown on.now.classes.now self.old }
        requires receiver { ReceiverIsKnown on.now.classes.now self.old }
        requires given { All (IsGiven (given_of on.now)) self.old.methods }
        requires method { TopHasMethod self.old }
        requires sends { Sends code.now arguments selector }
        ensures { (next : ℕ) → Acts (given_of on.now) code.now next (SendSuper arguments selector) self.old self.new result }
    {
        let selector = selector_at(code, selector).ok_or(Halt::Stuck)?;
        self.send_super(on, selector, arguments)
    }

    // A message that has a byte of its own.
    fn send_short(&mut self, on: &Setting<'a>, next: u32, number: u8) -> Result<(), Halt>
        requires ready { IsReady on.now }
        requires setting { IsSet (given_of on.now) }
        requires known { TopIsKnown on.now.classes.now self.old }
        requires home { TopHasHome self.old }
        requires near { next ≤ 1023 }
        requires few { number ≡ block_copy → TopCountsFew self.old }
        ensures { (code : Code) → Acts (given_of on.now) code next (SendSpecial number) self.old self.new result }
    {
        if number == BLOCK_COPY {
            self.make_block(next)
        } else {
            self.send_special(on, number)
        }
    }

    // ---- jumps

    #[inline(always)]
    fn jump(&mut self, next: u32, distance: i32) -> Result<(), Halt>
        requires { next ≤ 1023 }
        ensures { (on : Given) (c : Context) (rest : List Context) (w : World) (stack : List Value) → Shows on self.old (left_at c next stack rest w)
            → Came on (jump on.table on.methods on.code on.budget distance c next stack rest w) self.new result }
    {
        let place = next.checked_add_signed(distance).ok_or(Halt::Stuck)?;
        self.contexts.move_to(place)
    }

    // A jump back costs a tick.
    fn jump_or_back(&mut self, on: &Setting<'a>, next: u32, distance: i32) -> Result<(), Halt>
        requires { next ≤ 1023 }
        ensures { (code : Code) → Acts (given_of on.now) code next (Jump distance) self.old self.new result }
    {
        if distance < 0 {
            self.tick(on.budget)?;
            self.jump(next, distance)
        } else {
            self.jump(next, distance)
        }
    }

    // Jumps where the top is as wanted; true and false decide, and nothing else does.
    #[inline(always)]
    fn jump_on(&mut self, wanted: bool, next: u32, distance: i32) -> Result<(), Halt>
        requires { next ≤ 1023 }
        ensures { (on : Given) (code : Code) → Acts on code next (if wanted then JumpOnTrue distance else JumpOnFalse distance) self.old self.new result }
    {
        let value = self.contexts.pop()?;
        let Some(is_true) = as_bool(value) else {
            return Err(Halt::stop(self.alloc, Stop::NonBoolean));
        };
        if is_true == wanted {
            self.jump(next, distance)
        } else {
            Ok(())
        }
    }

    // ---- returns

    fn return_fixed(&mut self, number: u8) -> Result<(), Halt>
        ensures { (on : Given) (code : Code) (next : ℕ) → Acts on code next (ReturnFixed number) self.old self.new result }
    {
        let value = self.fixed(number).ok_or(Halt::Stuck)?;
        self.return_from_method(value)
    }

    fn return_top(&mut self) -> Result<(), Halt>
        ensures { (on : Given) (code : Code) (next : ℕ) → Acts on code next ReturnTop self.old self.new result }
    {
        let value = self.contexts.pop()?;
        self.return_from_method(value)
    }

    // Ends the active context with its top for the one below; the last one's is the answer.
    fn return_to_caller(&mut self) -> Result<(), Halt>
        ensures { (on : Given) (code : Code) (next : ℕ) → Acts on code next ReturnFromBlock self.old self.new result }
    {
        let value = self.contexts.pop()?;
        self.contexts.end()?;
        self.deliver(value)
    }

    #[inline(always)]
    fn return_from_method(&mut self, value: Value) -> Result<(), Halt>
        ensures { (on : Given) (c : Context) (rest : List Context) (w : World) → Shows on self.old (record { contexts = c ∷ rest; world = w })
            → Came on (return_from c.activation value rest w) self.new result }
    {
        end_method(self.alloc, &mut self.contexts)?;
        self.deliver(value)
    }

    // A value for the context that waits for it.
    #[inline(always)]
    fn deliver(&mut self, value: Value) -> Result<(), Halt>
        ensures { (on : Given) (rest : List Context) (w : World) → Shows on self.old (record { contexts = rest; world = w })
            → Came on (deliver value rest w) self.new result }
    {
        if self.contexts.count() == 0 {
            return Err(Halt::answer(self.alloc, value));
        }
        self.contexts.push(value)
    }
}

// Ends the active context, and from a block all down to its home.
#[inline(always)]
fn end_method(alloc: Global, contexts: &mut Contexts) -> Result<(), Halt>
    ensures { (c : Context) (rest : List Context) → contexts.old ≡ c ∷ rest → IsUnwound (left_by c.activation rest) contexts.old contexts.new result }
{
    let active = contexts.active().ok_or(Halt::Stuck)?;
    match active.activation {
        Activation::Block { home, .. } => contexts.end_to_home(alloc, home),
        _ => contexts.end(),
    }
}

/// What true and false decide.
#[inline(always)]
pub(crate) fn as_bool(value: Value) -> Option<bool>
    ensures { result ≡ decided value (Some true) (Some false) None }
{
    match value {
        Value::True => Some(true),
        Value::False => Some(false),
        _ => None,
    }
}
