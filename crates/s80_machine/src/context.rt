// Activations.
ghost use Rattle.std.specs.Prelude.{◌≡◌, ◌∷◌, ◌++◌, [], IfOk, MatchBool};
ghost use Rattle.s80_machine.specs.Counted.{block_in};
ghost use Rattle.s80_machine.specs.World.{home_in, is_home_activation};
ghost use Rattle.s80_machine.specs.Turn.{is_home};
ghost use Rattle.s80_machine.specs.Seen.{DoesIn, IsOwnSet, IsTemporarySet, activation_of, message_taken, moved, popped, pushed, temporary_set, topped};

use crate::halt::Halt;
use s80_base::OutOfMemory;
use s80_object::Value;
use std::marker::Model;

/// Where an activation has its temporaries.
#[derive(Debug, Drop)]
pub(crate) enum Activation {
    /// It keeps them itself.
    Own(Vec<Value>),
    /// In its home, the object of this number.
    Home(u32),
    /// In the home of its block: the objects of the block and of the home.
    Block { block: u32, home: u32 },
}

impl Activation {
    /// The home's object, where it is one.
    pub(crate) fn home(&self) -> Option<u32>
        ensures { result ≡ home_in (activation_of self.now) }
    {
        match self {
            Activation::Own(_) => None,
            Activation::Home(home) => Some(*home),
            Activation::Block { home, .. } => Some(*home),
        }
    }

    /// Whether it is the activation of the method that has this home.
    fn is_home(&self, number: u32) -> bool
        ensures { result ≡ is_home_activation number (activation_of self.now) }
    {
        match self {
            Activation::Home(home) => number == *home,
            _ => false,
        }
    }

    /// The block's object, where it is the activation of one.
    fn block(&self) -> Option<u32>
        ensures { result ≡ block_in (activation_of self.now) }
    {
        match self {
            Activation::Block { block, .. } => Some(*block),
            _ => None,
        }
    }

    fn set_temporary(&mut self, i: u8, value: Value) -> Result<(), Halt>
        ensures does { IsTemporarySet (activation_of self.old) i value (activation_of self.new) result }
        ensures stays { block_in (activation_of self.new) ≡ block_in (activation_of self.old) }
    {
        match self {
            Activation::Own(temporaries) => set(temporaries, usize::from(i), value),
            _ => Err(Halt::Stuck),
        }
    }
}

fn set(temporaries: &mut Vec<Value>, i: usize, value: Value) -> Result<(), Halt>
    ensures { IsOwnSet temporaries.old.items i value temporaries.new.items result }
{
    match temporaries.get_mut(i) {
        Some(temporary) => {
            *temporary = value;
            Ok(())
        }
        None => Err(Halt::Stuck),
    }
}

/// Pushes a value, where there is memory for it.
#[inline(always)]
pub(crate) fn push_on(stack: &mut Vec<Value>, value: Value) -> bool
    ensures { MatchBool result (stack.new.items ≡ stack.old.items ++ value ∷ []) (stack.new.items ≡ stack.old.items) }
{
    if stack.len() < stack.capacity() {
        stack.push_reserved(value);
        return true;
    }
    push_in_more(stack, value)
}

// The same in more room. It stands apart, so that what is inlined stays small.
#[cold]
#[inline(never)]
fn push_in_more(stack: &mut Vec<Value>, value: Value) -> bool
    ensures { MatchBool result (stack.new.items ≡ stack.old.items ++ value ∷ []) (stack.new.items ≡ stack.old.items) }
{
    stack.push(value).is_ok()
}

// The room with these arguments in it. Nearly every message has one or none.
#[inline(always)]
fn filled(mut room: Vec<Value>, arguments: &[Value]) -> Result<Vec<Value>, OutOfMemory>
    requires { room.items ≡ [] }
    ensures { IfOk result (λ filled. filled.items ≡ arguments.now) }
{
    match arguments {
        [] => Ok(room),
        [argument] => {
            if push_on(&mut room, *argument) {
                Ok(room)
            } else {
                Err(OutOfMemory)
            }
        }
        _ => {
            room.extend_from_slice(arguments)?;
            Ok(room)
        }
    }
}

/// The activation of a method or of a block. Contracts see its stack with the top first.
#[derive(Debug, Drop)]
pub(crate) struct Context {
    pub method: u32,
    pub receiver: Value,
    pub activation: Activation,
    /// The place of the next instruction.
    pub place: u32,
    /// The last is on top.
    pub stack: Vec<Value>,
}

impl Model for Context {
    ghost use Rattle.std.specs.Prelude.{reverse};
    ghost use Rattle.s80_machine.specs.Seen.{activation_of};
    ghost use Rattle.s80_machine.specs.Turn.{Context as Active};

    ghost Value = { Active };

    ghost view = { λ c. record { method = c.method; receiver = c.receiver; activation = activation_of c.activation; place = c.place; stack = reverse c.stack.items } };
}

impl Context {
    /// Whether it is the activation of the method that has this home.
    pub(crate) fn is_home(&self, number: u32) -> bool
        ensures { result ≡ is_home number self.now }
    {
        self.activation.is_home(number)
    }

    /// The block's object, where it is the activation of one.
    pub(crate) fn block(&self) -> Option<u32>
        ensures { result ≡ block_in self.now.activation }
    {
        self.activation.block()
    }

    #[inline(always)]
    pub(crate) fn push(&mut self, value: Value) -> Result<(), Halt>
        ensures does { DoesIn (λ done. done) (pushed value self.old) self.new result }
        ensures stays { block_in self.new.activation ≡ block_in self.old.activation }
    {
        if push_on(&mut self.stack, value) {
            Ok(())
        } else {
            Err(Halt::Memory)
        }
    }

    #[inline(always)]
    pub(crate) fn pop(&mut self) -> Result<Value, Halt>
        ensures does { DoesIn (λ v. v) (popped self.old) self.new result }
        ensures stays { block_in self.new.activation ≡ block_in self.old.activation }
    {
        match self.stack.pop() {
            Some(value) => Ok(value),
            None => Err(Halt::Stuck),
        }
    }

    /// The top of the stack, which stays.
    #[inline(always)]
    pub(crate) fn top(&self) -> Result<Value, Halt>
        ensures { DoesIn (λ v. v) (topped self.now) self.now result }
    {
        match self.stack.last() {
            Some(value) => Ok(*value),
            None => Err(Halt::Stuck),
        }
    }

    /// Takes so many arguments off the stack into this room, of which the last is on top, and the receiver below them.
    #[inline(always)]
    pub(crate) fn take_message(
        &mut self,
        room: Vec<Value>,
        count: u8,
    ) -> Result<(Value, Vec<Value>), Halt>
        requires empty { room.items ≡ [] }
        ensures does { DoesIn (λ p. (p.0, p.1.items)) (message_taken count self.old) self.new result }
        ensures stays { block_in self.new.activation ≡ block_in self.old.activation }
    {
        let Some(below) = self.stack.len().checked_sub(usize::from(count) + 1) else {
            return Err(Halt::Stuck);
        };
        let receiver = self.stack[below];
        let arguments = filled(room, &self.stack[below + 1..])?;
        self.stack.truncate(below);
        Ok((receiver, arguments))
    }

    /// Goes on at this place.
    #[inline(always)]
    pub(crate) fn move_to(&mut self, place: u32) -> Result<(), Halt>
        ensures does { DoesIn (λ done. done) (moved place self.old) self.new result }
        ensures stays { block_in self.new.activation ≡ block_in self.old.activation }
    {
        self.place = place;
        Ok(())
    }

    /// Sets a temporary that it keeps itself.
    pub(crate) fn set_temporary(&mut self, i: u8, value: Value) -> Result<(), Halt>
        ensures does { DoesIn (λ done. done) (temporary_set i value self.old) self.new result }
        ensures stays { block_in self.new.activation ≡ block_in self.old.activation }
    {
        self.activation.set_temporary(i, value)
    }
}
