// Activations of methods and blocks, and how blocks are made.
ghost use Rattle.std.specs.Prelude.{◌≡◌, ◌≤◌, ◌<◌, ◌+◌, ◌^◌, ◌∷◌, ◌++◌, ◌-◌, IfOk, List, Some, length, replicate, slice_get};
ghost use Rattle.s80_code.specs.declared.code.Code.{Code};
ghost use Rattle.s80_object.specs.Body.{block, home, number_to};
ghost use Rattle.s80_object.specs.Objects.{IsHome, Makes, body_at};
ghost use Rattle.s80_object.specs.declared.value.Value.TheVariants.{Nil, Object};
ghost use Rattle.s80_machine.specs.Turn.{Context, Goes, State, goes_on};
ghost use Rattle.s80_machine.specs.World.{Key, World, number_in};
ghost use Rattle.s80_machine.specs.Shared.{block_with};
ghost use Rattle.s80_machine.specs.Step.{block_activated, code_for, copy_turn, started, with_room};
ghost use Rattle.s80_machine.specs.Came.{Came, Shows, TopHasHome, at_place, given_of};
ghost use Rattle.s80_machine.specs.Seen.{Given, IsBlock, block_of};
ghost use Rattle.s80_machine.specs.Acts.{TopCountsFew};

use crate::context::{Activation, Context};
use crate::contexts::emptied;
use crate::halt::Halt;
use crate::machine::{Machine, made};
use crate::setting::Setting;
use s80_base::OutOfMemory;
use s80_object::{ObjectFault, Objects, Value};
use s80_prims::Stop;

/// A block's object, its home and its start.
#[derive(Clone, Copy, Debug)]
pub(crate) struct Block {
    pub object: u32,
    pub home: Value,
    pub start: u32,
}

impl<'a> Machine<'a> {
    /// Activates a method by its number. Its home is an object where it holds a real block.
    #[inline(always)]
    pub(crate) fn activate_method(
        &mut self,
        on: &Setting<'a>,
        method: u32,
        receiver: Value,
        arguments: Vec<Value>,
    ) -> Result<(), Halt>
        ensures { (s : State) (key : Key) (code : Code) → Shows (given_of on.now) self.old s → slice_get s.world.keys method ≡ Some key → number_in s.world key ≡ method
            → code_for on.now.methods.now on.now.doit.now key ≡ Some code → length arguments.items ≤ code.temporaries
            → Came (given_of on.now) (started on.now.classes.now on.now.methods.now on.now.doit.now on.now.budget key code receiver
            (arguments.items ++ replicate (code.temporaries - length arguments.items) Nil) s.contexts s.world) self.new result }
    {
        let activated = self.methods.get(method).ok_or(Halt::Stuck)?;
        let count = activated.code.temporaries;
        if activated.holds_block {
            let home = make_home(&mut self.objects, method, receiver, count, &arguments);
            let Value::Object(home) = made(on.alloc, home)? else {
                return Err(Halt::Stuck);
            };
            self.begin(Context {
                method,
                receiver,
                activation: Activation::Home(home),
                place: 0,
                stack: emptied(arguments),
            })
        } else {
            let temporaries = with_nils(arguments, count)?;
            let stack = self.contexts.take_room(on.alloc);
            self.begin(Context {
                method,
                receiver,
                activation: Activation::Own(temporaries),
                place: 0,
                stack,
            })
        }
    }

    // Begins an activation, which becomes the active one.
    #[inline(always)]
    fn begin(&mut self, context: Context) -> Result<(), Halt>
        ensures { (on : Given) (s : State) → Shows on self.old s → Came on (Goes (record { contexts = context ∷ s.contexts; world = s.world })) self.new result }
    {
        self.contexts.begin(context)?;
        Ok(())
    }

    /// A block that takes so many arguments.
    pub(crate) fn block_with(&self, v: Value, count: usize) -> Option<Block>
        ensures { IsBlock (block_with self.now.objects v count) result }
    {
        let Value::Object(object) = v else {
            return None;
        };
        let (home, start, arguments) = self.objects.block_parts(v)?;
        if usize::from(arguments) != count {
            return None;
        }
        Some(Block {
            object,
            home,
            start,
        })
    }

    /// Activates a block, with its arguments on its stack.
    pub(crate) fn activate_block(
        &mut self,
        on: &Setting<'a>,
        block: Block,
        arguments: Vec<Value>,
    ) -> Result<(), Halt>
        ensures { (s : State) → Shows (given_of on.now) self.old s
            → Came (given_of on.now) (block_activated on.now.classes.now on.now.methods.now on.now.doit.now on.now.budget (block_of block (length arguments.items)) arguments.items s.contexts s.world) self.new result }
    {
        self.tick(on.budget)?;
        if self.contexts.is_active(block.object) {
            return Err(Halt::stop(on.alloc, Stop::BlockActive));
        }
        self.check_depth()?;
        let Value::Object(home) = block.home else {
            return Err(Halt::Stuck);
        };
        let (method, receiver) = self.objects.home_parts(block.home).ok_or(Halt::Stuck)?;
        self.begin(Context {
            method,
            receiver,
            activation: Activation::Block {
                block: block.object,
                home,
            },
            place: block.start,
            stack: arguments,
        })
    }

    /// Makes a block of the active context's home. The number of its arguments is on top of the stack, and the context below it; it begins
    /// behind the jump of two bytes that stands next.
    #[inline(never)]
    pub(crate) fn make_block(&mut self, next: u32) -> Result<(), Halt>
        requires home { TopHasHome self.old }
        requires few { TopCountsFew self.old }
        ensures { (on : Given) (c : Context) (rest : List Context) (w : World) → next + 2 < 2 ^ 32 → Shows on self.old (at_place c next rest w)
            → Came on (copy_turn on.table on.methods on.code on.budget c next rest w c.stack) self.new result }
    {
        let count = self.contexts.pop()?;
        self.contexts.pop()?;
        let count = argument_count(count).ok_or(Halt::Stuck)?;
        let active = self.contexts.active().ok_or(Halt::Stuck)?;
        let home = active.activation.home().ok_or(Halt::Stuck)?;
        let start = next.checked_add(2).ok_or(Halt::Stuck)?;
        self.push_block(home, start, count)
    }

    // Makes a block of a home, for the active context's stack.
    fn push_block(&mut self, home: u32, start: u32, count: u8) -> Result<(), Halt>
        requires { IsHome (body_at self.old.objects (Object home)) }
        ensures { (on : Given) (c : Context) (rest : List Context) (w : World) → Shows on self.old (record { contexts = c ∷ rest; world = w })
            → Came on (with_room w (block (Object home) start count) (goes_on c c.place (Object (length w.objects.bodies) ∷ c.stack) rest)) self.new result }
    {
        let block = made(
            self.alloc,
            self.objects.make_block(Value::Object(home), start, count),
        )?;
        self.contexts.push(block)
    }
}

// How many arguments a block takes.
fn argument_count(count: Value) -> Option<u8>
    ensures { result ≡ number_to 255 count }
{
    match count {
        Value::Small(count) => u8::try_from(count).ok(),
        _ => None,
    }
}

// The arguments, and nil for each further temporary.
#[inline(always)]
fn with_nils(mut arguments: Vec<Value>, count: u8) -> Result<Vec<Value>, OutOfMemory>
    ensures { IfOk result (λ temporaries. length arguments.items ≤ count → temporaries.items ≡ arguments.items ++ replicate (count - length arguments.items) Nil) }
{
    if arguments.len() == usize::from(count) {
        return Ok(arguments);
    }
    arguments.resize(usize::from(count), Value::Nil)?;
    Ok(arguments)
}

// A home of a method that has so many temporaries, the arguments first.
fn make_home(
    objects: &mut Objects,
    method: u32,
    receiver: Value,
    count: u8,
    arguments: &[Value],
) -> Result<Value, ObjectFault>
    ensures { length arguments.now ≤ count → Makes objects.old (home method receiver (arguments.now ++ replicate (count - length arguments.now) Nil)) objects.new result }
{
    let home = objects.make_home(method, receiver, count)?;
    for (i, argument) in arguments.iter().enumerate() {
        let Ok(i) = u32::try_from(i) else {
            return Err(ObjectFault::Range);
        };
        objects.set_field(home, i, *argument)?;
    }
    Ok(home)
}
