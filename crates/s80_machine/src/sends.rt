// Messages.
ghost use Rattle.std.specs.Prelude.{◌≡◌, ◌<◌, ◌∷◌, ◌==◌, ℕ, All, IfOk, IfSome, List, [], None, Some, drop, false, get_or, length, slice_get, if◌then◌else◌};
ghost use Rattle.std.specs.Option.{option_map, option_map_or};
ghost use Rattle.s80_class.specs.Table.{IsClass, IsSuperclass, class_name};
ghost use Rattle.s80_object.specs.declared.value.Value.{Value};
ghost use Rattle.s80_prims.specs.Arithmetic.{arithmetic, ranged, truth};
ghost use Rattle.s80_prims.specs.Classes.{class_of};
ghost use Rattle.s80_prims.specs.Known.{AreKnown, IsKnown};
ghost use Rattle.s80_prims.specs.Primitives.{same};
ghost use Rattle.s80_prims.specs.declared.stop.Stop.TheVariants.{NotUnderstood};
ghost use Rattle.s80_lex.specs.Selector.{IsSelectorOf};
ghost use Rattle.s80_machine.specs.declared.machine.Machine.{Machine as MachineValue};
ghost use Rattle.s80_machine.specs.Turn.{Context, waiting, State, message_off};
ghost use Rattle.s80_machine.specs.World.{Key, World, method, number_in};
ghost use Rattle.s80_class.specs.Lookup.{Place, places_up, IsFound};
ghost use Rattle.s80_machine.specs.Sites.{IsSentAt, IsTarget};
ghost use Rattle.s80_code.specs.declared.code.Code.{Code};
ghost use Rattle.s80_code.specs.Special.{special_arguments};
ghost use Rattle.s80_machine.specs.Shared.{at_once, block_with, does_not_understand, integer_primitives, is_value, of_integers, parameters, selector_of, sent_in};
ghost use Rattle.s80_machine.specs.Step.{special_turn};
ghost use Rattle.s80_machine.specs.Seen.{IsBlock};
ghost use Rattle.s80_machine.specs.Came.{Came, IsGiven, IsReady, IsSet, Shows, ShowsWorld, TopIsKnown, above, at_place, given_of, places, sends};
ghost use Rattle.s80_machine.specs.Messages.{IsKnownMessage, IsPlain, MakesMessage, ReceiverIsKnown, Takes, TopSends, activates, along, finds, own_place, performs, refuses, runs, runs_method, runs_primitive, sends_on};

use crate::activations::Block;
use crate::halt::Halt;
use crate::machine::{Machine, made};
use crate::selectors::integer_primitive;
use crate::setting::{Line, Setting};
use crate::sites::{SPECIAL, Sending, Target, row_of};
use s80_base::{OutOfMemory, Side, Text};
use s80_class::Found;
use s80_code::special_arguments;
use s80_lex::parameters_of;
use s80_object::{Objects, Value};
use s80_prims::{Applied, Stop, apply, arithmetic, same, truth};
use s80_verify::Verified;
use std::alloc::Global;

/// The primitive that activates a block.
const ACTIVATES_BLOCK: u8 = 81;

/// The primitive that sends a message.
const SENDS_MESSAGE: u8 = 83;

/// The number of `==` among the messages that have bytes of their own.
const IDENTITY: u8 = 22;

/// The number of `class`.
const CLASS: u8 = 23;

/// The number of `value`.
const VALUE_ALONE: u8 = 25;

/// The number of `value:`.
const VALUE_WITH: u8 = 26;

impl<'a> Machine<'a> {
    /// Sends the message of a literal of the active context's code, its selector, to the receiver below its arguments on the stack.
    #[inline(always)]
    pub(crate) fn send(
        &mut self,
        on: &Setting<'a>,
        literal: u8,
        selector: &Text,
        count: u8,
    ) -> Result<(), Halt>
        requires ready { IsReady on.now }
        requires setting { IsSet (given_of on.now) }
        requires known { TopIsKnown on.now.classes.now self.old }
        requires selector { IsSelectorOf count selector.now }
        requires sends { TopSends (given_of on.now) literal selector.now self.old }
        ensures { (c : Context) (rest : List Context) (w : World) (next : ℕ) → Shows (given_of on.now) self.old (at_place c next rest w)
            → Came (given_of on.now) (message_off count [] c.stack (λ r arguments stack. sends (given_of on.now) (places (given_of on.now) w r) selector.now r arguments (waiting c next stack ∷ rest) w)) self.new result }
    {
        let method = self.contexts.active().ok_or(Halt::Stuck)?.method;
        let (receiver, arguments) = self.contexts.take_message(on.alloc, count)?;
        self.send_at(on, row_of(method), literal, selector, receiver, arguments)
    }

    // Sends a message by its row and its place there. Where it went before to such a class it goes again.
    #[inline(always)]
    fn send_at(
        &mut self,
        on: &Setting<'a>,
        row: usize,
        place: u8,
        selector: &Text,
        receiver: Value,
        arguments: Vec<Value>,
    ) -> Result<(), Halt>
        requires ready { IsReady on.now }
        requires setting { IsSet (given_of on.now) }
        requires known { IsKnownMessage on.now.classes.now self.old.objects receiver arguments.items }
        requires selector { IsSelectorOf (length arguments.items) selector.now }
        ensures { (c : Context) (rest : List Context) (w : World) → Shows (given_of on.now) self.old (record { contexts = c ∷ rest; world = w })
            → IsSentAt (given_of on.now) w.keys row place selector.now
            → Came (given_of on.now) (sends (given_of on.now) (places (given_of on.now) w receiver) selector.now receiver arguments.items (c ∷ rest) w) self.new result }
    {
        let (class, side) = on.class_of(&self.objects, receiver).ok_or(Halt::Stuck)?;
        let sending = Sending {
            row,
            place,
            class,
            side,
        };
        self.tick(on.budget)?;
        match self.sites.get(sending) {
            Some(target) => self.go_again(on, sending, target, selector, receiver, arguments),
            None => self.find_and_run(on, sending, selector, receiver, arguments),
        }
    }

    // Goes where the message went before.
    #[inline(always)]
    fn go_again(
        &mut self,
        on: &Setting<'a>,
        sending: Sending,
        target: Target<'a>,
        selector: &Text,
        receiver: Value,
        arguments: Vec<Value>,
    ) -> Result<(), Halt>
        requires ready { IsReady on.now }
        requires setting { IsSet (given_of on.now) }
        requires known { IsKnownMessage on.now.classes.now self.old.objects receiver arguments.items }
        requires selector { IsSelectorOf (length arguments.items) selector.now }
        requires class { IsClass on.now.classes.now.names sending.class }
        ensures { (c : Context) (rest : List Context) (w : World) → Shows (given_of on.now) self.old (record { contexts = c ∷ rest; world = w })
            → IsTarget (given_of on.now) w.keys selector.now (places_up on.now.classes.now sending.class sending.side) target.entry
            → Came (given_of on.now) (runs (given_of on.now) (performs (given_of on.now) receiver arguments.items (c ∷ rest)) (places_up on.now.classes.now sending.class sending.side)
            selector.now receiver arguments.items (c ∷ rest) w) self.new result }
    {
        match target {
            Target::Numbered(number) => self.activate_again(on, number, receiver, arguments),
            Target::Primitive(found) => {
                let line = Line {
                    class: Some(sending.class),
                    side: sending.side,
                };
                self.run_found(on, line, Some(found), selector, receiver, arguments)
            }
            Target::Handler(found) => self.hand_on(on, found, selector, receiver, arguments),
        }
    }

    // Activates the method to which the message went before.
    #[inline(always)]
    fn activate_again(
        &mut self,
        on: &Setting<'a>,
        number: u32,
        receiver: Value,
        arguments: Vec<Value>,
    ) -> Result<(), Halt>
        ensures { (s : State) (key : Key) (code : Code) → Shows (given_of on.now) self.old s → slice_get s.world.keys number ≡ Some key → number_in s.world key ≡ number
            → Takes (given_of on.now) key code arguments.items
            → Came (given_of on.now) (activates (given_of on.now) key code receiver arguments.items s.contexts s.world) self.new result }
    {
        self.check_depth()?;
        self.activate_method(on, number, receiver, arguments)
    }

    // Looks a message up, runs the method that it finds, and notes where it went.
    #[inline(never)]
    fn find_and_run(
        &mut self,
        on: &Setting<'a>,
        sending: Sending,
        selector: &Text,
        receiver: Value,
        arguments: Vec<Value>,
    ) -> Result<(), Halt>
        requires ready { IsReady on.now }
        requires setting { IsSet (given_of on.now) }
        requires known { IsKnownMessage on.now.classes.now self.old.objects receiver arguments.items }
        requires selector { IsSelectorOf (length arguments.items) selector.now }
        requires class { IsClass on.now.classes.now.names sending.class }
        ensures { (c : Context) (rest : List Context) (w : World) → Shows (given_of on.now) self.old (record { contexts = c ∷ rest; world = w })
            → IsSentAt (given_of on.now) w.keys sending.row sending.place selector.now
            → Came (given_of on.now) (runs (given_of on.now) (performs (given_of on.now) receiver arguments.items (c ∷ rest)) (places_up on.now.classes.now sending.class sending.side)
            selector.now receiver arguments.items (c ∷ rest) w) self.new result }
    {
        let found = on.find(sending.class, sending.side, selector);
        match plain(found) {
            Some(plain) => self.activate_noting(on, sending, plain, selector, receiver, arguments),
            None => self.run_noting(on, sending, found, selector, receiver, arguments),
        }
    }

    // Runs the method that was found, or sends the message on, and notes it.
    #[inline(never)]
    fn run_noting(
        &mut self,
        on: &Setting<'a>,
        sending: Sending,
        found: Option<Found<'a, Verified>>,
        selector: &Text,
        receiver: Value,
        arguments: Vec<Value>,
    ) -> Result<(), Halt>
        requires ready { IsReady on.now }
        requires setting { IsSet (given_of on.now) }
        requires known { IsKnownMessage on.now.classes.now self.old.objects receiver arguments.items }
        requires selector { IsSelectorOf (length arguments.items) selector.now }
        requires class { IsClass on.now.classes.now.names sending.class }
        ensures { (c : Context) (rest : List Context) (w : World) → Shows (given_of on.now) self.old (record { contexts = c ∷ rest; world = w })
            → IsSentAt (given_of on.now) w.keys sending.row sending.place selector.now
            → IsFound (finds (given_of on.now) selector.now (places_up on.now.classes.now sending.class sending.side)) found.entry
            → Came (given_of on.now) (runs (given_of on.now) (performs (given_of on.now) receiver arguments.items (c ∷ rest)) (places_up on.now.classes.now sending.class sending.side)
            selector.now receiver arguments.items (c ∷ rest) w) self.new result }
    {
        let Some(found) = found else {
            return self.send_on_noting(on, sending, selector, receiver, arguments);
        };
        self.sites
            .note(on.alloc, sending, Target::Primitive(found))?;
        let line = Line {
            class: Some(sending.class),
            side: sending.side,
        };
        self.run_found(on, line, Some(found), selector, receiver, arguments)
    }

    // Sends a message on that isn't understood, and notes it.
    #[inline(never)]
    fn send_on_noting(
        &mut self,
        on: &Setting<'a>,
        sending: Sending,
        selector: &Text,
        receiver: Value,
        arguments: Vec<Value>,
    ) -> Result<(), Halt>
        requires ready { IsReady on.now }
        requires setting { IsSet (given_of on.now) }
        requires known { IsKnownMessage on.now.classes.now self.old.objects receiver arguments.items }
        requires class { IsClass on.now.classes.now.names sending.class }
        ensures { (c : Context) (rest : List Context) (w : World) → Shows (given_of on.now) self.old (record { contexts = c ∷ rest; world = w })
            → IsSentAt (given_of on.now) w.keys sending.row sending.place selector.now
            → IsFound (finds (given_of on.now) selector.now (places_up on.now.classes.now sending.class sending.side)) None
            → Came (given_of on.now) (sends_on (given_of on.now) (places_up on.now.classes.now sending.class sending.side) selector.now receiver arguments.items (c ∷ rest) w) self.new result }
    {
        let Some(found) = on.find(sending.class, sending.side, &on.unknown) else {
            let halt = not_understood(on, &self.objects, receiver, selector);
            return Err(halt);
        };
        self.sites.note(on.alloc, sending, Target::Handler(found))?;
        self.hand_on(on, found, selector, receiver, arguments)
    }

    // Activates a method that was found, and notes its number.
    #[inline(never)]
    fn activate_noting(
        &mut self,
        on: &Setting<'a>,
        sending: Sending,
        found: Found<'a, Verified>,
        selector: &Text,
        receiver: Value,
        arguments: Vec<Value>,
    ) -> Result<(), Halt>
        requires plain { found.entry.now.code.primitive ≡ 0 }
        ensures { (s : State) → Shows (given_of on.now) self.old s
            → IsSentAt (given_of on.now) s.world.keys sending.row sending.place selector.now
            → IsFound (finds (given_of on.now) selector.now (places_up on.now.classes.now sending.class sending.side)) (Some found.entry)
            → Takes (given_of on.now) (method found.entry.class found.entry.side selector.now) found.entry.entry.now.code arguments.items
            → Came (given_of on.now) (activates (given_of on.now) (method found.entry.class found.entry.side selector.now) found.entry.entry.now.code receiver arguments.items s.contexts s.world) self.new result }
    {
        self.check_depth()?;
        let number = self.methods.number(
            on.alloc,
            found.class,
            found.side,
            selector,
            &found.entry.code,
        )?;
        self.sites
            .note(on.alloc, sending, Target::Numbered(number))?;
        self.activate_method(on, number, receiver, arguments)
    }

    /// Sends a message to the active context's receiver that is looked up above the class of its method.
    pub(crate) fn send_super(
        &mut self,
        on: &Setting<'a>,
        selector: &Text,
        count: u8,
    ) -> Result<(), Halt>
        requires ready { IsReady on.now }
        requires setting { IsSet (given_of on.now) }
        requires known { TopIsKnown on.now.classes.now self.old }
        requires receiver { ReceiverIsKnown on.now.classes.now self.old }
        requires given { All (IsGiven (given_of on.now)) self.old.methods }
        requires selector { IsSelectorOf count selector.now }
        ensures { (c : Context) (rest : List Context) (w : World) (next : ℕ) (key : Key) → Shows (given_of on.now) self.old (at_place c next rest w)
            → slice_get w.keys c.method ≡ Some key
            → Came (given_of on.now) (message_off count [] c.stack (λ r arguments stack. sends (given_of on.now) (above (given_of on.now) key) selector.now c.receiver arguments (waiting c next stack ∷ rest) w)) self.new result }
    {
        let active = self.contexts.active().ok_or(Halt::Stuck)?;
        let (method, receiver) = (active.method, active.receiver);
        let (class, side) = self.place_of(on, method).ok_or(Halt::Stuck)?;
        let (_, arguments) = self.contexts.take_message(on.alloc, count)?;
        self.tick(on.budget)?;
        let line = on.line_above(class, side);
        let found = on.find_along(line, selector);
        self.run_found(on, line, found, selector, receiver, arguments)
    }

    // Where a method stands that was activated; a doIt is one of nil's class.
    fn place_of(&self, on: &Setting<'a>, method: u32) -> Option<(u32, Side)>
        requires ready { IsReady on.now }
        requires setting { IsSet (given_of on.now) }
        requires given { All (IsGiven (given_of on.now)) self.now.methods }
        ensures class { IfSome result (λ place. IsClass on.now.classes.now.names place.0) }
        ensures place { result ≡ option_map (λ m. own_place on.now.classes.now m.key) (slice_get self.now.methods method) }
    {
        let activated = self.methods.get(method)?;
        Some(
            activated
                .place
                .unwrap_or((on.kernel.undefined_object, Side::Instance)),
        )
    }

    /// Sends one of the messages that have bytes of their own: it is answered at once, or activates a block, or is looked up.
    pub(crate) fn send_special(&mut self, on: &Setting<'a>, number: u8) -> Result<(), Halt>
        requires ready { IsReady on.now }
        requires setting { IsSet (given_of on.now) }
        requires known { TopIsKnown on.now.classes.now self.old }
        ensures { (c : Context) (rest : List Context) (w : World) (next : ℕ) → Shows (given_of on.now) self.old (at_place c next rest w)
            → Came (given_of on.now) (message_off (get_or special_arguments number 0) [] c.stack (special_turn on.now.classes.now on.now.methods.now on.now.doit.now on.now.budget number c next rest w)) self.new result }
    {
        let count = special_arguments(number);
        let (receiver, arguments) = self.contexts.take_message(on.alloc, count)?;
        if let Some(answer) = at_once(on, &self.objects, number, receiver, &arguments) {
            return self.contexts.answer(arguments, answer);
        }
        if let Some(block) = self.valued(number, receiver, arguments.len()) {
            return self.activate_block(on, block, arguments);
        }
        let selector = on.special_selector(number).ok_or(Halt::Stuck)?;
        self.send_at(on, SPECIAL, number, selector, receiver, arguments)
    }

    // The block that a special message activates, which `value` and `value:` do.
    fn valued(&self, number: u8, receiver: Value, count: usize) -> Option<Block>
        ensures { IsBlock (if is_value number then block_with self.now.objects receiver count else None) result }
    {
        match number {
            VALUE_ALONE | VALUE_WITH => self.block_with(receiver, count),
            _ => None,
        }
    }

    // Sends a message that is looked up in the receiver's class.
    #[cycle(sending)]
    fn send_to(
        &mut self,
        on: &Setting<'a>,
        selector: &Text,
        receiver: Value,
        arguments: Vec<Value>,
    ) -> Result<(), Halt>
        requires ready { IsReady on.now }
        requires setting { IsSet (given_of on.now) }
        requires known { IsKnownMessage on.now.classes.now self.old.objects receiver arguments.items }
        requires selector { IsSelectorOf (length arguments.items) selector.now }
        ensures { (c : Context) (rest : List Context) (w : World) → Shows (given_of on.now) self.old (record { contexts = c ∷ rest; world = w })
            → Came (given_of on.now) (sends (given_of on.now) (places (given_of on.now) w receiver) selector.now receiver arguments.items (c ∷ rest) w) self.new result }
    {
        let (class, side) = on.class_of(&self.objects, receiver).ok_or(Halt::Stuck)?;
        self.tick(on.budget)?;
        let found = on.find(class, side, selector);
        let class = Some(class);
        self.run_found(
            on,
            Line { class, side },
            found,
            selector,
            receiver,
            arguments,
        )
    }

    // Runs the method that a message found along a line, or sends the message of its primitive. Where none was found the message is sent on.
    #[cycle(sending)]
    fn run_found(
        &mut self,
        on: &Setting<'a>,
        line: Line,
        found: Option<Found<'a, Verified>>,
        selector: &Text,
        receiver: Value,
        arguments: Vec<Value>,
    ) -> Result<(), Halt>
        requires ready { IsReady on.now }
        requires setting { IsSet (given_of on.now) }
        requires known { IsKnownMessage on.now.classes.now self.old.objects receiver arguments.items }
        requires selector { IsSelectorOf (length arguments.items) selector.now }
        requires class { IsSuperclass on.now.classes.now.names line.class }
        ensures { (c : Context) (rest : List Context) (w : World) (at : List Place) → Shows (given_of on.now) self.old (record { contexts = c ∷ rest; world = w })
            → along (given_of on.now) line ≡ at → IsFound (finds (given_of on.now) selector.now at) found.entry
            → Came (given_of on.now) (runs (given_of on.now) (performs (given_of on.now) receiver arguments.items (c ∷ rest)) at selector.now receiver arguments.items (c ∷ rest) w) self.new result }
    {
        let Some(found) = found else {
            return self.send_on(on, line, selector, receiver, arguments);
        };
        match sent_by(on.alloc, &self.objects, found, &arguments)? {
            Some(sent) => self.send_to(on, &sent, receiver, behind_first(arguments)),
            None => self.run_method(on, found, selector, receiver, arguments),
        }
    }

    // Sends a message that isn't understood on: `doesNotUnderstand:` is looked up along the same line, and is given a Message.
    #[inline(never)]
    fn send_on(
        &mut self,
        on: &Setting<'a>,
        line: Line,
        selector: &Text,
        receiver: Value,
        arguments: Vec<Value>,
    ) -> Result<(), Halt>
        requires ready { IsReady on.now }
        requires setting { IsSet (given_of on.now) }
        requires known { IsKnownMessage on.now.classes.now self.old.objects receiver arguments.items }
        requires class { IsSuperclass on.now.classes.now.names line.class }
        ensures { (c : Context) (rest : List Context) (w : World) → Shows (given_of on.now) self.old (record { contexts = c ∷ rest; world = w })
            → Came (given_of on.now) (sends_on (given_of on.now) (along (given_of on.now) line) selector.now receiver arguments.items (c ∷ rest) w) self.new result }
    {
        let Some(found) = on.find_along(line, &on.unknown) else {
            return Err(not_understood(on, &self.objects, receiver, selector));
        };
        self.hand_on(on, found, selector, receiver, arguments)
    }

    // Gives a Message to the method that takes on what isn't understood.
    #[inline(never)]
    fn hand_on(
        &mut self,
        on: &Setting<'a>,
        found: Found<'a, Verified>,
        selector: &Text,
        receiver: Value,
        arguments: Vec<Value>,
    ) -> Result<(), Halt>
        requires ready { IsReady on.now }
        requires setting { IsSet (given_of on.now) }
        requires known { IsKnownMessage on.now.classes.now self.old.objects receiver arguments.items }
        ensures { (c : Context) (rest : List Context) (w : World) (at : List Place) → Shows (given_of on.now) self.old (record { contexts = c ∷ rest; world = w })
            → IsFound (finds (given_of on.now) does_not_understand at) (Some found.entry)
            → Came (given_of on.now) (sends_on (given_of on.now) at selector.now receiver arguments.items (c ∷ rest) w) self.new result }
    {
        let message = self.make_message(on, selector, arguments)?;
        let arguments = vec![in on.alloc; message]?;
        self.run_method(on, found, &on.unknown, receiver, arguments)
    }

    // A message as an object: an Array of its arguments is made, and then the Message of its selector and that Array.
    fn make_message(
        &mut self,
        on: &Setting<'a>,
        selector: &Text,
        arguments: Vec<Value>,
    ) -> Result<Value, Halt>
        requires ready { IsReady on.now }
        requires setting { IsSet (given_of on.now) }
        requires objects { AreKnown on.now.classes.now self.old.objects }
        requires arguments { All (IsKnown on.now.classes.now self.old.objects) arguments.items }
        ensures makes { (w : World) → ShowsWorld (given_of on.now) self.old w → MakesMessage (given_of on.now) selector.now arguments.items w self.old self.new result }
        ensures known { IfOk result (λ m. (r : Value) → IsKnown on.now.classes.now self.old.objects r → IsKnownMessage on.now.classes.now self.new.objects r (m ∷ [])) }
    {
        let array = self
            .objects
            .make_pointers(on.kernel.array, Vec::new(on.alloc), arguments);
        let array = made(on.alloc, array)?;
        let symbol = self.objects.symbol(selector)?;
        let fields = vec![in on.alloc; symbol, array]?;
        let message = self
            .objects
            .make_pointers(on.kernel.message, fields, Vec::new(on.alloc));
        made(on.alloc, message)
    }

    // Runs a method's primitive, or its body. Its primitive sends no message.
    fn run_method(
        &mut self,
        on: &Setting<'a>,
        found: Found<'a, Verified>,
        selector: &Text,
        receiver: Value,
        arguments: Vec<Value>,
    ) -> Result<(), Halt>
        requires ready { IsReady on.now }
        requires setting { IsSet (given_of on.now) }
        requires known { IsKnownMessage on.now.classes.now self.old.objects receiver arguments.items }
        ensures { (c : Context) (rest : List Context) (w : World) → Shows (given_of on.now) self.old (record { contexts = c ∷ rest; world = w })
            → Takes (given_of on.now) (method found.entry.class found.entry.side selector.now) found.entry.entry.now.code arguments.items
            → Came (given_of on.now) (runs_method (given_of on.now) (method found.entry.class found.entry.side selector.now) found.entry.entry.now.code receiver arguments.items (c ∷ rest) w) self.new result }
    {
        match found.entry.code.code().primitive {
            ACTIVATES_BLOCK => match self.block_with(receiver, arguments.len()) {
                Some(block) => self.activate_block(on, block, arguments),
                None => self.activate_found(on, found, selector, receiver, arguments),
            },
            SENDS_MESSAGE => self.activate_found(on, found, selector, receiver, arguments),
            _ => self.run_primitive(on, found, selector, receiver, arguments),
        }
    }

    // Runs a primitive of the table, and where it fails the method.
    fn run_primitive(
        &mut self,
        on: &Setting<'a>,
        found: Found<'a, Verified>,
        selector: &Text,
        receiver: Value,
        arguments: Vec<Value>,
    ) -> Result<(), Halt>
        requires ready { IsReady on.now }
        requires setting { IsSet (given_of on.now) }
        requires known { IsKnownMessage on.now.classes.now self.old.objects receiver arguments.items }
        ensures { (c : Context) (rest : List Context) (w : World) → Shows (given_of on.now) self.old (record { contexts = c ∷ rest; world = w })
            → Takes (given_of on.now) (method found.entry.class found.entry.side selector.now) found.entry.entry.now.code arguments.items
            → Came (given_of on.now) (runs_primitive (given_of on.now) (method found.entry.class found.entry.side selector.now) found.entry.entry.now.code receiver arguments.items (c ∷ rest) w) self.new result }
    {
        let applied = apply(
            on.alloc,
            found.entry.code.code().primitive,
            receiver,
            &arguments,
            &on.kernel,
            on.classes,
            &mut self.objects,
            &mut self.transcript,
        )?;
        match applied {
            Applied::Done(value) => self.contexts.answer(arguments, value),
            Applied::Fails => self.activate_found(on, found, selector, receiver, arguments),
            Applied::Stops(stop) => Err(Halt::stop(on.alloc, stop)),
        }
    }

    // Activates a method that was found.
    fn activate_found(
        &mut self,
        on: &Setting<'a>,
        found: Found<'a, Verified>,
        selector: &Text,
        receiver: Value,
        arguments: Vec<Value>,
    ) -> Result<(), Halt>
        ensures { (s : State) → Shows (given_of on.now) self.old s
            → Takes (given_of on.now) (method found.entry.class found.entry.side selector.now) found.entry.entry.now.code arguments.items
            → Came (given_of on.now) (activates (given_of on.now) (method found.entry.class found.entry.side selector.now) found.entry.entry.now.code receiver arguments.items s.contexts s.world) self.new result }
    {
        self.check_depth()?;
        let (class, side) = (found.class, found.side);
        let method = self
            .methods
            .number(on.alloc, class, side, selector, &found.entry.code)?;
        self.activate_method(on, method, receiver, arguments)
    }
}

// The method that was found, where it has no primitive.
fn plain(found: Option<Found<'_, Verified>>) -> Option<Found<'_, Verified>>
    ensures { IsPlain found.entry result }
{
    let found = found?;
    if found.entry.code.code().primitive == 0 {
        Some(found)
    } else {
        None
    }
}

// What a special message is answered without a look-up; `value` and `value:` never are.
fn at_once(
    on: &Setting<'_>,
    objects: &Objects,
    number: u8,
    r: Value,
    arguments: &[Value],
) -> Option<Value>
    requires ready { IsReady on.now }
    requires setting { IsSet (given_of on.now) }
    requires objects { AreKnown on.now.classes.now objects.now }
    requires receiver { IsKnown on.now.classes.now objects.now r }
    ensures { result ≡ at_once on.now.classes.now objects.now number r arguments.now }
{
    if is_value(number) {
        return None;
    }
    match arguments {
        [] => class_at_once(on, objects, number, r),
        [a] => one_at_once(number, r, *a),
        _ => None,
    }
}

// Whether it is `value` or `value:`.
#[inline(always)]
fn is_value(number: u8) -> bool
    ensures { result ≡ is_value number }
{
    number == VALUE_ALONE || number == VALUE_WITH
}

// The answer to `class`.
fn class_at_once(on: &Setting<'_>, objects: &Objects, number: u8, r: Value) -> Option<Value>
    requires ready { IsReady on.now }
    requires setting { IsSet (given_of on.now) }
    requires objects { AreKnown on.now.classes.now objects.now }
    requires receiver { IsKnown on.now.classes.now objects.now r }
    ensures { result ≡ at_once on.now.classes.now objects.now number r [] }
{
    if number != CLASS {
        return None;
    }
    let (class, side) = on.class_of(objects, r)?;
    Some(Value::ClassRef(class, side))
}

/// The answer to `==`, or of two SmallIntegers to one of their messages.
#[inline(always)]
pub(crate) fn one_at_once(number: u8, r: Value, a: Value) -> Option<Value>
    ensures { result ≡ (if number == 22 then Some (truth (same r a)) else of_integers number r a) }
{
    if number == IDENTITY {
        return Some(truth(same(r, a)));
    }
    of_integers(number, r, a)
}

/// The same of a message that comes before `==`.
#[inline(always)]
pub(crate) fn integers_at_once(number: u8, r: Value, a: Value) -> Option<Value>
    requires { number < 22 }
    ensures { result ≡ (if number == 22 then Some (truth (same r a)) else of_integers number r a) }
{
    of_integers(number, r, a)
}

#[inline(always)]
fn of_integers(number: u8, r: Value, a: Value) -> Option<Value>
    ensures { result ≡ of_integers number r a }
{
    match (r, a) {
        (Value::Small(r), Value::Small(a)) => integers(number, r, a),
        _ => None,
    }
}

// The most frequent messages of two SmallIntegers are answered here, without a call.
#[inline(always)]
fn integers(number: u8, r: i32, a: i32) -> Option<Value>
    ensures { result ≡ arithmetic (get_or integer_primitives number 0) r a }
{
    match number {
        0 => ranged(i64::from(r) + i64::from(a)),
        1 => ranged(i64::from(r) - i64::from(a)),
        2 => Some(truth(r < a)),
        3 => Some(truth(a < r)),
        4 => Some(truth(r <= a)),
        5 => Some(truth(r >= a)),
        6 => Some(truth(r == a)),
        _ => arithmetic(integer_primitive(number), r, a),
    }
}

// A number, where it is a SmallInteger.
#[inline(always)]
fn ranged(n: i64) -> Option<Value>
    ensures { result ≡ ranged n }
{
    if -1_073_741_824 <= n && n < 1_073_741_824 {
        Some(Value::Small(n as i32))
    } else {
        None
    }
}

// The receiver's class doesn't understand the message.
fn not_understood(on: &Setting<'_>, objects: &Objects, receiver: Value, selector: &Text) -> Halt
    requires ready { IsReady on.now }
    requires setting { IsSet (given_of on.now) }
    requires objects { AreKnown on.now.classes.now objects.now }
    requires receiver { IsKnown on.now.classes.now objects.now receiver }
    ensures { (m : MachineValue) (w : World) → ShowsWorld (given_of on.now) m w
        → Came (given_of on.now) (refuses (given_of on.now) (class_of on.now.classes.now objects.now receiver) selector.now w) m (Err result) }
{
    let Some((class, side)) = on.class_of(objects, receiver) else {
        return Halt::Stuck;
    };
    match not_understood_by(on, class, side, selector) {
        Ok(stop) => Halt::stop(on.alloc, stop),
        Err(OutOfMemory) => Halt::Memory,
    }
}

fn not_understood_by(
    on: &Setting<'_>,
    class: u32,
    side: Side,
    selector: &Text,
) -> Result<Stop, OutOfMemory>
    requires class { IsClass on.now.classes.now.names class }
    ensures { IfOk result (λ stop. stop ≡ NotUnderstood (class_name on.now.classes.now class) side selector.now) }
{
    let name = on.classes.at(class).class_name.copy(on.alloc)?;
    Ok(Stop::NotUnderstood(name, side, selector.copy(on.alloc)?))
}

// The selector of the message that a method's primitive sends, where it sends one.
fn sent_by(
    alloc: Global,
    objects: &Objects,
    found: Found<'_, Verified>,
    arguments: &[Value],
) -> Result<Option<Text>, OutOfMemory>
    ensures is { IfOk result (λ sent. sent ≡ (if found.entry.entry.now.code.primitive == 83 then sent_in objects.now arguments.now else None)) }
    ensures takes { IfOk result (λ sent. IfSome sent (IsSelectorOf (length (drop 1 arguments.now)))) }
{
    if found.entry.code.code().primitive == SENDS_MESSAGE {
        sent_in(alloc, objects, arguments)
    } else {
        Ok(None)
    }
}

// The selector that the first argument is, with a parameter for each further one.
fn sent_in(
    alloc: Global,
    objects: &Objects,
    arguments: &[Value],
) -> Result<Option<Text>, OutOfMemory>
    ensures is { IfOk result (λ sent. sent ≡ sent_in objects.now arguments.now) }
    ensures takes { IfOk result (λ sent. IfSome sent (IsSelectorOf (length (drop 1 arguments.now)))) }
{
    match arguments {
        [] => Ok(None),
        [first, further @ ..] => selector_of(alloc, objects, *first, further.len()),
    }
}

// The selector of so many parameters that a symbol is.
fn selector_of(
    alloc: Global,
    objects: &Objects,
    v: Value,
    count: usize,
) -> Result<Option<Text>, OutOfMemory>
    ensures is { IfOk result (λ selector. selector ≡ selector_of objects.now v count) }
    ensures takes { IfOk result (λ selector. IfSome selector (IsSelectorOf count)) }
{
    let Value::Symbol(n) = v else {
        return Ok(None);
    };
    let Some(text) = objects.text_of(Value::Symbol(n)) else {
        return Ok(None);
    };
    if !takes(text, count) {
        return Ok(None);
    }
    Ok(Some(Text::from_bytes(alloc, text)?))
}

// Whether it is a selector of so many parameters.
fn takes(text: &[u8], count: usize) -> bool
    ensures { result ≡ option_map_or (λ n. n == count) (parameters text.now) false }
{
    match parameters_of(text) {
        Some(parameters) => parameters == count,
        None => false,
    }
}

// The values behind the first.
fn behind_first(values: Vec<Value>) -> Vec<Value>
    ensures { result.items ≡ drop 1 values.items }
{
    let mut values = values;
    if values.is_empty() {
        return values;
    }
    values.remove(0);
    values
}
