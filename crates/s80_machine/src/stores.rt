// What instructions read and write: variables of the receiver, temporaries, literals and variables outside.
ghost use Rattle.std.specs.Prelude.{◌≡◌, ◌∷◌, ℕ, List, None, option_and_then, option_copied, slice_get};
ghost use Rattle.std.specs.Option.{option_map};
ghost use Rattle.s80_base.specs.Literal.{literal_of};
ghost use Rattle.s80_class.specs.Table.{Table};
ghost use Rattle.s80_code.specs.Entries.{entries_of, entry_of};
ghost use Rattle.s80_code.specs.declared.instruction.Storage.TheVariants.{Constant};
ghost use Rattle.s80_object.specs.declared.value.Value.{Value};
ghost use Rattle.s80_machine.specs.Turn.{Context, constant_in, given, goes_on, selector_in};
ghost use Rattle.s80_machine.specs.World.{World, field_read, field_set, first_value, outer, outer_value, receiver_variable, temporary, variable_named, with_receiver_variable, with_temporary, with_variable};
ghost use Rattle.s80_machine.specs.Seen.{Given};
ghost use Rattle.s80_machine.specs.Came.{Came, IsReady, Shows, ShowsWorld, Stores, at_place, given_of, left_at, pushes, stores};

use crate::halt::Halt;
use crate::machine::{Machine, made};
use crate::setting::Setting;
use crate::stretch::field;
use s80_base::{Literal, Side, Text};
use s80_code::{Code, Entry, Storage};
use s80_object::Value;

impl<'a> Machine<'a> {
    /// Pushes what an instruction reads.
    pub(crate) fn push_stored(
        &mut self,
        on: &Setting<'a>,
        code: &'a Code,
        storage: Storage,
    ) -> Result<(), Halt>
        requires { IsReady on.now }
        ensures { (c : Context) (rest : List Context) (w : World) (next : ℕ) → Shows (given_of on.now) self.old (at_place c next rest w)
            → Came (given_of on.now) (pushes (given_of on.now) code.now c next rest w storage) self.new result }
    {
        match storage {
            Storage::Receiver(i) => {
                let value = self.receiver_variable(i);
                self.push_found(value)
            }
            Storage::Temporary(i) => {
                let value = self.temporary(i);
                self.push_found(value)
            }
            Storage::Constant(k) => self.push_literal(on, code, k),
            Storage::Variable(k) => {
                let value = self.variable_at(on, code, k);
                self.push_found(value)
            }
        }
    }

    // Pushes a value that is there.
    #[inline(always)]
    fn push_found(&mut self, value: Option<Value>) -> Result<(), Halt>
        ensures { (on : Given) (c : Context) (rest : List Context) (w : World) (next : ℕ) → Shows on self.old (at_place c next rest w)
            → Came on (given value (λ v. goes_on c next (v ∷ c.stack) rest w)) self.new result }
    {
        let value = value.ok_or(Halt::Stuck)?;
        self.contexts.push(value)
    }

    // A literal becomes an object at its first push.
    #[inline(never)]
    fn push_literal(&mut self, on: &Setting<'a>, code: &'a Code, k: u8) -> Result<(), Halt>
        requires { IsReady on.now }
        ensures { (c : Context) (rest : List Context) (w : World) (next : ℕ) → Shows (given_of on.now) self.old (at_place c next rest w)
            → Came (given_of on.now) (pushes (given_of on.now) code.now c next rest w (Constant k)) self.new result }
    {
        let literal = constant(code, k).ok_or(Halt::Stuck)?;
        let method = self.contexts.active().ok_or(Halt::Stuck)?.method;
        let (string, array) = (on.kernel.string, on.kernel.array);
        let value = made(
            on.alloc,
            self.objects.literal(method, k, string, array, literal),
        )?;
        self.contexts.push(value)
    }

    /// Stores a value where an instruction says.
    #[inline(always)]
    pub(crate) fn store(
        &mut self,
        on: &Setting<'a>,
        code: &'a Code,
        storage: Storage,
        value: Value,
    ) -> Result<(), Halt>
        ensures { (c : Context) (rest : List Context) (w : World) (next : ℕ) (stack : List Value) → Shows (given_of on.now) self.old (left_at c next stack rest w)
            → Came (given_of on.now) (stores (given_of on.now) code.now c next rest w storage value stack) self.new result }
    {
        match storage {
            Storage::Receiver(i) => self.set_receiver_variable(i, value),
            Storage::Temporary(i) => self.set_temporary(i, value),
            Storage::Constant(_) => Err(Halt::Stuck),
            Storage::Variable(k) => {
                let entry = entry(code, k).ok_or(Halt::Stuck)?;
                self.set_variable(on, entry, value)
            }
        }
    }

    // A variable of the active context's receiver.
    fn receiver_variable(&self, i: u8) -> Option<Value>
        ensures { (on : Given) (c : Context) (rest : List Context) (w : World) (next : ℕ) → Shows on self.now (at_place c next rest w) → result ≡ receiver_variable w c.receiver i }
    {
        match self.contexts.active()?.receiver {
            Value::Object(n) => field(&self.objects, n, i),
            Value::ClassRef(c, Side::Instance) => {
                Some(self.variables.of_class_side(c, i).unwrap_or(Value::Nil))
            }
            _ => None,
        }
    }

    fn set_receiver_variable(&mut self, i: u8, value: Value) -> Result<(), Halt>
        ensures { (on : Given) (c : Context) (rest : List Context) (w : World) (next : ℕ) (stack : List Value) → Shows on self.old (left_at c next stack rest w)
            → Came on (given (with_receiver_variable w c.receiver i value) (goes_on c next stack rest)) self.new result }
    {
        let active = self.contexts.active().ok_or(Halt::Stuck)?;
        match active.receiver {
            Value::Object(n) => self.set_field(n, i, value),
            Value::ClassRef(c, Side::Instance) => {
                self.variables.set_of_class_side(c, i, value)?;
                Ok(())
            }
            _ => Err(Halt::Stuck),
        }
    }

    // A temporary of the active context.
    fn temporary(&self, i: u8) -> Option<Value>
        ensures { (on : Given) (c : Context) (rest : List Context) (w : World) (next : ℕ) → Shows on self.now (at_place c next rest w) → result ≡ temporary w c.activation i }
    {
        self.contexts.active()?.temporary(&self.objects, i)
    }

    #[inline(always)]
    fn set_temporary(&mut self, i: u8, value: Value) -> Result<(), Halt>
        ensures { (on : Given) (c : Context) (rest : List Context) (w : World) (next : ℕ) (stack : List Value) → Shows on self.old (left_at c next stack rest w)
            → Came on (given (with_temporary w c.activation i value) (λ p. goes_on (record c { activation = p.1 }) next stack rest p.0)) self.new result }
    {
        let active = self.contexts.active().ok_or(Halt::Stuck)?;
        match active.activation.home() {
            Some(home) => self.set_field(home, i, value),
            None => self.contexts.set_temporary(i, value),
        }
    }

    fn set_field(&mut self, n: u32, i: u8, value: Value) -> Result<(), Halt>
        ensures { (on : Given) (w : World) → ShowsWorld on self.old w → Stores on (field_set w n i value) self.old self.new result }
    {
        match self
            .objects
            .set_field(Value::Object(n), u32::from(i), value)
        {
            Ok(()) => Ok(()),
            Err(_) => Err(Halt::Stuck),
        }
    }

    // The value of the variable that an entry of the literal frame names.
    fn variable_at(&self, on: &Setting<'a>, code: &Code, k: u8) -> Option<Value>
        ensures { (w : World) → ShowsWorld (given_of on.now) self.now w
            → result ≡ option_map w.variables (option_and_then variable_named (slice_get (entries_of code.now.literals) k)) }
    {
        self.variable(on, entry(code, k)?)
    }

    fn variable(&self, on: &Setting<'a>, entry: &Entry) -> Option<Value>
        ensures { (w : World) → ShowsWorld (given_of on.now) self.now w → result ≡ option_map w.variables (variable_named (entry_of entry.now)) }
    {
        match entry {
            Entry::ClassVar(class, name) => {
                Some(self.variables.of_class(class, name).unwrap_or(Value::Nil))
            }
            Entry::Outer(name) => Some(match self.variables.outer(name) {
                Some(value) => value,
                None => outer_value(on, name),
            }),
            _ => None,
        }
    }

    fn set_variable(&mut self, on: &Setting<'a>, entry: &Entry, value: Value) -> Result<(), Halt>
        ensures { (w : World) → ShowsWorld (given_of on.now) self.old w → Stores (given_of on.now) (option_map (λ u. with_variable w u value) (variable_named (entry_of entry.now))) self.old self.new result }
    {
        match entry {
            Entry::ClassVar(class, name) => {
                self.variables.set_of_class(on.alloc, class, name, value)?;
            }
            Entry::Outer(name) => self.variables.set_outer(on.alloc, name, value)?,
            _ => return Err(Halt::Stuck),
        }
        Ok(())
    }
}

// What an outer name is before it is assigned.
fn outer_value(on: &Setting<'_>, name: &Text) -> Value
    ensures { result ≡ first_value on.now.classes.now (outer name.now) }
{
    match on.classes.find(name) {
        Some(class) => Value::ClassRef(class, Side::Instance),
        None => system_value(name.bytes()),
    }
}

// What an outer name is that names no class.
fn system_value(name: &[u8]) -> Value
    ensures { (t : Table) → result ≡ outer_value t name.now None }
{
    if name == b"Smalltalk".as_slice() {
        Value::Smalltalk
    } else if name == b"Transcript".as_slice() {
        Value::Transcript
    } else {
        Value::Nil
    }
}

// An entry of the literal frame.
fn entry(code: &Code, k: u8) -> Option<&Entry>
    ensures { option_map entry_of (option_copied result) ≡ slice_get (entries_of code.now.literals) k }
{
    if usize::from(k) < code.literals.count() {
        Some(code.literals.at(usize::from(k)))
    } else {
        None
    }
}

fn constant(code: &Code, k: u8) -> Option<&Literal>
    ensures { option_map literal_of (option_copied result) ≡ option_and_then constant_in (slice_get (entries_of code.now.literals) k) }
{
    match entry(code, k)? {
        Entry::Const(literal) => Some(literal),
        _ => None,
    }
}

/// The selector at an entry of the literal frame.
pub(crate) fn selector_at(code: &Code, k: u8) -> Option<&Text>
    ensures { option_copied result ≡ option_and_then selector_in (slice_get (entries_of code.now.literals) k) }
{
    match constant(code, k)? {
        Literal::Symbol(selector) => Some(selector),
        _ => None,
    }
}
