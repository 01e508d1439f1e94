// The objects of a doIt.
ghost use Rattle.std.specs.Prelude.{◌≡◌, ◌≤◌, ◌⊎◌, ℕ, IfErr, IfOk, IfSome, OnErr, OnOk, option_copied, option_and_then, option_map, replicate, is_none};
ghost use Rattle.s80_base.specs.Literal.{literal_of};
ghost use Rattle.s80_object.specs.declared.value.BodyKind.TheVariants.{Pointers};
ghost use Rattle.s80_object.specs.declared.value.Value.TheVariants.{Nil};
ghost use Rattle.s80_object.specs.Body.{blank, block, bytes, bytes_of, cost as cost_of, home, kind_of, pointers, words_of, word_limit};
ghost use Rattle.s80_object.specs.Objects.{IsHome, IsPut, Makes, block_parts_of, body_at, field, field_put, home_parts_of, item, item_put, no_objects, number_kind_of, put_with, size_of, text_of};
ghost use Rattle.s80_object.specs.Literal.{PushesLiteral, made_before, named};
ghost use Rattle.s80_object.specs.Seen.{tree_of};

mod literal;

use crate::bodies::Bodies;
use crate::body::{Body, blank_cost, nils};
use crate::numbers::Numbers;
use crate::pushes::Pushes;
use crate::room::room_behind;
use crate::texts::Texts;
use crate::value::{BodyKind, ObjectFault, Value};
use s80_base::{Literal, NumberKind, OutOfMemory, Text};
use std::alloc::Global;
use std::marker::Model;

/// The objects of one doIt, its homes and blocks among them, with the symbols, numbers and literals that it has come to.
/// At most 2^20 words are held.
#[derive(Debug, Drop)]
pub struct Objects {
    alloc: Global,
    bodies: Bodies,
    symbols: Texts,
    numbers: Numbers,
    literals: Pushes,
}

impl Model for Objects {
    ghost use Rattle.s80_object.specs.Objects.{State};

    ghost Value = { State };

    ghost view = { λ o. record { bodies = o.bodies; symbols = o.symbols; numbers = o.numbers; literals = o.literals } };
}

impl Objects {
    /// No objects. Takes no memory.
    pub fn empty(alloc: Global) -> Self
        ensures { result ≡ no_objects }
    {
        Objects {
            alloc,
            bodies: Bodies::empty(alloc),
            symbols: Texts::empty(alloc),
            numbers: Numbers::empty(alloc),
            literals: Pushes::empty(alloc),
        }
    }

    /// How many words are held.
    pub fn words(&self) -> u64
        ensures words { result ≡ words_of self.now.bodies }
        ensures limit { result ≤ word_limit }
    {
        self.bodies.words()
    }

    /// A new object of a class, with so many named fields that are nil, and so many items that are nil or 0.
    pub fn make(
        &mut self,
        class: u32,
        kind: BodyKind,
        named: u32,
        indexed: u32,
    ) -> Result<Value, ObjectFault>
        requires { (kind ≡ Pointers) ⊎ (named ≡ 0) }
        ensures { Makes self.old (blank class kind named indexed) self.new result }
    {
        self.bodies.check(blank_cost(kind, named, indexed))?;
        let body = Body::blank(self.alloc, class, kind, named, indexed)?;
        Ok(self.bodies.push(body)?)
    }

    /// A new object of a class, with these fields and items.
    pub fn make_pointers(
        &mut self,
        class: u32,
        fields: Vec<Value>,
        items: Vec<Value>,
    ) -> Result<Value, ObjectFault>
        ensures { Makes self.old (pointers class fields.items items.items) self.new result }
    {
        let cost = 2 + fields.len() as u64 + items.len() as u64;
        self.bodies.check(cost)?;
        Ok(
            self.bodies.push(Body::Pointers {
                class,
                fields,
                items,
            })?,
        )
    }

    /// A new object of bytes that holds these.
    pub fn make_bytes(&mut self, class: u32, text: &Text) -> Result<Value, ObjectFault>
        ensures { Makes self.old (bytes class text.now) self.new result }
    {
        let cost = 2 + (text.bytes().len() as u64 + 3) / 4;
        self.bodies.check(cost)?;
        let body = Body::of_bytes(self.alloc, class, text.bytes())?;
        Ok(self.bodies.push(body)?)
    }

    /// The home of an activation of a method, with so many temporaries that are nil.
    pub fn make_home(
        &mut self,
        method: u32,
        receiver: Value,
        temporaries: u8,
    ) -> Result<Value, ObjectFault>
        ensures { Makes self.old (home method receiver (replicate temporaries Nil)) self.new result }
    {
        self.bodies.check(32)?;
        let temporaries = nils(self.alloc, usize::from(temporaries))?;
        Ok(
            self.bodies.push(Body::Home {
                method,
                receiver,
                temporaries,
            })?,
        )
    }

    /// A block of a home: it starts at a place of the home's method, and takes so many arguments.
    pub fn make_block(
        &mut self,
        home: Value,
        start: u32,
        arguments: u8,
    ) -> Result<Value, ObjectFault>
        requires { IsHome (body_at self.old home) }
        ensures { Makes self.old (block home start arguments) self.new result }
    {
        self.bodies.check(8)?;
        Ok(
            self.bodies.push(Body::Block {
                home,
                start,
                arguments,
            })?,
        )
    }

    /// A field of an object, or a temporary of a home, from 0 on. Takes no memory.
    pub fn field(&self, v: Value, i: u32) -> Result<Value, ObjectFault>
        ensures { result ≡ field self.now v i }
    {
        match self.body(v) {
            Some(body) => body.field(i),
            None => Err(ObjectFault::Kind),
        }
    }

    /// Sets a field of an object, or a temporary of a home. Takes no memory.
    pub fn set_field(&mut self, v: Value, i: u32, to: Value) -> Result<(), ObjectFault>
        ensures { IsPut (put_with (λ b. field_put b i to) self.old v) self.old v self.new result }
    {
        match v {
            Value::Object(n) => self.bodies.set_field(n, i, to),
            _ => Err(ObjectFault::Kind),
        }
    }

    /// An item of an object, from 1 on. Takes no memory.
    pub fn item(&self, v: Value, i: u32) -> Result<Value, ObjectFault>
        ensures { result ≡ item self.now v i }
    {
        match self.body(v) {
            Some(body) => body.item(i),
            None => Err(ObjectFault::Kind),
        }
    }

    /// Sets an item of an object: any value, or a number that fits the object's kind. Takes no memory.
    pub fn set_item(&mut self, v: Value, i: u32, to: Value) -> Result<(), ObjectFault>
        ensures { IsPut (put_with (λ b. item_put b i to) self.old v) self.old v self.new result }
    {
        match v {
            Value::Object(n) => self.bodies.set_item(n, i, to),
            _ => Err(ObjectFault::Kind),
        }
    }

    /// How many items an object has. Takes no memory.
    pub fn size_of(&self, v: Value) -> Result<u32, ObjectFault>
        ensures { result ≡ size_of self.now v }
    {
        match self.body(v) {
            Some(body) => body.size(),
            None => Err(ObjectFault::Kind),
        }
    }

    /// The class of an object that `make` or `literal` made, and what its items are.
    pub fn class_at(&self, v: Value) -> Option<(u32, BodyKind)>
        ensures { result ≡ option_and_then kind_of (body_at self.now v) }
    {
        self.body(v)?.class()
    }

    /// The items of an object of bytes. Takes no memory.
    pub fn bytes_at(&self, v: Value) -> Option<&[u8]>
        ensures { option_copied result ≡ option_and_then bytes_of (body_at self.now v) }
    {
        self.body(v)?.bytes()
    }

    /// The text of a symbol or of a number that is kept as its text.
    pub fn text_of(&self, v: Value) -> Option<&[u8]>
        ensures { option_copied result ≡ text_of self.now v }
    {
        match v {
            Value::Symbol(n) => self.symbols.get(n),
            Value::Number(n) => self.numbers.text(n),
            _ => None,
        }
    }

    /// The kind of a number that is kept as its text.
    pub fn number_kind(&self, v: Value) -> Option<NumberKind>
        ensures { result ≡ number_kind_of self.now v }
    {
        match v {
            Value::Number(n) => self.numbers.kind(n),
            _ => None,
        }
    }

    /// A home's method and receiver.
    pub fn home_parts(&self, v: Value) -> Option<(u32, Value)>
        ensures { result ≡ option_and_then home_parts_of (body_at self.now v) }
    {
        self.body(v)?.home_parts()
    }

    /// A block's home, its start, and how many arguments it takes.
    pub fn block_parts(&self, v: Value) -> Option<(Value, u32, u8)>
        ensures { result ≡ option_and_then block_parts_of (body_at self.now v) }
    {
        self.body(v)?.block_parts()
    }

    /// The symbol with this text. When out of memory, nothing is changed.
    pub fn symbol(&mut self, text: &Text) -> Result<Value, OutOfMemory>
        ensures ok { IfOk result (λ v. (self.new, v) ≡ named text.now self.old) }
        ensures err { OnErr result (self.new ≡ self.old) }
    {
        let number = self.symbols.number(self.alloc, text.bytes())?;
        Ok(Value::Symbol(number))
    }

    /// The value of a literal that stands at an entry of a method's frame, where strings and arrays are of these classes. At
    /// its first push a string or an array becomes an object, with all that stands inside it; later pushes give the same one.
    pub fn literal(
        &mut self,
        method: u32,
        entry: u8,
        string: u32,
        array: u32,
        l: &Literal,
    ) -> Result<Value, ObjectFault>
        ensures { PushesLiteral (made_before method entry self.old) self.old method entry string array (literal_of l.now) self.new result }
    {
        if let Some(value) = self.literals.get(method, entry) {
            return Ok(value);
        }
        if room_behind(self.bodies.room(), l).is_none() {
            return Err(ObjectFault::Full(self.bodies.words()));
        }
        let marks = self.marks();
        match self.push_first(method, entry, string, array, l) {
            Ok(value) => Ok(value),
            Err(_) => {
                self.take_back(marks);
                Err(ObjectFault::Memory)
            }
        }
    }

    fn body(&self, v: Value) -> Option<&Body>
        ensures body { option_map tree_of (option_copied result) ≡ body_at self.now v }
        ensures small { IfSome result (λ b. cost_of (tree_of b.now) ≤ word_limit) }
    {
        match v {
            Value::Object(n) => self.bodies.get(n),
            _ => None,
        }
    }
}
