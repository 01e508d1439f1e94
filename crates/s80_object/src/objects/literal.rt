// A literal becomes a value, with the objects that it is.
ghost use Rattle.std.specs.Prelude.{◌≡◌, ◌+◌, ◌≤◌, ◌∷◌, [], IfOk, OnErr, None};
ghost use Rattle.s80_base.specs.Literal.{literal_of, literals_of};
ghost use Rattle.s80_object.specs.Body.{bytes, cost as cost_of, pointers, words_of, word_limit};
ghost use Rattle.s80_object.specs.Literal.{built, built_all, is_object as names_object, made, made_before, noted, opaque_number};
ghost use Rattle.s80_object.specs.Objects.{State};
ghost use Rattle.s80_object.specs.Steps.{AreMarks, IsBefore, words_in, words_in_all};

use crate::body::Body;
use crate::objects::Objects;
use crate::value::Value;
use s80_base::{Literal, Literals, NumberKind, OutOfMemory, Text};

/// How much stands before a literal's first push.
#[derive(Drop)]
pub(super) struct Marks {
    bodies: usize,
    words: u64,
    symbols: usize,
    numbers: usize,
}

impl Objects {
    /// What stands now, for `take_back`.
    pub(super) fn marks(&self) -> Marks
        ensures { AreMarks self.now result }
    {
        Marks {
            bodies: self.bodies.count(),
            words: self.bodies.words(),
            symbols: self.symbols.count(),
            numbers: self.numbers.count(),
        }
    }

    /// Takes back what came behind the marks. Takes no memory.
    pub(super) fn take_back(&mut self, marks: Marks)
        requires { (old : State) × (AreMarks old marks × IsBefore old self.old) }
        ensures { (old : State) → AreMarks old marks → IsBefore old self.old → self.new ≡ old }
    {
        self.bodies.truncate(marks.bodies, marks.words);
        self.symbols.truncate(marks.symbols);
        self.numbers.truncate(marks.numbers);
    }

    /// The value of a literal, which is noted where it is an object. When out of memory, some of it may be made.
    pub(super) fn push_first(
        &mut self,
        method: u32,
        entry: u8,
        string: u32,
        array: u32,
        l: &Literal,
    ) -> Result<Value, OutOfMemory>
        requires room { words_of self.old.bodies + words_in (literal_of l.now) ≤ word_limit }
        requires first { made_before method entry self.old ≡ None }
        ensures value { IfOk result (λ v. v ≡ (built string array (literal_of l.now) self.old).1) }
        ensures ok { IfOk result (λ v. self.new ≡ noted method entry (names_object (literal_of l.now)) (built string array (literal_of l.now) self.old)) }
        ensures err { OnErr result (IsBefore self.old self.new) }
    {
        let value = self.add_literal(string, array, l)?;
        if is_object(l) {
            self.literals.push(method, entry, value)?;
        }
        Ok(value)
    }

    #[cycle(built)]
    fn add_literal(&mut self, string: u32, array: u32, l: &Literal) -> Result<Value, OutOfMemory>
        requires { words_of self.old.bodies + words_in (literal_of l.now) ≤ word_limit }
        ensures ok { IfOk result (λ v. (self.new, v) ≡ built string array (literal_of l.now) self.old) }
        ensures before { IsBefore self.old self.new }
    {
        match l {
            Literal::Small(n) => Ok(Value::Small(*n)),
            Literal::Character(byte) => Ok(Value::Character(*byte)),
            Literal::Str(text) => self.add_string(string, text),
            Literal::Symbol(text) => self.symbol(text),
            Literal::Array(elements) => {
                let items = self.add_literals(string, array, elements)?;
                self.add_array(array, items)
            }
            Literal::True => Ok(Value::True),
            Literal::False => Ok(Value::False),
            Literal::Nil => Ok(Value::Nil),
            Literal::Number(kind, text) => self.add_number(*kind, text),
        }
    }

    /// The values of an array's elements, from left to right.
    #[cycle(built)]
    fn add_literals(
        &mut self,
        string: u32,
        array: u32,
        elements: &Literals,
    ) -> Result<Vec<Value>, OutOfMemory>
        requires { words_of self.old.bodies + words_in_all (literals_of elements.now) ≤ word_limit }
        ensures ok { IfOk result (λ vs. (self.new, vs.items) ≡ built_all string array (literals_of elements.now) self.old) }
        ensures before { IsBefore self.old self.new }
    {
        let mut values = Vec::new(self.alloc);
        for literal in &elements.items {
            let value = self.add_literal(string, array, literal)?;
            values.push(value)?;
        }
        Ok(values)
    }

    fn add_string(&mut self, class: u32, text: &Text) -> Result<Value, OutOfMemory>
        requires { words_of self.old.bodies + cost_of (bytes class text.now) ≤ word_limit }
        ensures ok { IfOk result (λ v. (self.new, v) ≡ made (bytes class text.now) self.old) }
        ensures err { OnErr result (self.new ≡ self.old) }
    {
        let body = Body::of_bytes(self.alloc, class, text.bytes())?;
        self.bodies.push(body)
    }

    fn add_array(&mut self, class: u32, items: Vec<Value>) -> Result<Value, OutOfMemory>
        requires { words_of self.old.bodies + cost_of (pointers class [] items.items) ≤ word_limit }
        ensures ok { IfOk result (λ v. (self.new, v) ≡ made (pointers class [] items.items) self.old) }
        ensures err { OnErr result (self.new ≡ self.old) }
    {
        self.bodies.push(Body::Pointers {
            class,
            fields: Vec::new(self.alloc),
            items,
        })
    }

    fn add_number(&mut self, kind: NumberKind, text: &Text) -> Result<Value, OutOfMemory>
        ensures ok { IfOk result (λ v. (self.new, v) ≡ opaque_number kind text.now self.old) }
        ensures err { OnErr result (self.new ≡ self.old) }
    {
        let number = self.numbers.number(self.alloc, kind, text.bytes())?;
        Ok(Value::Number(number))
    }
}

/// Whether a literal is an object.
fn is_object(l: &Literal) -> bool
    ensures { result ≡ names_object (literal_of l.now) }
{
    matches!(l, Literal::Str(_) | Literal::Array(_))
}
