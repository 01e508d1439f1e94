// The literals of a source, as data.
ghost use Rattle.std.specs.Prelude.{◌≡◌, ◌↔◌, ◌<◌, IsTrue, length, slice_get, Some, IfOk, OnOk, OnErr};
ghost use Rattle.s80_base.specs.Literal.{literal_of, literals_of, no_literals, literals, literals_list, literals_append};
ghost use Rattle.s80_base.specs.SameLiteral.{same_literal, same_literals};

use crate::text::{OutOfMemory, Text};
use std::alloc::Global;

/// The kinds of number that are kept by their text.
#[derive(Clone, Copy, Debug, PartialEq, Eq)]
pub enum NumberKind {
    LargePositive,
    LargeNegative,
    Float,
}

/// A literal of a method or a doIt.
#[cycle(literal)]
#[derive(Debug, Drop)]
pub enum Literal {
    /// From -2^30 to 2^30 - 1.
    Small(i32),
    Character(u8),
    Str(Text),
    Symbol(Text),
    Array(Literals),
    True,
    False,
    Nil,
    /// Any other number, with its bytes, after `-` where it is negative.
    Number(NumberKind, Text),
}

impl Literal {
    /// The same literal in memory of its own.
    pub fn copy(&self, alloc: Global) -> Result<Literal, OutOfMemory>
        ensures { IfOk result (λ copy. literal_of copy ≡ literal_of self.now) }
    {
        copy_literal(alloc, self)
    }

    /// Whether two literals are equal.
    pub fn equals(&self, other: &Literal) -> bool
        ensures same { result ≡ same_literal (literal_of self.now) (literal_of other.now) }
        ensures equal { IsTrue result ↔ (literal_of self.now ≡ literal_of other.now) }
    {
        same_literal(self, other)
    }
}

#[cycle(copy)]
fn copy_literal(alloc: Global, literal: &Literal) -> Result<Literal, OutOfMemory>
    ensures { IfOk result (λ copy. literal_of copy ≡ literal_of literal.now) }
{
    match literal {
        Literal::Small(number) => Ok(Literal::Small(*number)),
        Literal::Character(byte) => Ok(Literal::Character(*byte)),
        Literal::Str(text) => Ok(Literal::Str(text.copy(alloc)?)),
        Literal::Symbol(text) => Ok(Literal::Symbol(text.copy(alloc)?)),
        Literal::Array(elements) => Ok(Literal::Array(copy_literals(alloc, elements)?)),
        Literal::True => Ok(Literal::True),
        Literal::False => Ok(Literal::False),
        Literal::Nil => Ok(Literal::Nil),
        Literal::Number(kind, text) => Ok(Literal::Number(*kind, text.copy(alloc)?)),
    }
}

#[cycle(copy)]
fn copy_literals(alloc: Global, literals: &Literals) -> Result<Literals, OutOfMemory>
    ensures { IfOk result (λ copy. literals_of copy ≡ literals_of literals.now) }
{
    let mut copy = Literals::empty(alloc);
    for literal in &literals.items {
        copy.push(copy_literal(alloc, literal)?)?;
    }
    Ok(copy)
}

#[cycle(same)]
fn same_literal(a: &Literal, b: &Literal) -> bool
    ensures { result ≡ same_literal (literal_of a.now) (literal_of b.now) }
{
    match a {
        Literal::Small(a) => matches!(b, Literal::Small(b) if *a == *b),
        Literal::Character(a) => matches!(b, Literal::Character(b) if *a == *b),
        Literal::Str(a) => matches!(b, Literal::Str(b) if a.bytes() == b.bytes()),
        Literal::Symbol(a) => matches!(b, Literal::Symbol(b) if a.bytes() == b.bytes()),
        Literal::Array(a) => matches!(b, Literal::Array(b) if same_literals(a, b)),
        Literal::True => matches!(b, Literal::True),
        Literal::False => matches!(b, Literal::False),
        Literal::Nil => matches!(b, Literal::Nil),
        Literal::Number(kind, a) => {
            matches!(b, Literal::Number(other, b) if *kind == *other && a.bytes() == b.bytes())
        }
    }
}

#[cycle(same)]
fn same_literals(a: &Literals, b: &Literals) -> bool
    ensures { result ≡ same_literals (literals_of a.now) (literals_of b.now) }
{
    let count = a.items.len();
    if count != b.items.len() {
        return false;
    }
    for i in 0..count {
        if !same_literal(&a.items[i], &b.items[i]) {
            return false;
        }
    }
    true
}

/// A list of literals, as in a literal array.
#[cycle(literal)]
#[derive(Debug, Drop)]
pub struct Literals {
    pub items: Vec<Literal>,
}

impl Literals {
    pub fn empty(alloc: Global) -> Self
        ensures { literals_of result ≡ no_literals }
    {
        Literals {
            items: Vec::new(alloc),
        }
    }

    /// Adds a literal at the end. When out of memory, the list is as before.
    #[tactic(auto, using(crate::proofs::lemmas::Lists::literals_added))]
    pub fn push(&mut self, literal: Literal) -> Result<(), OutOfMemory>
        ensures ok { OnOk result (literals_of self.new ≡ literals_append (literals_of self.old) (literals (literal_of literal) no_literals)) }
        ensures err { OnErr result (literals_of self.new ≡ literals_of self.old) }
    {
        self.items.push(literal)?;
        Ok(())
    }

    #[tactic(auto, using(crate::proofs::lemmas::Lists::literals_read))]
    pub fn count(&self) -> usize
        ensures { result ≡ length (literals_list (literals_of self.now)) }
    {
        self.items.len()
    }

    #[tactic(auto, using(crate::proofs::lemmas::Lists::literals_read))]
    pub fn at(&self, i: usize) -> &Literal
        requires { i < length (literals_list (literals_of self.now)) }
        ensures { slice_get (literals_list (literals_of self.now)) i ≡ Some (literal_of result.now) }
    {
        &self.items[i]
    }
}
