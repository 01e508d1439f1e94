// What a method's class declares, and what a name can mean.
ghost use Rattle.std.specs.Prelude.{◌≡◌, ◌<◌, ◌++◌, ◌∷◌, [], length, slice_get, Some, OnOk, OnErr};

use s80_base::{Literal, Names, OutOfMemory, Text};
use std::alloc::Global;
use std::marker::Model;

/// A class variable, and the class that declares it.
#[derive(Debug, Drop)]
pub struct Binding {
    pub owner: Text,
    pub name: Text,
}

/// The class variables that a class sees, those of the nearest class first. Contracts see the list.
#[derive(Debug, Drop)]
pub struct Bindings {
    bindings: Vec<Binding>,
}

impl Model for Bindings {
    ghost use Rattle.std.specs.Prelude.{List};
    ghost use Rattle.s80_scope.specs.declared.shape.Binding.{Binding};

    ghost Value = { List Binding };

    ghost view = { λ b. b.bindings.items };
}

impl Bindings {
    pub fn empty(alloc: Global) -> Self
        ensures { result ≡ [] }
    {
        Bindings {
            bindings: Vec::new(alloc),
        }
    }

    /// Adds a class variable at the end. When out of memory, the list is as before.
    pub fn push(&mut self, binding: Binding) -> Result<(), OutOfMemory>
        ensures ok { OnOk result (self.new ≡ self.old ++ binding ∷ []) }
        ensures err { OnErr result (self.new ≡ self.old) }
    {
        self.bindings.push(binding)?;
        Ok(())
    }

    pub fn count(&self) -> usize
        ensures { result ≡ length self.now }
    {
        self.bindings.len()
    }

    pub fn at(&self, i: usize) -> &Binding
        requires { i < length self.now }
        ensures { slice_get self.now i ≡ Some result.now }
    {
        &self.bindings[i]
    }
}

/// The variables that the methods of a class see. On the class side the instance variables are those of the class itself.
#[derive(Debug, Drop)]
pub struct Shape {
    /// From those of the topmost superclass down to the class's own.
    pub inst_vars: Names,
    pub class_vars: Bindings,
}

/// What a name in a method means.
#[derive(Debug, Drop)]
pub enum Where {
    /// A parameter, a temporary or a parameter of a block, by its number in text order.
    Temp(u8),
    /// An instance variable, by its place from the topmost superclass down.
    Inst(u8),
    /// A class variable, by the class that declares it and its name.
    ClassVar(Text, Text),
    /// A variable outside all classes.
    Outer(Text),
    SelfRef,
    SuperRef,
    Context,
    /// `true`, `false` or `nil`.
    Constant(Literal),
}
