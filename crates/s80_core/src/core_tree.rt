// Core trees, as plain data. Contracts see each without where it lies in memory.
ghost use Rattle.std.specs.Prelude.{◌≡◌, OnOk, OnErr};
ghost use Rattle.s80_core.specs.Core.{answer, answer_fixed, assign, before, cascade, core_of, cores, cores_of, leaf, leaf_of, leave, no_cores, no_sends, nothing, one_arm, real_block, repeat, send, send_of, sends, sends_of, shortcut, two_arms, value, variable_of};
ghost use Rattle.s80_core.specs.Elaborate.{first_of};
ghost use Rattle.s80_core.specs.Walk.{cores_append, rest_of, sends_append};

use s80_base::{Literal, OutOfMemory, Text};
use std::alloc::Global;

/// What a value can be stored into.
#[derive(Debug, Drop)]
pub enum Variable {
    /// A parameter, a temporary or a parameter of a block, by its number in text order.
    Temporary(u8),
    /// An instance variable of the receiver, by its place from the topmost superclass down.
    Instance(u8),
    /// A class variable, by the class that declares it and its name.
    Class(Text, Text),
    /// A variable outside all classes.
    Outer(Text),
}

/// What one instruction pushes.
#[derive(Debug, Drop)]
pub enum Leaf {
    Variable(Variable),
    Constant(Literal),
    /// `self` and `super`.
    Receiver,
    /// `thisContext`.
    Context,
}

/// A core tree. Each has a value, which may not be wanted.
#[cycle(core)]
#[derive(Debug, Drop)]
pub enum Core {
    Leaf(Leaf),
    Assign(Variable, Box<Core>),
    /// An expression in parentheses: its value is made also where it isn't wanted.
    Value(Box<Core>),
    Send {
        receiver: Box<Core>,
        to_super: bool,
        message: CoreMessage,
    },
    /// Several messages to one receiver. The value is that of the last.
    Cascade {
        receiver: Box<Core>,
        to_super: bool,
        messages: CoreMessages,
    },
    /// A block that is an object, with so many parameters, which are numbered from `first` on.
    RealBlock {
        first: u8,
        parameters: u8,
        body: Box<Core>,
    },
    /// Two arms: the first is taken where the condition is `on`.
    TwoArms {
        on: bool,
        condition: Box<Core>,
        first: Box<Core>,
        second: Box<Core>,
    },
    /// One arm, which is taken where the condition is `on`; else the value is nil.
    OneArm {
        on: bool,
        condition: Box<Core>,
        arm: Box<Core>,
    },
    /// `and:`, where `on` is true, and `or:`. The arm is taken where the condition is `on`; else the value is the condition.
    Shortcut {
        on: bool,
        condition: Box<Core>,
        arm: Box<Core>,
    },
    /// A loop while the condition is `on`. Its value is nil.
    Loop {
        on: bool,
        condition: Box<Core>,
        body: Box<Core>,
    },
    /// A body without statements: its value is nil.
    Nothing,
    /// The first, whose value isn't wanted, and then the second.
    Then(Box<Core>, Box<Core>),
    /// Returns a value from the method.
    Return(Box<Core>),
    /// Returns the receiver, true, false or nil from the method, from 0 on.
    ReturnFixed(u8),
    /// Ends a real block with its value.
    Leave(Box<Core>),
}

/// A list of core trees.
#[cycle(core)]
#[derive(Debug, Drop)]
pub struct Cores {
    pub items: Vec<Core>,
}

/// A message that is sent: its selector and its arguments.
#[cycle(core)]
#[derive(Debug, Drop)]
pub struct CoreMessage {
    pub selector: Text,
    pub arguments: Cores,
}

/// A list of messages.
#[cycle(core)]
#[derive(Debug, Drop)]
pub struct CoreMessages {
    pub items: Vec<CoreMessage>,
}

impl Core {
    pub(crate) fn leaf(pushed: Leaf) -> Self
        ensures { core_of result ≡ leaf (leaf_of pushed) }
    {
        Core::Leaf(pushed)
    }

    pub(crate) fn assign(target: Variable, made: Box<Core>) -> Self
        ensures { core_of result ≡ assign (variable_of target) (core_of made.value) }
    {
        Core::Assign(target, made)
    }

    pub(crate) fn value(made: Box<Core>) -> Self
        ensures { core_of result ≡ value (core_of made.value) }
    {
        Core::Value(made)
    }

    pub(crate) fn send(receiver: Box<Core>, to_super: bool, message: CoreMessage) -> Self
        ensures { core_of result ≡ send (core_of receiver.value) to_super (send_of message).0 (send_of message).1 }
    {
        Core::Send {
            receiver,
            to_super,
            message,
        }
    }

    pub(crate) fn cascade(receiver: Box<Core>, to_super: bool, messages: CoreMessages) -> Self
        ensures { core_of result ≡ cascade (core_of receiver.value) to_super (sends_of messages) }
    {
        Core::Cascade {
            receiver,
            to_super,
            messages,
        }
    }

    pub(crate) fn real_block(first: u8, parameters: u8, body: Box<Core>) -> Self
        ensures { core_of result ≡ real_block first parameters (core_of body.value) }
    {
        Core::RealBlock {
            first,
            parameters,
            body,
        }
    }

    pub(crate) fn two_arms(
        on: bool,
        condition: Box<Core>,
        first: Box<Core>,
        second: Box<Core>,
    ) -> Self
        ensures { core_of result ≡ two_arms on (core_of condition.value) (core_of first.value) (core_of second.value) }
    {
        Core::TwoArms {
            on,
            condition,
            first,
            second,
        }
    }

    pub(crate) fn one_arm(on: bool, condition: Box<Core>, arm: Box<Core>) -> Self
        ensures { core_of result ≡ one_arm on (core_of condition.value) (core_of arm.value) }
    {
        Core::OneArm { on, condition, arm }
    }

    pub(crate) fn shortcut(on: bool, condition: Box<Core>, arm: Box<Core>) -> Self
        ensures { core_of result ≡ shortcut on (core_of condition.value) (core_of arm.value) }
    {
        Core::Shortcut { on, condition, arm }
    }

    pub(crate) fn repeat(on: bool, condition: Box<Core>, body: Box<Core>) -> Self
        ensures { core_of result ≡ repeat on (core_of condition.value) (core_of body.value) }
    {
        Core::Loop {
            on,
            condition,
            body,
        }
    }

    pub(crate) fn nothing() -> Self
        ensures { core_of result ≡ nothing }
    {
        Core::Nothing
    }

    pub(crate) fn then(first: Box<Core>, second: Box<Core>) -> Self
        ensures { core_of result ≡ before (core_of first.value) (core_of second.value) }
    {
        Core::Then(first, second)
    }

    pub(crate) fn returned(made: Box<Core>) -> Self
        ensures { core_of result ≡ answer (core_of made.value) }
    {
        Core::Return(made)
    }

    pub(crate) fn fixed(number: u8) -> Self
        ensures { core_of result ≡ answer_fixed number }
    {
        Core::ReturnFixed(number)
    }

    pub(crate) fn leave(made: Box<Core>) -> Self
        ensures { core_of result ≡ leave (core_of made.value) }
    {
        Core::Leave(made)
    }
}

impl Cores {
    pub(crate) fn empty(alloc: Global) -> Self
        ensures { cores_of result ≡ no_cores }
    {
        Cores {
            items: Vec::new(alloc),
        }
    }

    /// Adds a tree at the end. When out of memory, the list is as before.
    #[tactic(auto, using(crate::proofs::OpenCores::cores_added))]
    pub(crate) fn push(&mut self, core: Core) -> Result<(), OutOfMemory>
        ensures ok { OnOk result (cores_of self.new ≡ cores_append (cores_of self.old) (cores (core_of core) no_cores)) }
        ensures err { OnErr result (cores_of self.new ≡ cores_of self.old) }
    {
        self.items.push(core)?;
        Ok(())
    }

    /// Takes the first tree out of the list, if it has one; else it is as a body without statements.
    #[tactic(auto, using(crate::proofs::OpenCores::cores_added))]
    pub(crate) fn take_first(&mut self) -> Core
        ensures first { core_of result ≡ first_of (cores_of self.old) }
        ensures rest { cores_of self.new ≡ rest_of (cores_of self.old) }
    {
        if self.items.is_empty() {
            return Core::nothing();
        }
        self.items.remove(0)
    }
}

impl CoreMessage {
    pub(crate) fn new(selector: Text, arguments: Cores) -> Self
        ensures { send_of result ≡ (selector, cores_of arguments) }
    {
        CoreMessage {
            selector,
            arguments,
        }
    }
}

impl CoreMessages {
    pub(crate) fn empty(alloc: Global) -> Self
        ensures { sends_of result ≡ no_sends }
    {
        CoreMessages {
            items: Vec::new(alloc),
        }
    }

    /// Adds a message at the end. When out of memory, the list is as before.
    #[tactic(auto, using(crate::proofs::OpenCores::sends_added))]
    pub(crate) fn push(&mut self, message: CoreMessage) -> Result<(), OutOfMemory>
        ensures ok { OnOk result (sends_of self.new ≡ sends_append (sends_of self.old) (sends (send_of message).0 (send_of message).1 no_sends)) }
        ensures err { OnErr result (sends_of self.new ≡ sends_of self.old) }
    {
        self.items.push(message)?;
        Ok(())
    }

    /// Adds a message at the beginning.
    #[tactic(auto, using(crate::proofs::OpenCores::sends_added))]
    pub(crate) fn put_first(&mut self, message: CoreMessage) -> Result<(), OutOfMemory>
        ensures { OnOk result (sends_of self.new ≡ sends (send_of message).0 (send_of message).1 (sends_of self.old)) }
    {
        self.items.insert(0, message)?;
        Ok(())
    }
}
