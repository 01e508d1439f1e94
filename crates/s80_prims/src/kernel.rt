// The classes of the kernel that a run asks for, by their numbers.
ghost use Rattle.std.specs.Prelude.{◌≡◌, IfOk, Some, codes, option_and_then};
ghost use Rattle.std.specs.Option.{option_map};
ghost use Rattle.s80_base.specs.declared.names.Side.TheVariants.{Instance};
ghost use Rattle.s80_class.specs.Known.{IsKnown as IsKnownTable};
ghost use Rattle.s80_class.specs.Table.{IsClass, Table, number_of};
ghost use Rattle.s80_object.specs.Objects.{body_at};
ghost use Rattle.s80_prims.specs.Classes.{body_class, can_be_new, class_of, is_kind_of, number_class};
ghost use Rattle.s80_prims.specs.Known.{HasKernel};
ghost use Rattle.s80_prims.specs.Numbers.{AreNumbers, class_place};

use crate::classes::{is_kind_of_any, is_kind_of_number, kernel_number};
use s80_base::{NumberKind, OutOfMemory, Side};
use s80_class::ClassTable;
use s80_object::{Objects, Value};
use std::alloc::Global;

/// The numbers of these classes.
#[derive(Clone, Copy, Debug)]
pub struct Kernel {
    pub small_integer: u32,
    pub character: u32,
    pub undefined_object: u32,
    pub true_class: u32,
    pub false_class: u32,
    pub symbol: u32,
    pub large_positive: u32,
    pub large_negative: u32,
    pub float: u32,
    pub metaclass: u32,
    pub method_context: u32,
    pub block_context: u32,
    pub text_collector: u32,
    pub system_dictionary: u32,
    pub class: u32,
    pub string: u32,
    pub array: u32,
    pub message: u32,
    pub behavior: u32,
    pub boolean: u32,
    pub number: u32,
    pub context_part: u32,
}

impl Kernel {
    /// The numbers that they have in a table.
    #[tactic(auto, unfolding(s80_kernel::specs::Rows::is_kernel_class))]
    pub fn of(alloc: Global, classes: &ClassTable) -> Result<Self, OutOfMemory>
        requires { HasKernel classes.now }
        ensures { IfOk result (AreNumbers classes.now) }
    {
        Ok(Kernel {
            small_integer: kernel_number(alloc, classes, b"SmallInteger")?,
            character: kernel_number(alloc, classes, b"Character")?,
            undefined_object: kernel_number(alloc, classes, b"UndefinedObject")?,
            true_class: kernel_number(alloc, classes, b"True")?,
            false_class: kernel_number(alloc, classes, b"False")?,
            symbol: kernel_number(alloc, classes, b"Symbol")?,
            large_positive: kernel_number(alloc, classes, b"LargePositiveInteger")?,
            large_negative: kernel_number(alloc, classes, b"LargeNegativeInteger")?,
            float: kernel_number(alloc, classes, b"Float")?,
            metaclass: kernel_number(alloc, classes, b"Metaclass")?,
            method_context: kernel_number(alloc, classes, b"MethodContext")?,
            block_context: kernel_number(alloc, classes, b"BlockContext")?,
            text_collector: kernel_number(alloc, classes, b"TextCollector")?,
            system_dictionary: kernel_number(alloc, classes, b"SystemDictionary")?,
            class: kernel_number(alloc, classes, b"Class")?,
            string: kernel_number(alloc, classes, b"String")?,
            array: kernel_number(alloc, classes, b"Array")?,
            message: kernel_number(alloc, classes, b"Message")?,
            behavior: kernel_number(alloc, classes, b"Behavior")?,
            boolean: kernel_number(alloc, classes, b"Boolean")?,
            number: kernel_number(alloc, classes, b"Number")?,
            context_part: kernel_number(alloc, classes, b"ContextPart")?,
        })
    }

    /// The class of a value, and its side. Takes no memory.
    pub fn class_of(&self, objects: &Objects, v: Value) -> Option<(u32, Side)>
        ensures { (t : Table) → AreNumbers t self.now → result ≡ class_place (class_of t objects.now v) }
    {
        let class = match v {
            Value::Small(_) => self.small_integer,
            Value::Character(_) => self.character,
            Value::Nil => self.undefined_object,
            Value::True => self.true_class,
            Value::False => self.false_class,
            Value::Symbol(_) => self.symbol,
            Value::Number(_) => self.class_of_number(objects.number_kind(v)?),
            Value::ClassRef(c, Side::Instance) => return Some((c, Side::Class)),
            Value::ClassRef(_, Side::Class) => self.metaclass,
            Value::Object(_) => self.class_of_object(objects, v)?,
            Value::Context => self.method_context,
            Value::Transcript => self.text_collector,
            Value::Smalltalk => self.system_dictionary,
        };
        Some((class, Side::Instance))
    }

    /// The class of a value as a value.
    pub(crate) fn class_value(&self, objects: &Objects, v: Value) -> Value
        ensures { (t : Table) → AreNumbers t self.now → result ≡ class_of t objects.now v }
    {
        match self.class_of(objects, v) {
            Some((class, side)) => Value::ClassRef(class, side),
            None => Value::Nil,
        }
    }

    // The class of a number that is kept as its text.
    fn class_of_number(&self, kind: NumberKind) -> u32
        ensures { (t : Table) → AreNumbers t self.now → Some result ≡ number_of t.names (number_class kind) }
    {
        match kind {
            NumberKind::LargePositive => self.large_positive,
            NumberKind::LargeNegative => self.large_negative,
            NumberKind::Float => self.float,
        }
    }

    // The class of an object, a home or a block.
    fn class_of_object(&self, objects: &Objects, v: Value) -> Option<u32>
        ensures { (t : Table) → AreNumbers t self.now → option_map (λ c. (c, Instance)) result ≡ option_and_then (λ b. class_place (body_class t b)) (body_at objects.now v) }
    {
        if let Some((class, _)) = objects.class_at(v) {
            return Some(class);
        }
        if objects.block_parts(v).is_some() {
            return Some(self.block_context);
        }
        objects.home_parts(v)?;
        Some(self.method_context)
    }

    /// Whether `new` makes instances of a class.
    pub(crate) fn can_be_new(&self, classes: &ClassTable, c: u32) -> bool
        requires known { IsKnownTable classes.now }
        requires numbers { AreNumbers classes.now self.now }
        requires class { IsClass classes.now.names c }
        ensures { result ≡ can_be_new classes.now c }
    {
        let made_otherwise = [
            self.behavior,
            self.undefined_object,
            self.boolean,
            self.character,
            self.number,
            self.symbol,
            self.context_part,
            self.text_collector,
            self.system_dictionary,
        ];
        !is_kind_of_any(classes, c, &made_otherwise)
    }

    /// Whether a class is String or descends from it.
    pub(crate) fn is_string(&self, classes: &ClassTable, c: u32) -> bool
        requires known { IsKnownTable classes.now }
        requires numbers { AreNumbers classes.now self.now }
        requires class { IsClass classes.now.names c }
        ensures { result ≡ is_kind_of classes.now c (codes "String") }
    {
        is_kind_of_number(classes, c, self.string)
    }
}
