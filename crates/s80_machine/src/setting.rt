// What a run doesn't change: the classes and their methods, the doIt's code and the budget.
ghost use Rattle.std.specs.Prelude.{◌≡◌, drop, IfOk, length, slice_get, option_copied};
ghost use Rattle.s80_class.specs.Known.{IsKnown};
ghost use Rattle.s80_class.specs.Table.{IsClass, IsSuperclass};
ghost use Rattle.s80_code.specs.Special.{special_selectors};
ghost use Rattle.s80_prims.specs.Known.{HasKernel};
ghost use Rattle.s80_prims.specs.Classes.{class_of};
ghost use Rattle.s80_prims.specs.Numbers.{class_place};
ghost use Rattle.s80_class.specs.Lookup.{first_found, places_up, IsFound, places_from};
ghost use Rattle.s80_machine.specs.Came.{IsReady, given_of};

use crate::selectors::special_selectors;
use s80_base::{Names, OutOfMemory, Side, Text};
use s80_class::{ClassTable, Found, lookup_from};
use s80_dict::MethodTable;
use s80_object::{Objects, Value};
use s80_prims::Kernel;
use s80_verify::Verified;
use std::alloc::Global;

// What a receiver is sent with a Message that it doesn't understand.
const DOES_NOT_UNDERSTAND: &[u8] = b"doesNotUnderstand:";

/// Where a look-up begins: a side of a class, or behind the last one.
#[derive(Clone, Copy, Debug)]
pub(crate) struct Line {
    pub class: Option<u32>,
    pub side: Side,
}

/// What a run doesn't change.
#[derive(Debug, Drop)]
pub(crate) struct Setting<'a> {
    pub alloc: Global,
    pub classes: &'a ClassTable,
    pub methods: &'a MethodTable<Verified>,
    pub doit: &'a Verified,
    pub budget: u64,
    pub kernel: Kernel,
    pub special: Names,
    pub unknown: Text,
}

impl<'a> Setting<'a> {
    pub(crate) fn new(
        alloc: Global,
        classes: &'a ClassTable,
        methods: &'a MethodTable<Verified>,
        doit: &'a Verified,
        budget: u64,
    ) -> Result<Self, OutOfMemory>
        requires known { IsKnown classes.now }
        requires kernel { HasKernel classes.now }
        requires sides { length methods.now.sides ≡ length classes.now.names }
        ensures given { IfOk result (λ on. given_of on ≡ record { table = classes.now; methods = methods.now; code = doit.now; budget = budget }) }
        ensures ready { IfOk result IsReady }
    {
        Ok(Setting {
            alloc,
            classes,
            methods,
            doit,
            budget,
            kernel: Kernel::of(alloc, classes)?,
            special: special_selectors(alloc)?,
            unknown: Text::from_bytes(alloc, DOES_NOT_UNDERSTAND)?,
        })
    }

    /// The class of a value, and its side.
    #[inline(always)]
    pub(crate) fn class_of(&self, objects: &Objects, v: Value) -> Option<(u32, Side)>
        requires { IsReady self.now }
        ensures { result ≡ class_place (class_of self.now.classes.now objects.now v) }
    {
        self.kernel.class_of(objects, v)
    }

    /// The selector of one of the messages that have bytes of their own.
    pub(crate) fn special_selector(&self, number: u8) -> Option<&Text>
        requires { IsReady self.now }
        ensures { option_copied result ≡ slice_get special_selectors number }
    {
        if usize::from(number) < self.special.count() {
            Some(self.special.at(usize::from(number)))
        } else {
            None
        }
    }

    /// The method that a message to an instance of a side of a class finds.
    pub(crate) fn find(
        &self,
        class: u32,
        side: Side,
        selector: &Text,
    ) -> Option<Found<'a, Verified>>
        requires ready { IsReady self.now }
        requires class { IsClass self.now.classes.now.names class }
        ensures { IsFound (first_found self.now.methods.now selector.now (places_up self.now.classes.now class side)) result }
    {
        let class = Some(class);
        self.find_along(Line { class, side }, selector)
    }

    /// Where the look-up of a message to super begins, from a side of a class.
    pub(crate) fn line_above(&self, class: u32, side: Side) -> Line
        requires ready { IsReady self.now }
        requires class { IsClass self.now.classes.now.names class }
        ensures class { IsSuperclass self.now.classes.now.names result.class }
        ensures places { places_from self.now.classes.now result.class result.side ≡ drop 1 (places_up self.now.classes.now class side) }
    {
        let class = self.classes.at(class).superclass;
        Line { class, side }
    }

    /// The method that is found along a line.
    pub(crate) fn find_along(&self, line: Line, selector: &Text) -> Option<Found<'a, Verified>>
        requires ready { IsReady self.now }
        requires class { IsSuperclass self.now.classes.now.names line.class }
        ensures { IsFound (first_found self.now.methods.now selector.now (places_from self.now.classes.now line.class line.side)) result }
    {
        lookup_from(
            self.classes,
            self.methods,
            line.class,
            line.side,
            Some(self.kernel.class),
            selector,
        )
    }
}
