// The classes by number and by name, and their subclasses.
ghost use Rattle.std.specs.Prelude.{◌≡◌, ◌≢◌, ◌+◌, ◌-◌, ◌^◌, ◌<◌, ◌≤◌, ◌++◌, ◌∷◌, [], List, ℕ, map as list_map, length, max, slice_set, Some, None, IfOk, OnOk, MatchOption, option_map, vec_capacity};
ghost use Rattle.std.specs.FinMap as map;
ghost use Rattle.s80_class.specs.Classes.{ClassRow, IsValid, change_row, descends, has_subclass, with_comment};
ghost use Rattle.s80_class.specs.Table.{IsNumberOf, IsClass, IsSuperclass, IsAbove, IsEntryOf, row_of};
ghost use Rattle.s80_class.specs.Kept.{names_of, name_at, IsRising, IsPlace};
ghost use Rattle.s80_class.specs.Family.{Found, FindsFamily, AreUnder, Grows};
ghost use Rattle.s80_class.specs.Known.{IsKnown};

use crate::below::{move_below, place_below, put_below, take_below};
use crate::entry::ClassEntry;
use crate::inherited::Totals;
use s80_base::{Names, OutOfMemory, Text};
use std::alloc::Global;
use std::marker::Model;
use std::mem;

// The classes without what they inherit. Contracts see a finite map from names to what is known of each class, and the name of the class of each number.
#[derive(Debug, Drop)]
pub(crate) struct ClassTree {
    /// By their numbers; none where a class was removed.
    entries: Vec<Option<ClassEntry>>,
    /// Their numbers, in byte order of their names.
    order: Vec<u32>,
    /// Their superclasses and numbers, in rising order.
    subclasses: Vec<(Option<u32>, u32)>,
    /// For how many more classes all three have room.
    spare: usize,
}

impl Model for ClassTree {
    ghost use Rattle.s80_class.specs.Table.{Table};
    ghost use Rattle.s80_class.specs.Kept.{table_code, names_of, classes_of};

    ghost Value = { Table };

    ghost coded = { table_code };

    ghost use Rattle.s80_class.specs.Sound.{IsSound};

    ghost view = { λ t. record { classes = classes_of t.entries.items; names = names_of t.entries.items; spare = t.spare } };

    ghost invariant = { IsSound };
}

/// Numbers are below this.
const NUMBERS: usize = 1 << 32;

impl ClassTree {
    /// A table without classes and without room for any.
    pub(crate) fn empty(alloc: Global) -> Self
        ensures classes { result.classes ≡ map.empty }
        ensures names { result.names ≡ [] }
        ensures spare { result.spare ≡ 0 }
        ensures known { IsKnown result }
    {
        ClassTree {
            entries: Vec::new(alloc),
            order: Vec::new(alloc),
            subclasses: Vec::new(alloc),
            spare: 0,
        }
    }

    /// Makes room for this many more classes.
    pub(crate) fn reserve(&mut self, n: usize) -> Result<(), OutOfMemory>
        ensures room { OnOk result (n ≤ self.new.spare) }
        ensures spare { self.old.spare ≤ self.new.spare }
        ensures most { self.new.spare ≤ max self.old.spare n }
        ensures classes { self.new.classes ≡ self.old.classes }
        ensures names { self.new.names ≡ self.old.names }
    {
        if n <= self.spare {
            return Ok(());
        }
        if n > NUMBERS - self.entries.len() {
            return Err(OutOfMemory);
        }
        self.entries.reserve(n)?;
        self.order.reserve(n)?;
        self.subclasses.reserve(n)?;
        self.spare = n;
        Ok(())
    }

    /// For how many more classes there is room.
    pub(crate) fn spare(&self) -> usize
        ensures { result ≡ self.now.spare }
    {
        self.spare
    }

    /// How many classes there are.
    pub(crate) fn count(&self) -> usize
        ensures { result ≡ map.len self.now.classes }
    {
        self.order.len()
    }

    /// The number of the class of this name.
    pub(crate) fn find(&self, name: &[u8]) -> Option<u32>
        ensures found { MatchOption result (map.get self.now.classes name.now ≡ None) (λ c. IsNumberOf self.now.names c name.now) }
        ensures only { (c : ℕ) → IsNumberOf self.now.names c name.now → result ≡ Some c }
        ensures valid { IsValid self.now.classes }
    {
        let at = place(&self.entries, &self.order, name);
        let Some(&number) = self.order.get(at) else {
            return None;
        };
        if name_in(&self.entries, number) == name {
            Some(number)
        } else {
            None
        }
    }

    /// The class of this number.
    pub(crate) fn at(&self, c: u32) -> &ClassEntry
        requires { IsClass self.now.names c }
        ensures { IsEntryOf self.now c result.now }
    {
        self.entries[c as usize].as_ref().unwrap()
    }

    /// Whether the class descends from another.
    pub(crate) fn is_descendant(&self, c: u32, of: u32) -> bool
        requires class { IsClass self.now.names c }
        requires other { IsClass self.now.names of }
        ensures { (name other : List ℕ) → IsNumberOf self.now.names c name → IsNumberOf self.now.names of other
            → result ≡ descends self.now.classes name other }
    {
        let mut next = self.at(c).superclass;
        for _ in 1..self.order.len() {
            let Some(number) = next else {
                return false;
            };
            if number == of {
                return true;
            }
            next = self.at(number).superclass;
        }
        false
    }

    /// Whether some class has this one as its superclass. Takes no memory.
    pub(crate) fn has_subclass(&self, c: u32) -> bool
        requires { IsClass self.now.names c }
        ensures { (name : List ℕ) → IsNumberOf self.now.names c name → result ≡ has_subclass self.now.classes name }
    {
        let first = place_below(&self.subclasses, (Some(c), 0));
        match self.subclasses.get(first) {
            Some(&(superclass, _)) => superclass == Some(c),
            None => false,
        }
    }

    /// A class and its descendants with their totals, if the class itself came to have these. No other class is looked at.
    /// Takes no memory.
    pub(crate) fn family(&self, c: u32, top: Totals, found: &mut Vec<(u32, Totals)>)
        requires class { IsClass self.now.names c }
        requires none { found.old.items ≡ [] }
        requires room { map.len self.now.classes ≤ vec_capacity found.old }
        ensures family { FindsFamily self.now c top found.new.items }
        ensures capacity { vec_capacity found.new ≡ vec_capacity found.old }
    {
        let count = self.order.len();
        found.push_reserved((c, top));
        for next in 0..count {
            let Some(&(number, totals)) = found.get(next) else {
                return;
            };
            self.find_below(number, totals, found);
        }
    }

    // Puts the subclasses of a class that has these totals behind those that were found.
    fn find_below(&self, number: u32, totals: Totals, found: &mut Vec<(u32, Totals)>)
        requires room { (more : List Found) → AreUnder self.now number totals more → length (found.old.items ++ more) ≤ vec_capacity found.old }
        ensures grows { Grows self.now number totals found.old.items found.new.items }
        ensures capacity { vec_capacity found.new ≡ vec_capacity found.old }
    {
        let first = place_below(&self.subclasses, (Some(number), 0));
        for at in first..self.subclasses.len() {
            let (superclass, subclass) = self.subclasses[at];
            if superclass != Some(number) {
                return;
            }
            let own = Totals::own(self.at(subclass));
            found.push_reserved((subclass, own.over(totals)));
        }
    }

    /// The names of all classes, in byte order.
    pub(crate) fn names_sorted(&self, alloc: Global) -> Result<Names, OutOfMemory>
        ensures { IfOk result (λ names. names ≡ map.keys self.now.classes) }
    {
        let mut names = Names::empty(alloc);
        for number in &self.order {
            let name = Text::from_bytes(alloc, name_in(&self.entries, *number))?;
            names.push(name)?;
        }
        Ok(names)
    }

    /// Adds a class and answers its number. Takes no memory.
    pub(crate) fn add(&mut self, entry: ClassEntry) -> u32
        requires room { 0 < self.old.spare }
        requires new { map.get self.old.classes entry.class_name ≡ None }
        requires superclass { IsSuperclass self.old.names entry.superclass }
        ensures classes { self.new.classes ≡ map.insert self.old.classes entry.class_name (row_of self.old.names entry) }
        ensures names { self.new.names ≡ self.old.names ++ Some entry.class_name ∷ [] }
        ensures number { result ≡ length self.old.names }
        ensures spare { self.new.spare + 1 ≡ self.old.spare }
        ensures known { IsKnown self.new }
    {
        let number = self.entries.len() as u32;
        let at = place(&self.entries, &self.order, entry.class_name.bytes());
        self.order.insert(at, number).unwrap();
        put_below(&mut self.subclasses, (entry.superclass, number));
        self.entries.push_reserved(Some(entry));
        self.spare -= 1;
        number
    }

    /// Puts another entry in place of that of a class, and answers the old one. Takes no memory.
    pub(crate) fn replace(&mut self, c: u32, entry: ClassEntry) -> ClassEntry
        requires named { IsNumberOf self.old.names c entry.class_name }
        requires superclass { IsAbove self.old entry.superclass entry.class_name }
        ensures old { IsEntryOf self.old c result }
        ensures classes { self.new.classes ≡ map.insert self.old.classes entry.class_name (row_of self.old.names entry) }
        ensures names { self.new.names ≡ self.old.names }
        ensures spare { self.new.spare ≡ self.old.spare }
        ensures known { IsKnown self.new }
    {
        let superclass = entry.superclass;
        let old = self.entries[c as usize].replace(entry).unwrap();
        move_below(&mut self.subclasses, c, old.superclass, superclass);
        old
    }

    /// Gives a class another comment, and answers the old one. Takes no memory.
    pub(crate) fn set_comment(&mut self, c: u32, comment: Text) -> Text
        requires { IsClass self.old.names c }
        ensures old { (name : List ℕ) → IsNumberOf self.old.names c name → option_map (λ row. row.comment) (map.get self.old.classes name) ≡ Some result }
        ensures classes { (name : List ℕ) → IsNumberOf self.old.names c name → self.new.classes ≡ change_row (with_comment comment) name self.old.classes }
        ensures names { self.new.names ≡ self.old.names }
        ensures spare { self.new.spare ≡ self.old.spare }
        ensures known { IsKnown self.new }
    {
        let entry = self.entries[c as usize].as_mut().unwrap();
        mem::replace(&mut entry.comment, comment)
    }

    /// Takes a class off that is no superclass, and answers its entry. Takes no memory.
    pub(crate) fn remove(&mut self, c: u32) -> ClassEntry
        requires class { IsClass self.old.names c }
        requires alone { (name : List ℕ) (other : List ℕ) (row : ClassRow) → IsNumberOf self.old.names c name
            → map.get self.old.classes other ≡ Some row → row.superclass ≢ Some name }
        ensures old { IsEntryOf self.old c result }
        ensures classes { self.new.classes ≡ map.remove self.old.classes result.class_name }
        ensures names { self.new.names ≡ slice_set self.old.names c None }
        ensures spare { self.new.spare ≡ self.old.spare }
        ensures known { IsKnown self.new }
    {
        let at = place(&self.entries, &self.order, name_in(&self.entries, c));
        self.order.remove(at);
        let old = self.entries[c as usize].take().unwrap();
        take_below(&mut self.subclasses, (old.superclass, c));
        old
    }
}

// The name of the class of this number, and no byte where there is none.
fn name_in(entries: &[Option<ClassEntry>], number: u32) -> &[u8]
    ensures { result.now ≡ name_at (names_of entries.now) number }
{
    match entries.get(number as usize) {
        Some(Some(entry)) => entry.class_name.bytes(),
        _ => &[],
    }
}

// How many of the numbers, which stand in order of their names, have a name below this one.
fn place(entries: &[Option<ClassEntry>], order: &[u32], name: &[u8]) -> usize
    requires { IsRising (list_map (name_at (names_of entries.now)) order.now) }
    ensures { IsPlace (list_map (name_at (names_of entries.now)) order.now) name.now result }
{
    order.partition_point(|number| name_in(entries, *number).cmp(name).is_lt())
}
