// The table of classes.
ghost use Rattle.std.specs.Prelude.{◌≡◌, ◌≢◌, ◌+◌, ◌<◌, ◌≤◌, ◌++◌, ◌∷◌, [], List, ℕ, length, slice_get, slice_set, Some, None, IfOk, OnOk, MatchOption, option_and_then, option_map};
ghost use Rattle.std.specs.FinMap as map;
ghost use Rattle.s80_class.specs.Classes.{Name, ClassRow, IsLine, IsValid, change_row, descends, has_subclass, inherited_in, inherited_of, extent_of, with_comment};
ghost use Rattle.s80_class.specs.Counted.{totals, greatest_of, over, own};
ghost use Rattle.s80_class.specs.Table.{IsNumberOf, IsClass, IsSuperclass, IsAbove, IsEntryOf, name_of, number_of, row_of};
ghost use Rattle.s80_class.specs.Family.{AreFamily, Found};
ghost use Rattle.s80_class.specs.Known.{IsKnown};
ghost use Rattle.s80_class.specs.Totalled.{IsSettled};

use crate::entry::ClassEntry;
use crate::inherited::{Greatest, Totals};
use crate::tree::ClassTree;
use s80_base::{Names, OutOfMemory, Text};
use std::alloc::Global;
use std::marker::Model;

/// A table of classes. Contracts see a finite map from names to what is known of each class, and the name of the class of each number.
#[derive(Debug, Drop)]
pub struct ClassTable {
    tree: ClassTree,
    /// What each class has with all that it inherits, by its number.
    totals: Vec<Totals>,
    /// Empty, with room for all classes: those that a change gives other totals.
    found: Vec<(u32, Totals)>,
}

impl Model for ClassTable {
    ghost use Rattle.s80_class.specs.Table.{Table};
    ghost use Rattle.s80_class.specs.Kept.{table_code};
    ghost use Rattle.s80_class.specs.Totalled.{IsTotalled};

    ghost Value = { Table };

    ghost coded = { table_code };

    ghost view = { λ t. t.tree };

    ghost invariant = { IsTotalled };
}

impl ClassTable {
    /// A table without classes and without room for any.
    pub fn empty(alloc: Global) -> Self
        ensures classes { result.classes ≡ map.empty }
        ensures names { result.names ≡ [] }
        ensures spare { result.spare ≡ 0 }
    {
        ClassTable {
            tree: ClassTree::empty(alloc),
            totals: Vec::new(alloc),
            found: Vec::new(alloc),
        }
    }

    /// Makes room for this many more classes.
    pub fn reserve(&mut self, n: usize) -> Result<(), OutOfMemory>
        ensures room { OnOk result (n ≤ self.new.spare) }
        ensures spare { self.old.spare ≤ self.new.spare }
        ensures classes { self.new.classes ≡ self.old.classes }
        ensures names { self.new.names ≡ self.old.names }
    {
        if n <= self.tree.spare() {
            return Ok(());
        }
        let all = self.tree.count().checked_add(n).ok_or(OutOfMemory)?;
        self.totals.reserve(n)?;
        self.found.reserve(all)?;
        self.tree.reserve(n)
    }

    /// How many classes there are.
    pub fn count(&self) -> usize
        ensures count { result ≡ map.len self.now.classes }
        ensures known { IsKnown self.now }
    {
        self.tree.count()
    }

    /// The number of the class of this name.
    pub fn find(&self, name: &Text) -> Option<u32>
        ensures found { MatchOption result (map.get self.now.classes name.now ≡ None) (λ c. IsNumberOf self.now.names c name.now) }
        ensures only { (c : ℕ) → IsNumberOf self.now.names c name.now → result ≡ Some c }
        ensures valid { IsValid self.now.classes }
    {
        self.tree.find(name.bytes())
    }

    /// The same of a name that is given by its bytes. Takes no memory.
    pub(crate) fn find_bytes(&self, name: &[u8]) -> Option<u32>
        ensures { result ≡ number_of self.now.names name.now }
    {
        self.tree.find(name)
    }

    /// The class of this number.
    pub fn at(&self, c: u32) -> &ClassEntry
        requires { IsClass self.now.names c }
        ensures { IsEntryOf self.now c result.now }
    {
        self.tree.at(c)
    }

    /// Whether the class descends from another.
    pub fn is_descendant(&self, c: u32, of: u32) -> bool
        requires class { IsClass self.now.names c }
        requires other { IsClass self.now.names of }
        ensures { (name other : List ℕ) → IsNumberOf self.now.names c name → IsNumberOf self.now.names of other
            → result ≡ descends self.now.classes name other }
    {
        self.tree.is_descendant(c, of)
    }

    /// Whether some class has this one as its superclass. Takes no memory.
    pub fn has_subclass(&self, c: u32) -> bool
        requires { IsClass self.now.names c }
        ensures { (name : List ℕ) → IsNumberOf self.now.names c name → result ≡ has_subclass self.now.classes name }
    {
        self.tree.has_subclass(c)
    }

    /// What a class has with all that it inherits.
    pub fn totals_of(&self, c: u32) -> Totals
        requires { IsClass self.now.names c }
        ensures { (name : List ℕ) → IsNumberOf self.now.names c name → result ≡ totals (inherited_of self.now.classes name) }
    {
        self.totals[c as usize]
    }

    /// The numbers of a class and its descendants, each once. No other class is looked at.
    pub fn family(&self, alloc: Global, c: u32) -> Result<Vec<u32>, OutOfMemory>
        requires { IsClass self.now.names c }
        ensures { (name : List ℕ) → IsNumberOf self.now.names c name → IfOk result (λ family. AreFamily self.now name family.items) }
    {
        let mut found = Vec::new(alloc);
        found.reserve(self.count())?;
        self.tree.family(c, self.totals_of(c), &mut found);
        let mut family = Vec::new(alloc);
        for (number, _) in &found {
            family.push(*number)?;
        }
        Ok(family)
    }

    /// The greatest numbers of variables among a class and its descendants, if the class itself came to have these totals.
    /// No other class is looked at.
    pub fn greatest_with(&self, alloc: Global, c: u32, top: Totals) -> Result<Greatest, OutOfMemory>
        requires { IsClass self.now.names c }
        ensures { (name : List ℕ) (row : ClassRow) → IsNumberOf self.now.names c name
            → IsValid (map.insert self.now.classes name row) → top ≡ totals (inherited_of (map.insert self.now.classes name row) name)
            → IfOk result (λ g. g ≡ greatest_of (extent_of (map.insert self.now.classes name row) name)) }
    {
        let mut found = Vec::new(alloc);
        found.reserve(self.count())?;
        self.tree.family(c, top, &mut found);
        let mut greatest = Greatest::none();
        for (_, totals) in &found {
            greatest = greatest.raised(*totals);
        }
        Ok(greatest)
    }

    /// The names of all classes, in byte order.
    pub fn names_sorted(&self, alloc: Global) -> Result<Names, OutOfMemory>
        ensures { IfOk result (λ names. names ≡ map.keys self.now.classes) }
    {
        self.tree.names_sorted(alloc)
    }

    /// Adds a class and answers its number. Takes no memory.
    pub fn add(&mut self, entry: ClassEntry) -> u32
        requires room { 0 < self.old.spare }
        requires new { map.get self.old.classes entry.class_name ≡ None }
        requires superclass { IsSuperclass self.old.names entry.superclass }
        ensures classes { self.new.classes ≡ map.insert self.old.classes entry.class_name (row_of self.old.names entry) }
        ensures names { self.new.names ≡ self.old.names ++ Some entry.class_name ∷ [] }
        ensures number { result ≡ length self.old.names }
        ensures spare { self.new.spare + 1 ≡ self.old.spare }
        ensures valid { IsValid self.new.classes }
    {
        let top = self.totals_with(&entry);
        self.totals.push_reserved(top);
        self.tree.add(entry)
    }

    /// Puts another entry in place of that of a class, and answers the old one. Takes no memory.
    pub fn replace(&mut self, c: u32, entry: ClassEntry) -> ClassEntry
        requires named { IsNumberOf self.old.names c entry.class_name }
        requires superclass { IsAbove self.old entry.superclass entry.class_name }
        ensures old { IsEntryOf self.old c result }
        ensures classes { self.new.classes ≡ map.insert self.old.classes entry.class_name (row_of self.old.names entry) }
        ensures names { self.new.names ≡ self.old.names }
        ensures spare { self.new.spare ≡ self.old.spare }
        ensures valid { IsValid self.new.classes }
    {
        let top = self.totals_with(&entry);
        self.tree.family(c, top, &mut self.found);
        settle(&mut self.totals, &self.found);
        self.found.clear();
        self.tree.replace(c, entry)
    }

    /// Gives a class another comment, and answers the old one. Takes no memory, and looks at no other class.
    pub fn set_comment(&mut self, c: u32, comment: Text) -> Text
        requires { IsClass self.old.names c }
        ensures old { (name : List ℕ) → IsNumberOf self.old.names c name → option_map (λ row. row.comment) (map.get self.old.classes name) ≡ Some result }
        ensures classes { (name : List ℕ) → IsNumberOf self.old.names c name → self.new.classes ≡ change_row (with_comment comment) name self.old.classes }
        ensures names { self.new.names ≡ self.old.names }
        ensures spare { self.new.spare ≡ self.old.spare }
    {
        self.tree.set_comment(c, comment)
    }

    /// Takes a class off that is no superclass, and answers its entry. Takes no memory.
    pub fn remove(&mut self, c: u32) -> ClassEntry
        requires class { IsClass self.old.names c }
        requires alone { (name : List ℕ) (other : List ℕ) (row : ClassRow) → IsNumberOf self.old.names c name
            → map.get self.old.classes other ≡ Some row → row.superclass ≢ Some name }
        ensures old { IsEntryOf self.old c result }
        ensures classes { self.new.classes ≡ map.remove self.old.classes result.class_name }
        ensures names { self.new.names ≡ slice_set self.old.names c None }
        ensures spare { self.new.spare ≡ self.old.spare }
    {
        self.tree.remove(c)
    }

    // What a class with this entry has with all that it inherits.
    fn totals_with(&self, entry: &ClassEntry) -> Totals
        requires { IsSuperclass self.now.names entry.now.superclass }
        ensures { (es : List (Name × ClassRow)) → IsLine self.now.classes (option_and_then (name_of self.now.names) entry.now.superclass) es
            → result ≡ over (own entry.now.kind entry.now.inst_vars entry.now.class_side_vars) (totals (inherited_in es)) }
    {
        let above = match entry.superclass {
            Some(superclass) => self.totals_of(superclass),
            None => Totals::none(),
        };
        Totals::own(entry).over(above)
    }
}

// Gives each of the classes that were found its totals.
fn settle(totals: &mut [Totals], found: &[(u32, Totals)])
    requires { (k : ℕ) (p : Found) → slice_get found.now k ≡ Some p → p.0 < length totals.old }
    ensures { IsSettled found.now totals.old totals.new }
{
    for (number, of_class) in found {
        totals[*number as usize] = *of_class;
    }
}
