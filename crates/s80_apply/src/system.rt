// The classes and their methods at work.
ghost use Rattle.std.specs.Prelude.{◌≡◌, ◌+◌, ◌<◌, ◌≤◌, ◌^◌, ℕ, length, None, IfOk, MatchOption, find, not};
ghost use Rattle.std.specs.FinMap as map;
ghost use Rattle.s80_base.specs.declared.names.Side.{Side};
ghost use Rattle.s80_dict.specs.Table.{methods_at, room_at};
ghost use Rattle.s80_class.specs.Classes.{IsValid, change_row, with_class_side_vars};
ghost use Rattle.s80_change.specs.declared.change.Change.TheVariants as changes;
ghost use Rattle.s80_form.specs.declared.form.Form.TheVariants as forms;
ghost use Rattle.s80_form.specs.Name.{is_name};
ghost use Rattle.s80_apply.specs.Accept.{define, refusal_of, refusal_of_class_vars};
ghost use Rattle.s80_apply.specs.List.{AreOfList};
ghost use Rattle.s80_apply.specs.Codes.{AreCodes};
ghost use Rattle.s80_apply.specs.System.{CanPut, CanPutMethod, CanTakeClass, ClassifiesMethod, FindsClass, FindsMethod, HasClass, HasClassAt, HasComment, HasDictionaryRoom, HasMethod, HasMethodAt, HasNumber, HasSourceAt, HaveRoom, IsInstalled, IsPrepared, IsReady, IsSoundSystem, LacksMethod, LosesClass, LosesMethod, MayPut, Places, SetsSourcePlace, Stays, offset_of, put_all, put_at_number, with_dictionaries, with_entry};

use crate::checks::{
    bad_name, bad_name_among, cycle, duplicate, duplicate_among, has_subclasses, kernel_class,
    too_many, too_many_class_side, unknown_class,
};
use crate::entry::{class_named, defined_entry, with_class_side_vars};
use crate::method::placed_method;
use crate::recompile::placed_again;
use crate::step::{Placed, PlacedMethod, SourcePlace, Step};
use s80_base::{Names, OutOfMemory, Side, Text};
use s80_change::{Change, Method};
use s80_class::{ClassEntry, ClassTable};
use s80_dict::MethodTable;
use s80_form::{Definition, Form, Refusal, Refused};
use s80_verify::Verified;
use std::alloc::Global;
use std::marker::Model;

/// The classes and their methods as a list of changes makes them. Contracts see the table of classes, and the dictionaries by the classes' numbers.
#[derive(Debug, Drop)]
pub struct System {
    pub(crate) classes: ClassTable,
    pub(crate) methods: MethodTable<Verified>,
    pub(crate) alloc: Global,
}

impl Model for System {
    ghost use Rattle.s80_apply.specs.System.{IsSoundSystem, SystemState};
    ghost use Rattle.s80_apply.specs.Coded.{system_code};

    ghost Value = { SystemState };

    ghost coded = { system_code };

    ghost view = { λ s. record { table = s.classes; methods = s.methods } };

    ghost invariant = { λ s. IsSoundSystem (record { table = s.classes; methods = s.methods }) };
}

impl System {
    /// The classes as they are now, those of some list of changes. Their numbers stay through each change.
    pub fn classes(&self) -> &ClassTable
        ensures table { result.now ≡ self.now.table }
        ensures of_list { AreOfList self.now.table.classes }
    {
        &self.classes
    }

    /// The methods of each class, by its number, each with its source and the code of that.
    pub fn methods(&self) -> &MethodTable<Verified>
        ensures methods { result.now ≡ self.now.methods }
        ensures codes { AreCodes self.now.table self.now.methods }
        ensures dictionaries { length self.now.methods.sides ≡ length self.now.table.names }
    {
        &self.methods
    }

    /// The number of the class of this name: by it the class has its dictionaries.
    pub fn find(&self, name: &Text) -> Option<u32>
        ensures { MatchOption result (map.get self.now.table.classes name.now ≡ None) (HasNumber self.now name.now) }
    {
        match class_named(&self.classes, name) {
            Some((number, _)) => Some(number),
            None => None,
        }
    }

    /// Prepares a change to be installed, or says why it is refused. Classes and methods stay.
    pub fn prepare(&mut self, alloc: Global, change: &Change) -> Result<Step, Refused>
        ensures prepared { IsPrepared self.old change.now self.new result }
        ensures stays { Stays self.old self.new }
    {
        match change {
            Change::Form(form) => self.prepare_form(alloc, form),
            Change::Method(method) => self.prepare_method(alloc, method),
            Change::DoIt { .. } => Ok(Step::Nothing),
        }
    }

    /// The same of what a doIt changes by its form.
    fn prepare_form(&mut self, alloc: Global, form: &Form) -> Result<Step, Refused>
        ensures prepared { IsPrepared self.old (changes.Form form.now) self.new result }
        ensures stays { Stays self.old self.new }
    {
        match form {
            Form::Define(definition) => Ok(Step::Class(self.place(alloc, definition)?)),
            Form::ClassVars { class_name, names } => {
                Ok(Step::Class(self.place_class_vars(alloc, class_name, names)?))
            }
            Form::Comment { class_name, text } => self.prepare_comment(alloc, class_name, text),
            Form::RemoveMethod {
                class_name,
                side,
                selector,
            } => self.prepare_removal_of_method(alloc, class_name, *side, selector),
            Form::Classify {
                class_name,
                side,
                selector,
                category,
            } => self.prepare_classifying(alloc, class_name, *side, selector, category),
            Form::RemoveClass { class_name } => self.prepare_removal(alloc, class_name),
            Form::NoChanges => Ok(Step::Nothing),
        }
    }

    /// A class gets a comment, if it is there.
    fn prepare_comment(
        &self,
        alloc: Global,
        class_name: &Text,
        text: &Text,
    ) -> Result<Step, Refused>
        ensures { IsPrepared self.now (changes.Form (forms.Comment class_name.now text.now)) self.now result }
    {
        let number = self.number_of(alloc, class_name)?;
        Ok(Step::Comment {
            number,
            text: text.copy(alloc)?,
        })
    }

    /// A method is taken away, if it is there.
    fn prepare_removal_of_method(
        &self,
        alloc: Global,
        class_name: &Text,
        side: Side,
        selector: &Text,
    ) -> Result<Step, Refused>
        ensures { IsPrepared self.now (changes.Form (forms.RemoveMethod class_name.now side selector.now)) self.now result }
    {
        let number = self.number_with_method(alloc, class_name, side, selector)?;
        Ok(Step::RemoveMethod {
            number,
            side,
            selector: selector.copy(alloc)?,
        })
    }

    /// A method gets a category, if it is there.
    fn prepare_classifying(
        &self,
        alloc: Global,
        class_name: &Text,
        side: Side,
        selector: &Text,
        category: &Text,
    ) -> Result<Step, Refused>
        ensures { IsPrepared self.now (changes.Form (forms.Classify class_name.now side selector.now category.now)) self.now result }
    {
        let number = self.number_with_method(alloc, class_name, side, selector)?;
        Ok(Step::Classify {
            number,
            side,
            selector: selector.copy(alloc)?,
            category: category.copy(alloc)?,
        })
    }

    /// A class is taken away, if it is there, isn't one of the kernel's, and no class has it as its superclass.
    fn prepare_removal(&self, alloc: Global, class_name: &Text) -> Result<Step, Refused>
        ensures { IsPrepared self.now (changes.Form (forms.RemoveClass class_name.now)) self.now result }
    {
        let number = self.number_of(alloc, class_name)?;
        if let Some(refusal) = kernel_class(alloc, class_name)? {
            return Err(Refused::Refusal(refusal));
        }
        if let Some(refusal) = has_subclasses(alloc, &self.classes, number, class_name)? {
            return Err(Refused::Refusal(refusal));
        }
        Ok(Step::RemoveClass { number })
    }

    /// The number of the class of this name, or that there is none.
    fn number_of(&self, alloc: Global, name: &Text) -> Result<u32, Refused>
        ensures { FindsClass self.now name.now result }
    {
        match self.find(name) {
            Some(number) => Ok(number),
            None => Err(Refused::Refusal(Refusal::UnknownClass(name.copy(alloc)?))),
        }
    }

    /// The number of the class of this name, which has a method of this selector on this side; or that there is none.
    fn number_with_method(
        &self,
        alloc: Global,
        name: &Text,
        side: Side,
        selector: &Text,
    ) -> Result<u32, Refused>
        ensures { FindsMethod self.now name.now side selector.now result }
    {
        let number = self.number_of(alloc, name)?;
        match self.methods.dict(number, side).get(selector) {
            Some(_) => Ok(number),
            None => {
                let refusal = Refusal::NoSelector(name.copy(alloc)?, side, selector.copy(alloc)?);
                Err(Refused::Refusal(refusal))
            }
        }
    }

    /// The entry that a definition puts, or why it is refused.
    fn place(&mut self, alloc: Global, definition: &Definition) -> Result<Placed, Refused>
        ensures answer { Places (refusal_of definition.now self.old.table.classes) (define definition.now self.old.table.classes) self.new result }
        ensures sound { IfOk result (λ _. IsSoundSystem self.new) }
        ensures stays { Stays self.old self.new }
    {
        if let Some(refusal) = self.refusal(alloc, definition)? {
            return Err(Refused::Refusal(refusal));
        }
        let number = self.classes.find(&definition.class_name);
        let entry = defined_entry(alloc, &self.classes, definition)?;
        self.classes.reserve(1)?;
        self.methods.reserve(1)?;
        match number {
            Some(number) => Ok(placed_again(
                alloc,
                &mut self.classes,
                &self.methods,
                number,
                entry,
            )?),
            None => Ok(Placed {
                number,
                entry,
                recompiled: Vec::new(alloc),
            }),
        }
    }

    /// The entry that gives a class other class-side variables, or why they are refused.
    fn place_class_vars(
        &mut self,
        alloc: Global,
        class_name: &Text,
        names: &Names,
    ) -> Result<Placed, Refused>
        ensures answer { Places (refusal_of_class_vars class_name.now names.now self.old.table.classes)
            (change_row (with_class_side_vars names.now) class_name.now self.old.table.classes) self.new result }
        ensures sound { IfOk result (λ _. IsSoundSystem self.new) }
        ensures stays { Stays self.old self.new }
    {
        if let Some(refusal) = bad_name_among(alloc, names)? {
            return Err(Refused::Refusal(refusal));
        }
        let number = self.number_of(alloc, class_name)?;
        if let Some(refusal) = self.refusal_of_class_vars(alloc, number, class_name, names)? {
            return Err(Refused::Refusal(refusal));
        }
        let entry = with_class_side_vars(alloc, self.classes.at(number), names)?;
        Ok(placed_again(alloc, &mut self.classes, &self.methods, number, entry)?)
    }

    /// Why class-side variables are refused, whose names are names, for the class of this name and number.
    fn refusal_of_class_vars(
        &self,
        alloc: Global,
        number: u32,
        class_name: &Text,
        names: &Names,
    ) -> Result<Option<Refusal>, OutOfMemory>
        requires class { HasNumber self.now class_name.now number }
        requires names { find (λ name. not (is_name name)) names.now ≡ None }
        ensures { IfOk result (λ r. r ≡ refusal_of_class_vars class_name.now names.now self.now.table.classes) }
    {
        if let Some(refusal) = kernel_class(alloc, class_name)? {
            return Ok(Some(refusal));
        }
        if let Some(refusal) = duplicate_among(alloc, names)? {
            return Ok(Some(refusal));
        }
        too_many_class_side(alloc, &self.classes, number, names)
    }

    /// Why a definition is refused, if it is.
    fn refusal(
        &self,
        alloc: Global,
        definition: &Definition,
    ) -> Result<Option<Refusal>, OutOfMemory>
        ensures { IfOk result (λ r. r ≡ refusal_of definition.now self.now.table.classes) }
    {
        if let Some(refusal) = bad_name(alloc, definition)? {
            return Ok(Some(refusal));
        }
        if let Some(refusal) = unknown_class(alloc, &self.classes, &definition.superclass)? {
            return Ok(Some(refusal));
        }
        if let Some(refusal) = kernel_class(alloc, &definition.class_name)? {
            return Ok(Some(refusal));
        }
        if let Some(refusal) = cycle(alloc, &self.classes, definition)? {
            return Ok(Some(refusal));
        }
        if let Some(refusal) = duplicate(alloc, definition)? {
            return Ok(Some(refusal));
        }
        too_many(alloc, &self.classes, definition)
    }

    /// A method takes its place, in which its selector has room; or it is refused.
    fn prepare_method(&mut self, alloc: Global, method: &Method) -> Result<Step, Refused>
        ensures prepared { IsPrepared self.old (changes.Method method.now) self.new result }
        ensures stays { Stays self.old self.new }
    {
        let placed = placed_method(alloc, &self.classes, &self.methods, method)?;
        self.methods
            .make_room(placed.number, placed.side, placed.selector.copy(alloc)?)?;
        Ok(Step::Method(placed))
    }

    /// Installs a step that was prepared for these classes, whose block begins at this place of the log. Takes no memory.
    pub fn install(&mut self, step: Step, at: u64)
        requires ready { IsReady self.old step }
        requires place { at + offset_of step < 2 ^ 64 }
        ensures { IsInstalled self.old step at self.new }
    {
        match step {
            Step::Nothing => {}
            Step::Class(placed) => self.put(placed),
            Step::Comment { number, text } => self.comment(number, text),
            Step::RemoveClass { number } => self.remove_class(number),
            Step::Method(placed) => self.put_method(placed, at),
            Step::RemoveMethod {
                number,
                side,
                selector,
            } => self.remove_method(number, side, &selector),
            Step::Classify {
                number,
                side,
                selector,
                category,
            } => self.classify(number, side, &selector, category),
        }
    }

    /// Puts an entry among the classes, and the methods that were compiled again for it.
    fn put(&mut self, placed: Placed)
        requires can_put { CanPut self.old placed }
        requires of_list { AreOfList (with_entry self.old.table placed.entry) }
        ensures { HasClass self.old placed self.new }
    {
        put_entry(
            self.alloc,
            &mut self.classes,
            &mut self.methods,
            placed.number,
            placed.entry,
        );
        put_all(&mut self.methods, placed.recompiled);
    }

    /// Gives a class a comment.
    fn comment(&mut self, number: u32, text: Text)
        requires { HasClassAt self.old number }
        ensures { HasComment self.old number text self.new }
    {
        self.classes.set_comment(number, text);
    }

    /// Takes a class away with its methods.
    fn remove_class(&mut self, number: u32)
        requires { CanTakeClass self.old number }
        ensures { LosesClass self.old number self.new }
    {
        self.classes.remove(number);
        self.methods.clear(self.alloc, number);
    }

    /// Puts a method whose block begins at this place of the log.
    fn put_method(&mut self, placed: PlacedMethod, at: u64)
        requires ready { CanPutMethod self.old placed }
        requires place { at + placed.entry.position < 2 ^ 64 }
        ensures { HasMethod self.old placed at self.new }
    {
        let mut entry = placed.entry;
        entry.position += at;
        self.methods
            .insert(placed.number, placed.side, &placed.selector, entry);
    }

    /// Takes a method away.
    fn remove_method(&mut self, number: u32, side: Side, selector: &Text)
        requires { HasMethodAt self.old number side selector.now }
        ensures { LosesMethod self.old number side selector.now self.new }
    {
        self.methods.remove(number, side, selector);
    }

    /// Says that the source of a method stands at this place, and not behind the beginning of a block; answers whether the method is there. Takes no
    /// memory.
    pub fn set_source_place(
        &mut self,
        class_name: &Text,
        side: Side,
        selector: &Text,
        place: SourcePlace,
    ) -> bool
        ensures { SetsSourcePlace self.old class_name.now side selector.now place self.new result }
    {
        match self.find_with_method(class_name, side, selector) {
            Some(number) => {
                self.place_source(number, side, selector, place);
                true
            }
            None => false,
        }
    }

    /// The number of the class of this name, if it has a method of this selector on this side.
    fn find_with_method(&self, name: &Text, side: Side, selector: &Text) -> Option<u32>
        ensures { MatchOption result (LacksMethod self.now name.now side selector.now)
            (λ number. HasNumber self.now name.now number × HasMethodAt self.now number side selector.now) }
    {
        match self.find(name) {
            Some(number) => self.with_method(name, number, side, selector),
            None => None,
        }
    }

    /// The number of a class, which has this name, if it has a method of this selector on this side.
    fn with_method(&self, name: &Text, number: u32, side: Side, selector: &Text) -> Option<u32>
        requires { HasNumber self.now name.now number }
        ensures { MatchOption result (LacksMethod self.now name.now side selector.now)
            (λ n. HasNumber self.now name.now n × HasMethodAt self.now n side selector.now) }
    {
        match self.methods.dict(number, side).get(selector) {
            Some(_) => Some(number),
            None => None,
        }
    }

    /// Puts a method again, whose source stands at this place.
    fn place_source(&mut self, number: u32, side: Side, selector: &Text, place: SourcePlace)
        requires { HasMethodAt self.old number side selector.now }
        ensures { HasSourceAt self.old number side selector.now place self.new }
    {
        if let Some(mut entry) = self.methods.remove(number, side, selector) {
            entry.from_kernel = place.from_kernel;
            entry.position = place.position;
            entry.length = place.length;
            self.methods.insert(number, side, selector, entry);
        }
    }

    /// Gives a method another category.
    fn classify(&mut self, number: u32, side: Side, selector: &Text, category: Text)
        requires { HasMethodAt self.old number side selector.now }
        ensures { ClassifiesMethod self.old number side selector.now category self.new }
    {
        if let Some(mut entry) = self.methods.remove(number, side, selector) {
            entry.category = category;
            self.methods.insert(number, side, selector, entry);
        }
    }
}

/// Puts an entry among the classes. A new class gets dictionaries without methods.
fn put_entry(
    alloc: Global,
    classes: &mut ClassTable,
    methods: &mut MethodTable<Verified>,
    number: Option<u32>,
    entry: ClassEntry,
)
    requires may_put { MayPut classes.old number entry }
    requires room { HasDictionaryRoom number methods.old }
    ensures table { classes.new ≡ put_at_number classes.old number entry }
    ensures valid { IsValid classes.new.classes }
    ensures methods { (n : ℕ) (s : Side) → methods_at methods.new n s ≡ methods_at (with_dictionaries number methods.old) n s }
    ensures room { (n : ℕ) (s : Side) → room_at methods.new n s ≡ room_at methods.old n s }
    ensures count { length methods.new.sides ≡ length (with_dictionaries number methods.old).sides }
{
    match number {
        Some(number) => {
            classes.replace(number, entry);
        }
        None => {
            classes.add(entry);
            methods.add(alloc);
        }
    }
}

/// Puts methods, each of which has room, one after the other.
fn put_all(methods: &mut MethodTable<Verified>, placed: Vec<PlacedMethod>)
    requires { HaveRoom placed.items methods.old }
    ensures methods { (n : ℕ) (s : Side) → methods_at methods.new n s ≡ put_all placed.items (methods_at methods.old) n s }
    ensures count { length methods.new.sides ≡ length methods.old.sides }
{
    for method in placed {
        let entry = method.entry;
        methods.insert(method.number, method.side, &method.selector, entry);
    }
}
