// The changes of an input, worked from a base.
ghost use Rattle.std.specs.Prelude.{◌≡◌, ◌≤◌, ◌<◌, ◌++◌, ◌∷◌, [], List, length, IfOk, OnOk, OnErr};
ghost use Rattle.s80_chunk.specs.Chunks.{longest};
ghost use Rattle.s80_apply.specs.List.{state_of};
ghost use Rattle.s80_apply.specs.State.{State};
ghost use Rattle.s80_model.specs.Asked.{Asks, AsksHead, AsksMethod, AsksPlain, ask_of_too_long, opens};
ghost use Rattle.s80_model.specs.declared.item.SessionItem.{SessionItem as ItemOf};
ghost use Rattle.s80_joining.specs.Theirs.{Comes, ComesBy, HasTaken, IsAt, IsGiven, Takes, Worked, after_ask, after_change, is_passed_over};

use crate::kinds::{is_doit, is_no_changes};
use s80_apply::{System, boot};
use s80_base::{OutOfMemory, Text};
use s80_change::{Change, Changes, HeadFault, SectionHead, Source, head_of, syntax_refusal};
use s80_chunk::{Item, LONGEST, Role};
use s80_form::{FitWord, Form, Refusal, Refused};
use s80_merge::{work, work_all};
use s80_model::{Plain, Section, SessionItem, method_of, plain_of};
use std::alloc::Global;

/// The changes of an input, worked from a base item by item up to the first item that is bad. DoIts aren't evaluated.
#[derive(Drop)]
pub struct Theirs {
    system: System,
    section: Section,
    changes: Changes,
}

impl Theirs {
    /// Before the first item. In the base, what is refused is left out.
    pub fn begin(alloc: Global, base: &Changes) -> Result<Theirs, OutOfMemory>
        ensures { IfOk result (λ theirs. HasTaken theirs (state_of base.now) []) }
    {
        let mut system = boot(alloc)?;
        work_all(alloc, &mut system, base)?;
        Ok(Theirs {
            system,
            section: Section::Top,
            changes: Changes::empty(alloc),
        })
    }

    /// Works an item behind those before it, or says why it is bad. Behind that, and when out of memory, no more is to be worked.
    pub fn take(&mut self, alloc: Global, item: SessionItem) -> Result<(), Refused>
        ensures { (state : State) (given : List ItemOf) → HasTaken self.old state given → IsGiven item → Takes self.new state (given ++ item ∷ []) result }
    {
        self.work_item(alloc, item)
    }

    /// The changes of the items.
    pub(crate) fn into_changes(self) -> Changes
        ensures { result ≡ self.changes }
    {
        self.changes
    }

    fn work_item(&mut self, alloc: Global, item: SessionItem) -> Result<(), Refused>
        ensures { (worked : Worked) → IsAt self.old worked → IsGiven item → ComesBy (Asks item) worked self.new result }
    {
        match item {
            SessionItem::Chunk(Item::Plain(text)) => self.work_text(alloc, text),
            SessionItem::Chunk(Item::Head(text)) => self.work_head(alloc, text),
            SessionItem::Chunk(Item::Method(text)) => self.work_method(alloc, text),
            SessionItem::Chunk(Item::SectionEnd) => {
                self.section = Section::Top;
                Ok(())
            }
            SessionItem::Chunk(Item::TooLong { role, length }) => self.work_too_long(role, length),
            SessionItem::Unended => Err(Refused::Refusal(Refusal::Unended)),
            SessionItem::Query(_) => Ok(()),
        }
    }

    /// Works the change that a plain text asks for by its form. Whatever else it asks is passed over.
    fn work_text(&mut self, alloc: Global, text: Text) -> Result<(), Refused>
        ensures { (worked : Worked) → IsAt self.old worked → length text ≤ longest → ComesBy (AsksPlain text) worked self.new result }
    {
        check_length(&text)?;
        match plain_of(alloc, text)? {
            Plain::Form(form) => self.work_change(alloc, Change::Form(form)),
            Plain::Snapshot => Ok(()),
            Plain::Condense => Ok(()),
            Plain::Evaluate(_, _) => Ok(()),
        }
    }

    /// Begins the section of a head.
    fn work_head(&mut self, alloc: Global, text: Text) -> Result<(), Refused>
        ensures { (worked : Worked) → IsAt self.old worked → length text ≤ longest → ComesBy (AsksHead text) worked self.new result }
    {
        check_length(&text)?;
        match head_of(alloc, &text) {
            Ok(head) => self.open(alloc, head),
            Err(HeadFault::Memory) => Err(Refused::Memory),
            Err(HeadFault::Syntax(fault)) => Err(Refused::Refusal(syntax_refusal(fault)?)),
            Err(HeadFault::NoSection) => Err(Refused::Refusal(Refusal::NoSection(text))),
        }
    }

    /// The same of a head that is one, where its class is there.
    fn open(&mut self, alloc: Global, head: SectionHead) -> Result<(), Refused>
        ensures { (worked : Worked) → IsAt self.old worked → Comes (after_ask worked (opens head)) self.new result }
    {
        if self.system.find(&head.class_name).is_none() {
            let name = head.class_name.copy(alloc)?;
            return Err(Refused::Refusal(Refusal::UnknownClass(name)));
        }
        self.section = Section::Open(head);
        Ok(())
    }

    /// Works the method of a source in the class of an open section. In another section it is passed over.
    fn work_method(&mut self, alloc: Global, text: Text) -> Result<(), Refused>
        ensures { (worked : Worked) → IsAt self.old worked → length text ≤ longest → ComesBy (AsksMethod text) worked self.new result }
    {
        check_length(&text)?;
        let source = Source::parse(alloc, text)?;
        match &self.section {
            Section::Open(head) => {
                let method = method_of(alloc, head, source)?;
                self.work_change(alloc, Change::Method(method))
            }
            Section::Top => Ok(()),
            Section::Refused => Ok(()),
        }
    }

    /// Refuses a text that is too long; outside an open section a method is passed over.
    fn work_too_long(&self, role: Role, length: u64) -> Result<(), Refused>
        ensures { (worked : Worked) → IsAt self.now worked → Comes (after_ask worked (ask_of_too_long role length)) self.now result }
    {
        match role {
            Role::Plain => Err(too_large(length)),
            Role::Head => Err(too_large(length)),
            Role::Method => match self.section {
                Section::Open(_) => Err(too_large(length)),
                Section::Top => Ok(()),
                Section::Refused => Ok(()),
            },
        }
    }

    /// Works a change and keeps it, unless it is one that is passed over.
    fn work_change(&mut self, alloc: Global, change: Change) -> Result<(), Refused>
        ensures { (worked : Worked) → IsAt self.old worked → Comes (after_change worked change) self.new result }
    {
        if is_passed_over(&change) {
            return Ok(());
        }
        work(alloc, &mut self.system, &change)?;
        self.changes.push(change)?;
        Ok(())
    }
}

/// Refuses a text that is too long for a chunk.
fn check_length(text: &Text) -> Result<(), Refused>
    ensures short { OnOk result (length text.now ≤ longest) }
    ensures long { OnErr result (longest < length text.now) }
{
    let length = text.bytes().len();
    if length > LONGEST {
        return Err(too_large(length as u64));
    }
    Ok(())
}

fn too_large(length: u64) -> Refused
    ensures { result ≡ Refused.Refusal (Refusal.TooLarge FitWord.Chunk length) }
{
    Refused::Refusal(Refusal::TooLarge(FitWord::Chunk, length))
}

/// Whether a change is none of theirs: it begins a set anew, or is a doIt.
fn is_passed_over(change: &Change) -> bool
    ensures { result ≡ is_passed_over change.now }
{
    is_doit(change) || is_no_changes(change)
}
