// Sections of an input.
ghost use Rattle.std.specs.Prelude.{◌≡◌, ◌≤◌, ◌<◌, Some, length, IfOk};
ghost use Rattle.s80_change.specs.declared.change.Change.{Change};
ghost use Rattle.s80_apply.specs.List.{classes_of};
ghost use Rattle.s80_model.specs.Asked.{AsksHead, ask_of_too_long, opens};
ghost use Rattle.s80_model.specs.Replies.{IsAnswer, Work, method_in};

use crate::reply::{Answer, Reply};
use s80_apply::System;
use s80_base::{OutOfMemory, Text};
use s80_change::{HeadFault, Method, SectionHead, Source, head_of, syntax_refusal};
use s80_chunk::{LONGEST, Role};
use s80_form::{FitWord, Refusal};
use std::alloc::Global;

/// Where in a chunk file the next item stands.
#[derive(Debug, Drop)]
pub enum Section {
    /// At top level.
    Top,
    /// In a section of this head, whose class is there.
    Open(SectionHead),
    /// In a section whose head was refused: it is passed over.
    Refused,
}

/// What a head is answered, and the section that it begins. The section of a head that is none, or whose class isn't there, is passed over.
pub fn head_answer(alloc: Global, system: &System, text: Text) -> Result<Answer, OutOfMemory>
    ensures answer { (work : Work) → system.now.table.classes ≡ classes_of work.changes → length text ≤ 65535
        → IfOk result (λ answer. (ask : _) × AsksHead text ask × IsAnswer work ask answer) }
    ensures long { (work : Work) → 65535 < length text → IfOk result (IsAnswer work (ask_of_too_long Role.Head (length text))) }
{
    let length = text.bytes().len();
    if length > LONGEST {
        let refusal = Refusal::TooLarge(FitWord::Chunk, length as u64);
        return Ok(refused_head(refusal));
    }
    match head_of(alloc, &text) {
        Ok(head) => known_head(alloc, system, head),
        Err(HeadFault::Memory) => Err(OutOfMemory),
        Err(HeadFault::Syntax(fault)) => Ok(refused_head(syntax_refusal(fault)?)),
        Err(HeadFault::NoSection) => Ok(refused_head(Refusal::NoSection(text))),
    }
}

/// The section of a head whose class is there.
fn known_head(alloc: Global, system: &System, head: SectionHead) -> Result<Answer, OutOfMemory>
    ensures { (work : Work) → system.now.table.classes ≡ classes_of work.changes
        → IfOk result (IsAnswer work (opens head)) }
{
    if system.find(&head.class_name).is_none() {
        let name = head.class_name.copy(alloc)?;
        return Ok(refused_head(Refusal::UnknownClass(name)));
    }
    Ok(Answer {
        reply: Reply::Silent,
        section: Some(Section::Open(head)),
    })
}

/// A refused head, whose section is passed over.
fn refused_head(refusal: Refusal) -> Answer
    ensures { result ≡ record { reply = Reply.Refused refusal; section = Some Section.Refused } }
{
    Answer {
        reply: Reply::Refused(refusal),
        section: Some(Section::Refused),
    }
}

/// What a text is answered that is too long. A head begins a section that is passed over; outside an open section a method is passed over.
pub fn too_long_answer(section: &Section, role: Role, length: u64) -> Answer
    ensures { (work : Work) → work.section ≡ section.now → IsAnswer work (ask_of_too_long role length) result }
{
    let refusal = Refusal::TooLarge(FitWord::Chunk, length);
    match role {
        Role::Plain => Answer::staying(Reply::Refused(refusal)),
        Role::Head => refused_head(refusal),
        Role::Method => match section {
            Section::Open(_) => Answer::staying(Reply::Refused(refusal)),
            Section::Top | Section::Refused => Answer::staying(Reply::Silent),
        },
    }
}

/// The method of a source in the class of a section.
pub fn method_of(alloc: Global, head: &SectionHead, source: Source) -> Result<Method, OutOfMemory>
    ensures { IfOk result (λ method. Change.Method method ≡ method_in head.now source) }
{
    Ok(Method {
        class_name: head.class_name.copy(alloc)?,
        side: head.side,
        category: head.category.copy(alloc)?,
        source,
    })
}
