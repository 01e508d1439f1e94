// The text of a file of changes.
ghost use Rattle.std.specs.Prelude.{◌≡◌, ◌++◌, ◌∷◌, List, None, IfOk, OnOk};
ghost use Rattle.s80_change.specs.declared.change.Change.{Change as ChangeValue};
ghost use Rattle.s80_change.specs.declared.change.Change.TheVariants as changes;
ghost use Rattle.s80_change.specs.Block.{head_of};
ghost use Rattle.s80_fileout.specs.FileText.{IsFile, begun, changes_from, changes_text, closed, header, is_same_head};
ghost use Rattle.s80_fileout.specs.Moment.{IsMoment};

use crate::moment::add_moment;
use s80_base::{OutOfMemory, Side, Text};
use s80_change::{Change, Changes, Method, SectionHead, block_text, head_text};
use s80_chunk::write_chunk;
use std::alloc::Global;

/// The text of a file of changes that were filed out so many seconds after the beginning of 1970, the moment of its first line in UTC
/// (Krasner, "The Smalltalk-80 Code File Format"): neighbouring methods of one category share a section.
pub fn render(alloc: Global, changes: &Changes, seconds: u64) -> Result<Text, OutOfMemory>
    ensures { IfOk result (IsFile changes.now seconds) }
{
    let header = header(alloc, seconds)?;
    with_changes(alloc, header, changes)
}

/// The first line.
fn header(alloc: Global, seconds: u64) -> Result<Text, OutOfMemory>
    ensures { IfOk result (λ text. (moment : _) × IsMoment seconds moment × (text ≡ header moment)) }
{
    let mut text = Text::from_bytes(alloc, b"'From Smalltalk-80, filed out ")?;
    add_moment(&mut text, seconds)?;
    text.append(b"'!\n")?;
    Ok(text)
}

/// A text with changes behind it.
fn with_changes(alloc: Global, text: Text, changes: &Changes) -> Result<Text, OutOfMemory>
    ensures { IfOk result (λ now. now ≡ text ++ changes_text changes.now) }
{
    let mut file = File {
        text,
        section: None,
    };
    for i in 0..changes.count() {
        file.add(alloc, changes.at(i))?;
    }
    file.close()?;
    Ok(file.text)
}

/// A file as it is written: its text so far, and the head of the section that is open.
#[derive(Drop)]
struct File {
    text: Text,
    section: Option<SectionHead>,
}

impl File {
    /// Adds a change.
    fn add(&mut self, alloc: Global, change: &Change) -> Result<(), OutOfMemory>
        ensures { (more : List ChangeValue) → OnOk result (self.new.text ++ changes_from self.new.section more ≡ self.old.text ++ changes_from self.old.section (change.now ∷ more)) }
    {
        match change {
            Change::Method(method) => self.add_method(alloc, method),
            other => {
                self.close()?;
                self.text.append(block_text(alloc, other)?.bytes())
            }
        }
    }

    /// Adds a method, in the section that is open, or in one of its own.
    fn add_method(&mut self, alloc: Global, method: &Method) -> Result<(), OutOfMemory>
        ensures { (more : List ChangeValue) → OnOk result (self.new.text ++ changes_from self.new.section more ≡ self.old.text ++ changes_from self.old.section (changes.Method method.now ∷ more)) }
    {
        let head = head_of(alloc, method)?;
        self.begin(alloc, &head)?;
        self.text
            .append(write_chunk(alloc, method.source.text())?.bytes())?;
        self.section = Some(head);
        Ok(())
    }

    /// Adds what stands before a source in a section of this head.
    fn begin(&mut self, alloc: Global, head: &SectionHead) -> Result<(), OutOfMemory>
        ensures { OnOk result (self.new.text ≡ self.old.text ++ begun self.old.section head.now) }
    {
        if let Some(section) = &self.section {
            if is_same_head(section, head) {
                return self.text.append(b"\n\n");
            }
        }
        self.close()?;
        self.text.append(b"!")?;
        self.text
            .append(write_chunk(alloc, &head_text(alloc, head)?)?.bytes())?;
        self.text.append(b"\n")
    }

    /// Ends the section that is open, if one is.
    fn close(&mut self) -> Result<(), OutOfMemory>
        ensures text { OnOk result (self.new.text ≡ self.old.text ++ closed self.old.section) }
        ensures none { OnOk result (self.new.section ≡ None) }
    {
        if let Some(_) = self.section.take() {
            self.text.append(b" !\n")?;
        }
        Ok(())
    }
}

/// The head of the section in which a method stands.
fn head_of(alloc: Global, method: &Method) -> Result<SectionHead, OutOfMemory>
    ensures { IfOk result (λ head. head ≡ head_of method.now) }
{
    Ok(SectionHead {
        class_name: method.class_name.copy(alloc)?,
        side: method.side,
        category: method.category.copy(alloc)?,
    })
}

fn is_same_head(one: &SectionHead, other: &SectionHead) -> bool
    ensures { result ≡ is_same_head one.now other.now }
{
    one.class_name.bytes() == other.class_name.bytes()
        && one.side == other.side
        && one.category.bytes() == other.category.bytes()
}
