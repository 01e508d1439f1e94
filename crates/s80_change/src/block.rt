// The block of a change: how the log keeps it.
ghost use Rattle.std.specs.Prelude.{◌≡◌, ◌≤◌, ◌↔◌, ◌++◌, ℕ, List, length, IsTrue, IfOk, MatchOption, MatchBool};
ghost use Rattle.s80_chunk.specs.Chunks.{IsChunkText, IsPlainText};
ghost use Rattle.s80_change.specs.declared.change.Change.{Change};
ghost use Rattle.s80_form.specs.Form.{IsNoForm, IsNoFormText};
ghost use Rattle.s80_tree.specs.Tree.{doit_of};
ghost use Rattle.s80_change.specs.Block.{block, framing_of, IsLawful, HasNoChange};
ghost use Rattle.s80_change.specs.declared.framing.Framing.{Framing};

use crate::change::{Change, Method};
use crate::framing::Framing;
use crate::head::SectionHead;
use crate::logged_head::{head_text, read_head};
use crate::source::Source;
use s80_base::{OutOfMemory, Text, is_separator};
use s80_chunk::LONGEST;
use s80_form::{Recognised, form_text, read_form, recognise};
use s80_syntax::{DoItTree, ParseFault, parse_doit};
use std::alloc::Global;

/// The block that keeps a change in the log.
pub fn block_text(alloc: Global, change: &Change) -> Result<Text, OutOfMemory>
    ensures { IfOk result (λ text. text ≡ block change.now) }
{
    framing(alloc, change)?.bytes(alloc)
}

/// The framing of a change.
fn framing(alloc: Global, change: &Change) -> Result<Framing, OutOfMemory>
    ensures { IfOk result (λ framing. framing ≡ framing_of change.now) }
{
    match change {
        Change::Form(form) => Ok(Framing::Plain(form_text(alloc, form)?)),
        Change::Method(method) => {
            let head = SectionHead {
                class_name: method.class_name.copy(alloc)?,
                side: method.side,
                category: method.category.copy(alloc)?,
            };
            Ok(Framing::Section(head_text(alloc, &head)?, method.source.text().copy(alloc)?))
        }
        Change::DoIt { text } => Ok(Framing::Plain(text.copy(alloc)?)),
    }
}

/// The change whose block has this framing, if there is one.
pub fn read_change(alloc: Global, framing: Framing) -> Result<Option<Change>, OutOfMemory>
    ensures { IfOk result (λ found. MatchOption found (HasNoChange framing) (λ change. IsLawful change × (framing_of change ≡ framing))) }
{
    match framing {
        Framing::Plain(text) => read_plain(alloc, text),
        Framing::Section(head, source) => read_method(alloc, &head, source),
    }
}

/// The method whose section has this head and this source, if there is one.
fn read_method(alloc: Global, head: &Text, source: Text) -> Result<Option<Change>, OutOfMemory>
    ensures { IfOk result (λ found. MatchOption found (HasNoChange (Framing.Section head.now source)) (λ change. IsLawful change × (framing_of change ≡ Framing.Section head.now source))) }
{
    let Some(head) = read_head(alloc, head)? else {
        return Ok(None);
    };
    if !is_short_text(source.bytes()) {
        return Ok(None);
    }
    let source = Source::parse(alloc, source)?;
    Ok(Some(Change::Method(Method {
        class_name: head.class_name,
        side: head.side,
        category: head.category,
        source,
    })))
}

/// Whether a text is that of a chunk, and not too long.
fn is_short_text(text: &[u8]) -> bool
    ensures { IsTrue result ↔ (IsChunkText text.now × (length text.now ≤ 65535)) }
{
    match text.first() {
        None => false,
        Some(byte) => !is_separator(*byte) && text.len() <= LONGEST,
    }
}

/// The change whose plain text this is, if there is one.
fn read_plain(alloc: Global, text: Text) -> Result<Option<Change>, OutOfMemory>
    ensures { IfOk result (λ found. MatchOption found (HasNoChange (Framing.Plain text)) (λ change. IsLawful change × (framing_of change ≡ Framing.Plain text))) }
{
    if let Some(form) = read_form(alloc, &text)? {
        return Ok(Some(Change::Form(form)));
    }
    if is_doit(alloc, &text)? {
        return Ok(Some(Change::DoIt { text }));
    }
    Ok(None)
}

/// Whether a text is that of a doIt that the log keeps.
fn is_doit(alloc: Global, text: &Text) -> Result<bool, OutOfMemory>
    ensures { IfOk result (λ is. MatchBool is (IsLawful (Change.DoIt text.now)) (IsLawful (Change.DoIt text.now) → ⊥)) }
{
    if !is_plain_text(text.bytes()) {
        return Ok(false);
    }
    has_no_form(alloc, text)
}

/// Whether a text has none of the forms by which doIts change classes.
fn has_no_form(alloc: Global, text: &Text) -> Result<bool, OutOfMemory>
    requires { length text.now ≤ 65535 }
    ensures { IfOk result (λ none. MatchBool none (IsNoFormText text.now) (IsNoFormText text.now → ⊥)) }
{
    match parse_doit(alloc, text) {
        Ok(tree) => is_kept(alloc, &tree),
        Err(ParseFault::Memory) => Err(OutOfMemory),
        Err(_) => Ok(true),
    }
}

/// Whether a tree has none of these forms. One that asks to condense has none, and is kept.
fn is_kept(alloc: Global, tree: &DoItTree) -> Result<bool, OutOfMemory>
    ensures { IfOk result (λ none. MatchBool none (IsNoForm (doit_of tree.now)) (IsNoForm (doit_of tree.now) → ⊥)) }
{
    match recognise(alloc, tree)? {
        Recognised::Form(_) => Ok(false),
        Recognised::Condense => Ok(true),
        Recognised::Snapshot => Ok(false),
        Recognised::Evaluate => Ok(true),
    }
}

/// Whether a text is that of a plain chunk: it isn't too long, and begins with no separator and no mark.
fn is_plain_text(text: &[u8]) -> bool
    ensures { IsTrue result ↔ IsPlainText text.now }
{
    is_short_text(text) && text.first() != Some(&b'!')
}

/// Where two texts begin with the block of a lawful change, it is one change: no block begins another, and each has its own.
pub fn blocks_part_in_one_way()
    ensures { (c d : Change) (after other : List ℕ) → IsLawful c → IsLawful d → block c ++ after ≡ block d ++ other
        → (c ≡ d) × (after ≡ other) }
{}
