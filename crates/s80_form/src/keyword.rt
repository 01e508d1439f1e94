// The words of the messages that change classes.
ghost use Rattle.std.specs.Prelude.{◌≡◌};
ghost use Rattle.s80_form.specs.Definition.{defining_selector, defining_word};
ghost use Rattle.s80_form.specs.Keyword.{keyword_selector, keyword_text, word_text};
ghost use Rattle.s80_form.specs.TreeParts.{Finds};

use crate::definition::Kind;

/// A message that changes classes, by its selector or, in a text, its first word.
#[derive(Clone, Copy)]
pub(crate) enum Keyword {
    /// It defines a class of this kind.
    Defines(Kind),
    /// It is told by this word alone.
    Plain(Word),
}

/// A word that tells a message by itself.
#[derive(Clone, Copy)]
pub(crate) enum Word {
    InstanceVariableNames,
    Comment,
    RemoveSelector,
    RemoveClassNamed,
    RemoveFromSystem,
    NoChanges,
    CondenseChanges,
    Snapshot,
    Organization,
}

/// The message that begins with this word, if there is one.
pub(crate) fn keyword_named(word: &[u8]) -> Option<Keyword>
    ensures { Finds (λ k. k) (λ k. word.now ≡ keyword_text k) result }
{
    if let Some(kind) = kind_named(word) {
        return Some(Keyword::Defines(kind));
    }
    Some(Keyword::Plain(word_named(word)?))
}

/// The message that has this selector, if there is one.
pub(crate) fn keyword_of(selector: &[u8]) -> Option<Keyword>
    ensures { Finds (λ k. k) (λ k. selector.now ≡ keyword_selector k) result }
{
    if let Some(kind) = kind_of(selector) {
        return Some(Keyword::Defines(kind));
    }
    Some(Keyword::Plain(word_named(selector)?))
}

/// The kind that the selector of a definition tells.
fn kind_of(selector: &[u8]) -> Option<Kind>
    ensures { Finds (λ kind. kind) (λ kind. selector.now ≡ defining_selector kind) result }
{
    let keywords =
        b"instanceVariableNames:classVariableNames:poolDictionaries:category:".as_slice();
    kind_named(selector.strip_suffix(keywords)?)
}

/// The kind that the first keyword of a definition tells.
fn kind_named(word: &[u8]) -> Option<Kind>
    ensures { Finds (λ kind. kind) (λ kind. word.now ≡ defining_word kind) result }
{
    if word == b"subclass:".as_slice() {
        Some(Kind::Plain)
    } else if word == b"variableSubclass:".as_slice() {
        Some(Kind::Pointers)
    } else if word == b"variableByteSubclass:".as_slice() {
        Some(Kind::Bytes)
    } else if word == b"variableWordSubclass:".as_slice() {
        Some(Kind::Words)
    } else {
        None
    }
}

/// The word that these bytes are, if they are one.
fn word_named(bytes: &[u8]) -> Option<Word>
    ensures { Finds (λ word. word) (λ word. bytes.now ≡ word_text word) result }
{
    if bytes == b"instanceVariableNames:".as_slice() {
        Some(Word::InstanceVariableNames)
    } else if bytes == b"comment:".as_slice() {
        Some(Word::Comment)
    } else if bytes == b"removeSelector:".as_slice() {
        Some(Word::RemoveSelector)
    } else if bytes == b"removeClassNamed:".as_slice() {
        Some(Word::RemoveClassNamed)
    } else if bytes == b"removeFromSystem".as_slice() {
        Some(Word::RemoveFromSystem)
    } else if bytes == b"noChanges".as_slice() {
        Some(Word::NoChanges)
    } else if bytes == b"condenseChanges".as_slice() {
        Some(Word::CondenseChanges)
    } else if bytes == b"snapshot".as_slice() {
        Some(Word::Snapshot)
    } else if bytes == b"organization".as_slice() {
        Some(Word::Organization)
    } else {
        None
    }
}
