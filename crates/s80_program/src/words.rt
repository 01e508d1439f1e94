// The command that words ask for.
ghost use Rattle.std.specs.Prelude.{◌≡◌, ◌∷◌, [], IfSome, IfNone};
ghost use Rattle.s80_line.specs.Line.{is_number};
ghost use Rattle.s80_program.specs.Command.{Command, behind_separators};
ghost use Rattle.s80_program.specs.Words.{AreOf};
ghost use Rattle.s80_program.specs.Task.{command_of};

use s80_base::{Text, is_separator};
use s80_line::number_in;

/// What the program is asked to do.
#[derive(Clone, Copy)]
pub(crate) enum Task<'w> {
    /// Works the chunks of the input.
    Run,
    /// Merges the chunks of the input, a second change set.
    Merge,
    /// Works this text as a chunk.
    Do(&'w Text),
    /// Says how much there is in the folder.
    Recover,
    /// Names all classes.
    Classes,
    /// Shows the class of this name.
    Browse(&'w Text),
    /// Shows the source of a method: of the class and side that the first word names, with this selector.
    Source(&'w Text, &'w Text),
    /// Shows the versions of a method, which is named so too.
    Versions(&'w Text, &'w Text),
    /// Lists the change set.
    Changes,
    /// Files out all classes.
    FileOut,
    /// Files out the class of this name.
    FileOutClass(&'w Text),
    /// Files out the change set.
    FileOutSet,
    /// Names the methods that send this selector.
    Senders(&'w Text),
    /// Names the methods of this selector.
    Implementors(&'w Text),
    /// Names the methods that refer to this outer name.
    References(&'w Text),
    /// Lists the outer names that nothing has.
    Undeclared,
    /// Lists the selectors that are sent and have no method.
    Unimplemented,
    /// Lists the selectors of methods that are never sent.
    Unsent,
    /// Makes a snapshot.
    Snapshot,
    /// Has the condensed list take the place of the list.
    Condense,
    /// Makes so many classes, from 1 to 1,000.
    Make(&'w Text),
}

/// The task that a word asks for by itself.
fn task_alone(word: &Text) -> Option<Task<'static>>
    ensures found { IfSome result (λ task. AreOf word.now [] (command_of task)) }
    ensures none { IfNone result ((command : Command) → AreOf word.now [] command → ⊥) }
{
    let bytes = word.bytes();
    if bytes == b"run".as_slice() {
        return Some(Task::Run);
    }
    if bytes == b"merge".as_slice() {
        return Some(Task::Merge);
    }
    if bytes == b"recover".as_slice() {
        return Some(Task::Recover);
    }
    if bytes == b"classes".as_slice() {
        return Some(Task::Classes);
    }
    if bytes == b"changes".as_slice() {
        return Some(Task::Changes);
    }
    if bytes == b"file-out".as_slice() {
        return Some(Task::FileOut);
    }
    if bytes == b"file-out-set".as_slice() {
        return Some(Task::FileOutSet);
    }
    if bytes == b"undeclared".as_slice() {
        return Some(Task::Undeclared);
    }
    if bytes == b"unimplemented".as_slice() {
        return Some(Task::Unimplemented);
    }
    if bytes == b"unsent".as_slice() {
        return Some(Task::Unsent);
    }
    if bytes == b"snapshot".as_slice() {
        return Some(Task::Snapshot);
    }
    if bytes == b"condense".as_slice() {
        return Some(Task::Condense);
    }
    None
}

/// The task that a word asks for with a name behind it.
fn task_on<'w>(word: &Text, name: &'w Text) -> Option<Task<'w>>
    ensures found { IfSome result (λ task. AreOf word.now (name.now ∷ []) (command_of task)) }
    ensures none { IfNone result ((command : Command) → AreOf word.now (name.now ∷ []) command → ⊥) }
{
    if word.bytes() == b"browse".as_slice() {
        return Some(Task::Browse(name));
    }
    if word.bytes() == b"file-out-class".as_slice() {
        return Some(Task::FileOutClass(name));
    }
    if word.bytes() == b"senders".as_slice() {
        return Some(Task::Senders(name));
    }
    if word.bytes() == b"implementors".as_slice() {
        return Some(Task::Implementors(name));
    }
    if word.bytes() == b"references".as_slice() {
        return Some(Task::References(name));
    }
    if word.bytes() == b"do".as_slice() && !behind_separators(name).is_empty() {
        return Some(Task::Do(name));
    }
    if word.bytes() == b"make".as_slice() && is_count(name) {
        return Some(Task::Make(name));
    }
    None
}

/// How many digits a number of classes has at most.
pub(crate) const DIGITS: usize = 4;

/// The greatest number of classes.
pub(crate) const MOST: u64 = 1_000;

/// Whether a word is a number of classes.
fn is_count(word: &Text) -> bool
    ensures { result ≡ is_number 4 1000 word.now }
{
    number_in(word.bytes(), DIGITS, MOST).is_some()
}

/// What stands behind the separators at a text's beginning.
pub(crate) fn behind_separators(text: &Text) -> &[u8]
    ensures { result.now ≡ behind_separators text.now }
{
    let bytes = text.bytes();
    let count = bytes.iter().take_while(|b| is_separator(**b)).count();
    &bytes[count..]
}

/// The task that a word asks for with two words behind it.
fn task_on_both<'w>(word: &Text, spec: &'w Text, selector: &'w Text) -> Option<Task<'w>>
    ensures found { IfSome result (λ task. AreOf word.now (spec.now ∷ selector.now ∷ []) (command_of task)) }
    ensures none { IfNone result ((command : Command) → AreOf word.now (spec.now ∷ selector.now ∷ []) command → ⊥) }
{
    if word.bytes() == b"source".as_slice() {
        return Some(Task::Source(spec, selector));
    }
    if word.bytes() == b"versions".as_slice() {
        return Some(Task::Versions(spec, selector));
    }
    None
}

/// The task that a command's word and its arguments ask for.
pub(crate) fn task_of<'w>(word: &Text, arguments: &'w [Text]) -> Option<Task<'w>>
    ensures found { IfSome result (λ task. AreOf word.now arguments.now (command_of task)) }
    ensures none { IfNone result ((command : Command) → AreOf word.now arguments.now command → ⊥) }
{
    match arguments {
        [] => task_alone(word),
        [name] => task_on(word, name),
        [spec, selector] => task_on_both(word, spec, selector),
        _ => None,
    }
}
