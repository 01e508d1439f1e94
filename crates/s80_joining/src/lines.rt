// The lines that merging is answered.
ghost use Rattle.std.specs.Prelude.{◌≡◌, ◌++◌, IfOk, OnOk, codes};
ghost use Rattle.s80_print.specs.Refusal.{spec_of};
ghost use Rattle.s80_joining.specs.Answer.{conflict_line, conflict_lines, key_text, merged_line};

use s80_base::{OutOfMemory, Side, Text};
use s80_form::side_text;
use s80_merge::{Key, Keys};
use std::alloc::Global;

/// A line for each key that is in conflict.
pub fn conflict_lines(alloc: Global, keys: &Keys) -> Result<Text, OutOfMemory>
    ensures { IfOk result (λ text. text ≡ conflict_lines keys.now) }
{
    let mut text = Text::empty(alloc);
    for i in 0..keys.count() {
        put_conflict(&mut text, keys.at(i))?;
    }
    Ok(text)
}

/// The line that tells how many changes were accepted.
pub fn merged_line(alloc: Global, count: u64) -> Result<Text, OutOfMemory>
    ensures { IfOk result (λ line. line ≡ merged_line count) }
{
    let line = format!(in alloc; "merged {count} changes\n")?;
    Text::from_bytes(alloc, line.as_bytes())
}

/// Puts the line of a key behind a text.
fn put_conflict(text: &mut Text, key: &Key) -> Result<(), OutOfMemory>
    ensures { OnOk result (text.new ≡ text.old ++ conflict_line key.now) }
{
    text.append(b"conflict ")?;
    put_key(text, key)?;
    text.append(b"\n")
}

fn put_key(text: &mut Text, key: &Key) -> Result<(), OutOfMemory>
    ensures { OnOk result (text.new ≡ text.old ++ key_text key.now) }
{
    match key {
        Key::ClassKey(name) => put_named(text, b"class ", name),
        Key::DefinitionKey(name) => put_named(text, b"definition ", name),
        Key::ClassVarsKey(name) => put_named(text, b"class-variables ", name),
        Key::CommentKey(name) => put_named(text, b"comment ", name),
        Key::MethodKey(name, side, selector) => put_method(text, name, *side, selector),
    }
}

fn put_named(text: &mut Text, word: &[u8], name: &Text) -> Result<(), OutOfMemory>
    ensures { OnOk result (text.new ≡ text.old ++ (word.now ++ name.now)) }
{
    text.append(word)?;
    text.append(name.bytes())
}

fn put_method(text: &mut Text, name: &Text, side: Side, selector: &Text) -> Result<(), OutOfMemory>
    ensures { OnOk result (text.new ≡ text.old ++ (codes "method " ++ spec_of name.now side ++ codes " " ++ selector.now)) }
{
    text.append(b"method ")?;
    put_spec(text, name, side)?;
    text.append(b" ")?;
    text.append(selector.bytes())
}

/// Puts the name of a class behind a text, with a word behind it for its class side.
fn put_spec(text: &mut Text, name: &Text, side: Side) -> Result<(), OutOfMemory>
    ensures { OnOk result (text.new ≡ text.old ++ spec_of name.now side) }
{
    text.append(name.bytes())?;
    text.append(side_text(side))
}
