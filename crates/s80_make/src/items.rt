// The items of generated input.
ghost use Rattle.std.specs.Prelude.{◌≡◌, ◌++◌, ◌∷◌, ◌*◌, ◌^◌, ◌<◌, ℕ, [], IfOk, Some, codes, decimal, slice_get};
ghost use Rattle.s80_chunk.specs.Chunks.{IsChunkText, IsNoMark, IsSound, item_of};
ghost use Rattle.s80_form.specs.Definition.{definition_text};
ghost use Rattle.s80_make.specs.Items.{class_items, class_name, definition, doit_text, head_text, items_each, make_items, method_text, superclass_name};
ghost use Rattle.s80_model.specs.declared.item.SessionItem.TheVariants.{Chunk};

use s80_base::{Names, OutOfMemory, Text};
use s80_chunk::{Item, LONGEST, Role};
use s80_form::{Definition, Kind, definition_text};
use std::alloc::Global;

/// How many items a class has: its definition, the head of its section, ten methods, the section's end, and a doIt.
pub const ITEMS_EACH: u32 = 14;

/// The item of this number, from 0 on: of the first class those from 0 to 13, and so on.
pub fn made_item(alloc: Global, number: u32) -> Result<Item, OutOfMemory>
    requires { number < 2 ^ 16 }
    ensures item { IfOk result (λ item. (count : ℕ) → number < items_each * count → slice_get (make_items count) number ≡ Some (Chunk item)) }
    ensures sound { IfOk result IsSound }
{
    class_item(alloc, 1 + number / ITEMS_EACH, number % ITEMS_EACH)
}

/// An item of the class of a number by its place.
fn class_item(alloc: Global, class: u32, place: u32) -> Result<Item, OutOfMemory>
    requires class { class < 2 ^ 16 }
    requires place { place < items_each }
    ensures item { IfOk result (λ item. slice_get (class_items class) place ≡ Some item) }
    ensures sound { IfOk result IsSound }
{
    if place == 0 {
        return Ok(text_item(Role::Plain, define_text(alloc, class)?));
    }
    if place == 1 {
        return Ok(text_item(Role::Head, head_text(alloc, class)?));
    }
    if place == 12 {
        return Ok(Item::SectionEnd);
    }
    if place == 13 {
        return Ok(text_item(Role::Plain, doit_text(alloc, class)?));
    }
    Ok(text_item(
        Role::Method,
        method_text(alloc, class, place.saturating_sub(2))?,
    ))
}

/// The item of a text: above the greatest length it is given by its length alone.
pub fn text_item(role: Role, text: Text) -> Item
    ensures item { result ≡ item_of role text }
    ensures sound { IsChunkText text → IsNoMark text → IsSound result }
{
    let length = text.bytes().len();
    if length > LONGEST {
        return Item::TooLong {
            role,
            length: length as u64,
        };
    }
    match role {
        Role::Plain => Item::Plain(text),
        Role::Head => Item::Head(text),
        Role::Method => Item::Method(text),
    }
}

fn class_name(alloc: Global, class: u32) -> Result<Text, OutOfMemory>
    ensures { IfOk result (λ name. name ≡ class_name class) }
{
    Text::from_bytes(alloc, format!(in alloc; "Gen{class}")?.as_bytes())
}

fn superclass_name(alloc: Global, class: u32) -> Result<Text, OutOfMemory>
    ensures { IfOk result (λ name. name ≡ superclass_name class) }
{
    if class == 1 {
        return Text::from_bytes(alloc, b"Object");
    }
    class_name(alloc, class / 2)
}

/// The text that defines a class.
fn define_text(alloc: Global, class: u32) -> Result<Text, OutOfMemory>
    ensures text { IfOk result (λ text. text ≡ definition_text (definition class)) }
    ensures begins { IfOk result (λ text. IsChunkText text × IsNoMark text) }
{
    let definition = definition(alloc, class)?;
    definition_text(alloc, &definition)
}

fn definition(alloc: Global, class: u32) -> Result<Definition, OutOfMemory>
    ensures { IfOk result (λ made. made ≡ definition class) }
{
    let class_name = class_name(alloc, class)?;
    let superclass = superclass_name(alloc, class)?;
    let inst_vars = variables(alloc, class)?;
    let category = Text::from_bytes(alloc, b"gen")?;
    Ok(Definition {
        class_name,
        superclass,
        kind: Kind::Plain,
        inst_vars,
        class_vars: Names::empty(alloc),
        pools: Names::empty(alloc),
        category,
    })
}

fn variables(alloc: Global, class: u32) -> Result<Names, OutOfMemory>
    ensures { IfOk result (λ names. names ≡ (codes "v" ++ decimal class) ∷ []) }
{
    let mut names = Names::empty(alloc);
    names.push(variable_name(alloc, class)?)?;
    Ok(names)
}

fn variable_name(alloc: Global, class: u32) -> Result<Text, OutOfMemory>
    ensures { IfOk result (λ name. name ≡ codes "v" ++ decimal class) }
{
    Text::from_bytes(alloc, format!(in alloc; "v{class}")?.as_bytes())
}

fn head_text(alloc: Global, class: u32) -> Result<Text, OutOfMemory>
    ensures text { IfOk result (λ text. text ≡ head_text class) }
    ensures begins { IfOk result (λ text. IsChunkText text × IsNoMark text) }
{
    let text = format!(in alloc; "Gen{class} methodsFor: 'gen'")?;
    Text::from_bytes(alloc, text.as_bytes())
}

fn method_text(alloc: Global, class: u32, method: u32) -> Result<Text, OutOfMemory>
    requires class { class < 2 ^ 16 }
    requires method { method < 2 ^ 16 }
    ensures text { IfOk result (λ text. text ≡ method_text class method) }
    ensures begins { IfOk result (λ text. IsChunkText text × IsNoMark text) }
{
    let literal = 10 * class + method;
    let text = format!(in alloc; "m{method}: x ^x + {literal}")?;
    Text::from_bytes(alloc, text.as_bytes())
}

fn doit_text(alloc: Global, class: u32) -> Result<Text, OutOfMemory>
    ensures text { IfOk result (λ text. text ≡ doit_text class) }
    ensures begins { IfOk result (λ text. IsChunkText text × IsNoMark text) }
{
    let text = format!(in alloc; "Gen{class} new m9: {class}")?;
    Text::from_bytes(alloc, text.as_bytes())
}
