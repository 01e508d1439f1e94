// The keys that a change writes and uses, in the classes that it is worked in.
ghost use Rattle.std.specs.Prelude.{◌≡◌, ◌∷◌, [], IfOk, is_some};
ghost use Rattle.std.specs.FinMap as map;
ghost use Rattle.s80_merge.specs.Touched.{form_uses, form_writes, line_keys, method_keys, uses, writes};
ghost use Rattle.s80_change.specs.declared.change.Change.TheVariants as changes;
ghost use Rattle.s80_form.specs.declared.form.Form.TheVariants as forms;

use crate::key::Key;
use crate::keys::Keys;
use s80_base::{OutOfMemory, Side, Text};
use s80_change::{Change, Definition, Form, Method};
use s80_class::{ClassEntry, ClassTable};
use std::alloc::Global;

/// The keys that a change writes.
pub(crate) fn writes(
    alloc: Global,
    classes: &ClassTable,
    change: &Change,
) -> Result<Keys, OutOfMemory>
    ensures { IfOk result (λ keys. keys ≡ writes change.now classes.now.classes) }
{
    match change {
        Change::Form(form) => form_writes(alloc, classes, form),
        Change::Method(method) => method_writes(alloc, method),
        Change::DoIt { .. } => Ok(Keys::empty(alloc)),
    }
}

/// The keys that a change uses.
pub(crate) fn uses(
    alloc: Global,
    classes: &ClassTable,
    change: &Change,
) -> Result<Keys, OutOfMemory>
    ensures { IfOk result (λ keys. keys ≡ uses change.now classes.now.classes) }
{
    match change {
        Change::Form(form) => form_uses(alloc, classes, form),
        Change::Method(method) => class_key(alloc, &method.class_name),
        Change::DoIt { .. } => Ok(Keys::empty(alloc)),
    }
}

fn form_writes(alloc: Global, classes: &ClassTable, form: &Form) -> Result<Keys, OutOfMemory>
    ensures { IfOk result (λ keys. keys ≡ form_writes form.now classes.now.classes) }
{
    match form {
        Form::Define(definition) => definition_writes(alloc, classes, definition),
        Form::ClassVars { class_name, .. } => {
            Keys::one(alloc, Key::ClassVarsKey(class_name.copy(alloc)?))
        }
        Form::Comment { class_name, .. } => {
            Keys::one(alloc, Key::CommentKey(class_name.copy(alloc)?))
        }
        Form::RemoveMethod {
            class_name,
            side,
            selector,
        } => method_key(alloc, class_name, *side, selector),
        Form::Classify {
            class_name,
            side,
            selector,
            ..
        } => method_key(alloc, class_name, *side, selector),
        Form::RemoveClass { class_name } => Keys::of_class(alloc, class_name),
        Form::NoChanges => Ok(Keys::empty(alloc)),
    }
}

fn form_uses(alloc: Global, classes: &ClassTable, form: &Form) -> Result<Keys, OutOfMemory>
    ensures { IfOk result (λ keys. keys ≡ form_uses form.now classes.now.classes) }
{
    match form {
        Form::Define(definition) => definition_uses(alloc, classes, definition),
        Form::ClassVars { class_name, .. } => class_key(alloc, class_name),
        Form::Comment { class_name, .. } => class_key(alloc, class_name),
        Form::RemoveMethod { class_name, .. } => class_key(alloc, class_name),
        Form::Classify { class_name, .. } => class_key(alloc, class_name),
        Form::RemoveClass { class_name } => class_key(alloc, class_name),
        Form::NoChanges => Ok(Keys::empty(alloc)),
    }
}

/// A definition writes that the class is there only where it wasn't.
fn definition_writes(
    alloc: Global,
    classes: &ClassTable,
    definition: &Definition,
) -> Result<Keys, OutOfMemory>
    ensures { IfOk result (λ keys. keys ≡ form_writes (forms.Define definition.now) classes.now.classes) }
{
    if class_named(classes, &definition.class_name).is_some() {
        return Keys::one(
            alloc,
            Key::DefinitionKey(definition.class_name.copy(alloc)?),
        );
    }
    Keys::of_class(alloc, &definition.class_name)
}

/// A definition uses its superclass with all above it, and the class itself where it is there.
fn definition_uses(
    alloc: Global,
    classes: &ClassTable,
    definition: &Definition,
) -> Result<Keys, OutOfMemory>
    ensures { IfOk result (λ keys. keys ≡ form_uses (forms.Define definition.now) classes.now.classes) }
{
    let mut keys = line_keys(alloc, classes, &definition.superclass)?;
    if class_named(classes, &definition.class_name).is_some() {
        keys.push(Key::ClassKey(definition.class_name.copy(alloc)?))?;
    }
    Ok(keys)
}

/// The class of this name.
fn class_named<'a>(classes: &'a ClassTable, name: &Text) -> Option<&'a ClassEntry>
    ensures { is_some result ≡ map.contains_key classes.now.classes name.now }
{
    let number = classes.find(name)?;
    Some(classes.at(number))
}

/// Those of a class and of each of its superclasses.
fn line_keys(alloc: Global, classes: &ClassTable, name: &Text) -> Result<Keys, OutOfMemory>
    ensures { IfOk result (λ keys. keys ≡ line_keys name.now classes.now.classes) }
{
    let mut keys = Keys::empty(alloc);
    let mut next = classes.find(name);
    for _ in 0..classes.count() {
        let Some(number) = next else {
            return Ok(keys);
        };
        let class = classes.at(number);
        keys.push_class(alloc, &class.class_name)?;
        next = class.superclass;
    }
    Ok(keys)
}

/// The key of a method that is put. A source that no class takes writes none.
fn method_writes(alloc: Global, method: &Method) -> Result<Keys, OutOfMemory>
    ensures { IfOk result (λ keys. keys ≡ method_keys method.now.class_name method.now.side method.now.source.selector) }
{
    match method.source.tree() {
        Ok(tree) => method_key(alloc, &method.class_name, method.side, &tree.selector),
        Err(_) => Ok(Keys::empty(alloc)),
    }
}

fn method_key(
    alloc: Global,
    class_name: &Text,
    side: Side,
    selector: &Text,
) -> Result<Keys, OutOfMemory>
    ensures { IfOk result (λ keys. keys ≡ Key.MethodKey class_name.now side selector.now ∷ []) }
{
    let class_name = class_name.copy(alloc)?;
    let selector = selector.copy(alloc)?;
    Keys::one(alloc, Key::MethodKey(class_name, side, selector))
}

fn class_key(alloc: Global, class_name: &Text) -> Result<Keys, OutOfMemory>
    ensures { IfOk result (λ keys. keys ≡ Key.ClassKey class_name.now ∷ []) }
{
    Keys::one(alloc, Key::ClassKey(class_name.copy(alloc)?))
}
