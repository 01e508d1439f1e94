// Members of a change set.
ghost use Rattle.std.specs.Prelude.{◌≡◌, Some, IfOk};
ghost use Rattle.s80_change.specs.declared.change.Change.TheVariants as change;
ghost use Rattle.s80_history.specs.History.{noting, of_class, of_method};
ghost use Rattle.s80_history.specs.Lists.{is_no_changes};
ghost use Rattle.s80_history.specs.Topics.{is_new_by, joining};

use s80_base::{OutOfMemory, Side, Text};
use s80_change::{Change, Form, Method};
use std::alloc::Global;

/// What a change of the set does.
#[derive(Clone, Copy, Debug, PartialEq, Eq)]
pub enum NotedKind {
    Define,
    ClassVars,
    Comment,
    Method,
    RemoveMethod,
    Classify,
    RemoveClass,
}

/// A change of the set: where its block begins, what it does, and to which class or method. Of a change of a class the side is that of
/// instances, and the selector is empty.
#[derive(Debug, Drop)]
pub struct Noted {
    pub at: u64,
    pub kind: NotedKind,
    pub class_name: Text,
    pub side: Side,
    pub selector: Text,
}

/// Whether a member of this kind leaves out the earlier ones of its group.
pub(crate) fn is_new(kind: NotedKind) -> bool
    ensures { result ≡ is_new_by kind }
{
    matches!(kind, NotedKind::Comment | NotedKind::Method)
}

/// The kind as which a member that is restored joins its group, so that it leaves no version.
pub(crate) fn joining(kind: NotedKind) -> NotedKind
    ensures { result ≡ joining kind }
{
    match kind {
        NotedKind::Method => NotedKind::Classify,
        NotedKind::Define
        | NotedKind::ClassVars
        | NotedKind::Comment
        | NotedKind::RemoveMethod
        | NotedKind::Classify
        | NotedKind::RemoveClass => kind,
    }
}

pub(crate) fn is_no_changes(change: &Change) -> bool
    ensures { result ≡ is_no_changes change.now }
{
    matches!(change, Change::Form(Form::NoChanges))
}

/// What is noted of a change, whatever its place.
pub(crate) fn noted_of(alloc: Global, change: &Change) -> Result<Option<Noted>, OutOfMemory>
    ensures { IfOk result (λ noted. noted ≡ noting 0 change.now) }
{
    match change {
        Change::Form(form) => noted_form(alloc, form),
        Change::Method(method) => noted_method(alloc, method),
        Change::DoIt { .. } => Ok(None),
    }
}

fn noted_form(alloc: Global, form: &Form) -> Result<Option<Noted>, OutOfMemory>
    ensures { IfOk result (λ noted. noted ≡ noting 0 (change.Form form.now)) }
{
    match form {
        Form::Define(definition) => of_class(alloc, NotedKind::Define, &definition.class_name),
        Form::ClassVars { class_name, .. } => of_class(alloc, NotedKind::ClassVars, class_name),
        Form::Comment { class_name, .. } => of_class(alloc, NotedKind::Comment, class_name),
        Form::RemoveMethod {
            class_name,
            side,
            selector,
        } => of_method(alloc, NotedKind::RemoveMethod, class_name, *side, selector),
        Form::Classify {
            class_name,
            side,
            selector,
            ..
        } => of_method(alloc, NotedKind::Classify, class_name, *side, selector),
        Form::RemoveClass { class_name } => of_class(alloc, NotedKind::RemoveClass, class_name),
        Form::NoChanges => Ok(None),
    }
}

fn noted_method(alloc: Global, method: &Method) -> Result<Option<Noted>, OutOfMemory>
    ensures { IfOk result (λ noted. noted ≡ noting 0 (change.Method method.now)) }
{
    match method.source.tree() {
        Ok(tree) => of_method(
            alloc,
            NotedKind::Method,
            &method.class_name,
            method.side,
            &tree.selector,
        ),
        Err(_) => Ok(None),
    }
}

fn of_class(alloc: Global, kind: NotedKind, class_name: &Text) -> Result<Option<Noted>, OutOfMemory>
    ensures { IfOk result (λ noted. noted ≡ Some (of_class kind class_name.now 0)) }
{
    let class_name = class_name.copy(alloc)?;
    Ok(Some(Noted {
        at: 0,
        kind,
        class_name,
        side: Side::Instance,
        selector: Text::empty(alloc),
    }))
}

fn of_method(
    alloc: Global,
    kind: NotedKind,
    class_name: &Text,
    side: Side,
    selector: &Text,
) -> Result<Option<Noted>, OutOfMemory>
    ensures { IfOk result (λ noted. noted ≡ Some (of_method kind (record { class_name = class_name.now; side = side; selector = selector.now }) 0)) }
{
    let class_name = class_name.copy(alloc)?;
    let selector = selector.copy(alloc)?;
    Ok(Some(Noted {
        at: 0,
        kind,
        class_name,
        side,
        selector,
    }))
}
