// The forms by which doIts change classes.
ghost use Rattle.std.specs.Prelude.{◌≡◌, ◌↔◌, List, ℕ, IsTrue};
ghost use Rattle.s80_tree.specs.Tree.{DoItParts};
ghost use Rattle.s80_form.specs.Definition.{split_names, joined};
ghost use Rattle.s80_form.specs.declared.form.Form.{Form as FormOfDoIt};
ghost use Rattle.s80_form.specs.Form.{IsBriefForm, IsFormOf, IsFormText, IsLawfulForm, form_text};
ghost use Rattle.s80_form.specs.Name.{AreNames};

use crate::definition::{Definition, is_brief_definition};
use crate::name::{are_brief, is_brief};
use s80_base::{Names, Side, Text};

/// What a doIt changes by its form (Goldberg, "Smalltalk-80: The Interactive Programming Environment"). Classes and selectors are named as
/// they were written: it may be refused for them.
#[derive(Debug, Drop)]
pub enum Form {
    /// A class is made, or made anew: `S subclass: #N instanceVariableNames: 'a' classVariableNames: 'C' poolDictionaries: 'P' category: 'c'`.
    Define(Definition),
    /// A class gets class-side variables in place of its own: `N class instanceVariableNames: 'a b'`.
    ClassVars {
        class_name: Text,
        names: Names,
    },
    /// A class gets a comment in place of its own: `N comment: 't'`.
    Comment {
        class_name: Text,
        text: Text,
    },
    /// A method is removed: `N removeSelector: #s`, `N class removeSelector: #s`.
    RemoveMethod {
        class_name: Text,
        side: Side,
        selector: Text,
    },
    /// A method gets a category in place of its own: `N organization classify: #s under: 'c'`, `N class organization classify: #s under: 'c'`.
    Classify {
        class_name: Text,
        side: Side,
        selector: Text,
        category: Text,
    },
    /// A class is removed with its methods: `Smalltalk removeClassNamed: #N`, `N removeFromSystem`.
    RemoveClass {
        class_name: Text,
    },
    /// The set of changes begins anew: `Smalltalk noChanges`.
    NoChanges,
}

/// What a doIt is by its tree.
#[derive(Debug, Drop)]
pub enum Recognised {
    /// It changes classes so.
    Form(Form),
    /// It asks to condense the changes: `Smalltalk condenseChanges`.
    Condense,
    /// It asks for a snapshot: `Smalltalk snapshot`.
    Snapshot,
    /// It has no form: it is evaluated.
    Evaluate,
}

/// A tree has at most one form.
pub fn one_form()
    ensures { (tree : DoItParts) (one other : Form) → IsFormOf tree one → IsFormOf tree other → one ≡ other }
{}

/// Names that are joined by spaces are split again.
pub fn joined_names_are_split()
    ensures { (names : List (List ℕ)) → AreNames names → split_names (joined names) ≡ names }
{}

/// The text of a lawful form is a doIt whose tree has that form.
pub fn a_form_has_its_text()
    ensures { (form : Form) → IsLawfulForm form → IsFormText (form_text form) form }
{}

/// So a text is that of at most one lawful form.
pub fn one_form_text()
    ensures { (one other : Form) → IsLawfulForm one → IsLawfulForm other → form_text one ≡ form_text other → one ≡ other }
{}

/// Whether each name and text of a form is brief.
pub(crate) fn is_brief_form(form: &Form) -> bool
    ensures { IsTrue result ↔ IsBriefForm form.now }
{
    match form {
        Form::Define(definition) => is_brief_definition(definition),
        Form::ClassVars { class_name, names } => is_brief(class_name) && are_brief(names),
        Form::Comment { class_name, text } => is_brief(class_name) && is_brief(text),
        Form::RemoveMethod {
            class_name,
            selector,
            ..
        } => is_brief(class_name) && is_brief(selector),
        Form::Classify {
            class_name,
            selector,
            category,
            ..
        } => is_brief(class_name) && is_brief(selector) && is_brief(category),
        Form::RemoveClass { class_name } => is_brief(class_name),
        Form::NoChanges => true,
    }
}
