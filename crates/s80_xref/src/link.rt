// How methods are linked to names.
ghost use Rattle.std.specs.Prelude.{◌≡◌, ◌<◌, ◌^◌, ◌∷◌, [], List, ℕ, length, IfOk, MatchOption};
ghost use Rattle.std.specs.List.{list_any};
ghost use Rattle.std.specs.Str.{bytes_eq};
ghost use Rattle.std.specs.FinMap as map;
ghost use Rattle.s80_apply.specs.State.{State};
ghost use Rattle.s80_apply.specs.System.{IsSystemOf};
ghost use Rattle.s80_xref.specs.Links.{AreLinked, is_linked, linked};

use crate::code::{outer_names, refers, sends, sent};
use crate::laws::code_names_what_its_tree_does;
use s80_apply::System;
use s80_base::{Names, OutOfMemory, Side, Text};
use s80_code::Code;
use s80_dict::MethodDict;
use s80_syntax::one_tree;
use s80_verify::Verified;
use std::alloc::Global;

/// How a method is linked to a name: it sends it, has it as its selector, or refers to it.
#[derive(Clone, Copy, Debug)]
pub(crate) enum Link {
    Sends,
    Implements,
    RefersTo,
}

/// The methods on one side of a class. None where no class has the name.
pub(crate) fn methods_on<'a>(
    system: &'a System,
    class_name: &Text,
    side: Side,
) -> Option<&'a MethodDict<Verified>>
    ensures { (state : State) → IsSystemOf system.now state
        → MatchOption result (state.methods class_name.now side ≡ map.empty) (λ methods. AreLinked state class_name.now side methods.now.methods) }
{
    code_names_what_its_tree_does();
    one_tree();
    match system.find(class_name) {
        Some(number) => Some(system.methods().dict(number, side)),
        None => None,
    }
}

/// Whether a method is linked to a word. Takes no memory.
pub(crate) fn is_linked(
    methods: &MethodDict<Verified>,
    link: Link,
    word: &Text,
    selector: &Text,
) -> bool
    ensures { result ≡ is_linked methods.now.methods link word.now selector.now }
{
    match methods.get(selector) {
        Some(entry) => names(link, word, selector, entry.code.code()),
        None => false,
    }
}

/// Whether a selector and a code name a word so.
fn names(link: Link, word: &Text, selector: &Text, code: &Code) -> bool
    requires { length code.now.bytes < 2 ^ 32 }
    ensures { result ≡ list_any (bytes_eq word.now) (linked link selector.now code.now) }
{
    match link {
        Link::Sends => sends(code, word),
        Link::Implements => word.bytes() == selector.bytes(),
        Link::RefersTo => refers(code, word),
    }
}

/// All that the method of a selector is linked to.
pub(crate) fn linked_by(
    alloc: Global,
    methods: &MethodDict<Verified>,
    link: Link,
    selector: &Text,
) -> Result<Names, OutOfMemory>
    ensures { IfOk result (λ names. (word : List ℕ) → list_any (bytes_eq word) names ≡ is_linked methods.now.methods link word selector.now) }
{
    match methods.get(selector) {
        Some(entry) => linked(alloc, link, selector, entry.code.code()),
        None => Ok(Names::empty(alloc)),
    }
}

/// All that a selector and a code name so.
fn linked(alloc: Global, link: Link, selector: &Text, code: &Code) -> Result<Names, OutOfMemory>
    requires { length code.now.bytes < 2 ^ 32 }
    ensures { IfOk result (λ names. names ≡ linked link selector.now code.now) }
{
    match link {
        Link::Sends => sent(alloc, code),
        Link::Implements => alone(alloc, selector),
        Link::RefersTo => outer_names(alloc, code),
    }
}

/// A list of one name.
fn alone(alloc: Global, name: &Text) -> Result<Names, OutOfMemory>
    ensures { IfOk result (λ names. names ≡ name.now ∷ []) }
{
    let mut names = Names::empty(alloc);
    names.push(name.copy(alloc)?)?;
    Ok(names)
}
