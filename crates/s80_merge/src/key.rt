// What changes write and use.
ghost use Rattle.std.specs.Prelude.{◌≡◌, IfOk, Some, refl};
ghost use Rattle.s80_merge.specs.Order.{class_of, is_of_class_side, key_cmp, key_equiv, key_per, key_po, key_total, kind_of, same_key, selector_of};

use s80_base::{OutOfMemory, Side, Text};
use std::alloc::Global;
use std::cmp::Ordering;

/// Something in the classes and methods that changes write and use. Keys are ordered as they stand here, then by the names of their
/// classes, then by their sides, that of instances first, then by their selectors.
#[derive(Debug, Drop)]
pub enum Key {
    /// That there is a class of this name.
    ClassKey(Text),
    /// How the class of this name is defined, but for its class-side variables and its comment.
    DefinitionKey(Text),
    /// The class-side variables of a class.
    ClassVarsKey(Text),
    /// The comment of a class.
    CommentKey(Text),
    /// The method of a selector on a side of a class.
    MethodKey(Text, Side, Text),
}

impl Key {
    /// The same key in memory of its own.
    pub fn copy(&self, alloc: Global) -> Result<Key, OutOfMemory>
        ensures { IfOk result (λ key. key ≡ self.now) }
    {
        match self {
            Key::ClassKey(name) => Ok(Key::ClassKey(name.copy(alloc)?)),
            Key::DefinitionKey(name) => Ok(Key::DefinitionKey(name.copy(alloc)?)),
            Key::ClassVarsKey(name) => Ok(Key::ClassVarsKey(name.copy(alloc)?)),
            Key::CommentKey(name) => Ok(Key::CommentKey(name.copy(alloc)?)),
            Key::MethodKey(name, side, selector) => copy_of_method(alloc, name, *side, selector),
        }
    }

    /// The places of its order: its kind, its class, whether it is of the class side, and its selector.
    fn order(&self) -> (u8, &[u8], bool, &[u8])
        ensures kind { result.0 ≡ kind_of self.now }
        ensures class { result.1.now ≡ class_of self.now }
        ensures side { result.2 ≡ is_of_class_side self.now }
        ensures selector { result.3.now ≡ selector_of self.now }
    {
        match self {
            Key::ClassKey(name) => (0, name.bytes(), false, &[]),
            Key::DefinitionKey(name) => (1, name.bytes(), false, &[]),
            Key::ClassVarsKey(name) => (2, name.bytes(), false, &[]),
            Key::CommentKey(name) => (3, name.bytes(), false, &[]),
            Key::MethodKey(name, side, selector) => {
                (4, name.bytes(), *side == Side::Class, selector.bytes())
            }
        }
    }
}

fn copy_of_method(
    alloc: Global,
    name: &Text,
    side: Side,
    selector: &Text,
) -> Result<Key, OutOfMemory>
    ensures { IfOk result (λ key. key ≡ Key.MethodKey name.now side selector.now) }
{
    let name = name.copy(alloc)?;
    let selector = selector.copy(alloc)?;
    Ok(Key::MethodKey(name, side, selector))
}

impl PartialEq for Key {
    ghost eq = { same_key };

    ghost laws = { key_per };

    fn eq(&self, other: &Key) -> bool {
        self.cmp(other).is_eq()
    }
}

impl Eq for Key {
    ghost laws = { key_equiv };
}

impl PartialOrd for Key {
    ghost partial_cmp = { λ one other. Some (key_cmp one other) };

    ghost laws = { key_po };

    fn partial_cmp(&self, other: &Key) -> Option<Ordering> {
        Some(self.cmp(other))
    }
}

impl Ord for Key {
    ghost cmp = { key_cmp };

    ghost total = { key_total };

    ghost matches_partial_cmp = { λ one other. refl };

    ghost matches_eq = { λ one other. refl };

    fn cmp(&self, other: &Key) -> Ordering {
        self.order().cmp(&other.order())
    }
}
