// Numbers that are kept as their texts.
ghost use Rattle.std.specs.Prelude.{◌≡◌, [], IfOk, OnErr, length, option_copied, option_map, slice_get, take};
ghost use Rattle.std.specs.List.{position_or_len};
ghost use Rattle.s80_object.specs.Literal.{added_once, is_opaque};
ghost use Rattle.s80_object.specs.Seen.{key_of, kind_byte as byte_of};

use crate::texts::Texts;
use s80_base::{NumberKind, OutOfMemory};
use std::alloc::Global;
use std::marker::Model;

/// Numbers, each once, by their numbers in order of first use.
#[derive(Debug, Drop)]
pub(crate) struct Numbers {
    // Each text stands behind a byte for its kind.
    keys: Texts,
}

impl Model for Numbers {
    ghost use Rattle.std.specs.Prelude.{All, List, map as list_map};
    ghost use Rattle.s80_object.specs.Objects.{Opaque};
    ghost use Rattle.s80_object.specs.Seen.{IsKey, number_of};

    ghost Value = { List Opaque };

    ghost view = { λ n. list_map number_of n.keys };

    ghost invariant = { λ n. All IsKey n.keys };
}

impl Numbers {
    pub(crate) fn empty(alloc: Global) -> Self
        ensures { result ≡ [] }
    {
        Numbers {
            keys: Texts::empty(alloc),
        }
    }

    pub(crate) fn count(&self) -> usize
        ensures { result ≡ length self.now }
    {
        self.keys.count()
    }

    pub(crate) fn text(&self, n: u32) -> Option<&[u8]>
        ensures { option_copied result ≡ option_map (λ number. number.text) (slice_get self.now n) }
    {
        match self.keys.get(n) {
            Some([_, text @ ..]) => Some(text),
            _ => None,
        }
    }

    pub(crate) fn kind(&self, n: u32) -> Option<NumberKind>
        ensures { result ≡ option_map (λ number. number.kind) (slice_get self.now n) }
    {
        match self.keys.get(n) {
            Some([0, ..]) => Some(NumberKind::LargePositive),
            Some([1, ..]) => Some(NumberKind::LargeNegative),
            Some(_) => Some(NumberKind::Float),
            None => None,
        }
    }

    /// The number of a number, which is added where it isn't there. When out of memory, nothing is changed.
    pub(crate) fn number(
        &mut self,
        alloc: Global,
        kind: NumberKind,
        text: &[u8],
    ) -> Result<u32, OutOfMemory>
        ensures number { IfOk result (λ n. n ≡ position_or_len (is_opaque kind text.now) self.old) }
        ensures ok { IfOk result (λ n. self.new ≡ added_once (is_opaque kind text.now) (record { kind = kind; text = text.now }) self.old) }
        ensures err { OnErr result (self.new ≡ self.old) }
    {
        let key = key(alloc, kind, text)?;
        self.keys.number(alloc, &key)
    }

    /// Leaves the first numbers.
    pub(crate) fn truncate(&mut self, count: usize)
        ensures { self.new ≡ take count self.old }
    {
        self.keys.truncate(count);
    }
}

fn key(alloc: Global, kind: NumberKind, text: &[u8]) -> Result<Vec<u8>, OutOfMemory>
    ensures { IfOk result (λ key. key.items ≡ key_of kind text.now) }
{
    let mut key = Vec::new(alloc);
    key.push(kind_byte(kind))?;
    key.extend_from_slice(text)?;
    Ok(key)
}

fn kind_byte(kind: NumberKind) -> u8
    ensures { result ≡ byte_of kind }
{
    match kind {
        NumberKind::LargePositive => 0,
        NumberKind::LargeNegative => 1,
        NumberKind::Float => 2,
    }
}
