// What one object holds.
ghost use Rattle.std.specs.Prelude.{◌≡◌, ◌≤◌, ℕ, IfOk, Some, option_copied, option_map, pos, replicate};
ghost use Rattle.s80_object.specs.declared.value.Value.TheVariants.{Nil, Small};
ghost use Rattle.s80_object.specs.Body.{blank as blank_of, bytes, bytes_of, cost as cost_of, fields_of, items_of, kind_of, number_to, word_limit};
ghost use Rattle.s80_object.specs.Objects.{block_parts_of, field_put, home_parts_of, item_place, item_put, read_at};
ghost use Rattle.s80_object.specs.Seen.{tree_of};
ghost use Rattle.s80_object.specs.Steps.{IsChanged, IsItemSet, IsSet, item_in, size_in};

use crate::value::{BodyKind, ObjectFault, Value};
use s80_base::OutOfMemory;
use std::alloc::Global;

/// What an object holds.
#[derive(Debug, Drop)]
pub(crate) enum Body {
    Pointers {
        class: u32,
        fields: Vec<Value>,
        items: Vec<Value>,
    },
    Bytes {
        class: u32,
        items: Vec<u8>,
    },
    Words {
        class: u32,
        items: Vec<u16>,
    },
    Home {
        method: u32,
        receiver: Value,
        temporaries: Vec<Value>,
    },
    Block {
        home: Value,
        start: u32,
        arguments: u8,
    },
}

/// The words that a new object will cost.
pub(crate) fn blank_cost(kind: BodyKind, named: u32, indexed: u32) -> u64
    ensures { (class : ℕ) → result ≡ cost_of (blank_of class kind named indexed) }
{
    let indexed = u64::from(indexed);
    match kind {
        BodyKind::Pointers => 2 + u64::from(named) + indexed,
        BodyKind::Bytes => 2 + (indexed + 3) / 4,
        BodyKind::Words => 2 + (indexed + 1) / 2,
    }
}

/// So many nils.
pub(crate) fn nils(alloc: Global, count: usize) -> Result<Vec<Value>, OutOfMemory>
    ensures { IfOk result (λ values. values.items ≡ replicate count Nil) }
{
    Ok(vec![in alloc; Value::Nil; count]?)
}

impl Body {
    pub(crate) fn blank(
        alloc: Global,
        class: u32,
        kind: BodyKind,
        named: u32,
        indexed: u32,
    ) -> Result<Body, OutOfMemory>
        ensures { IfOk result (λ b. tree_of b ≡ blank_of class kind named indexed) }
    {
        let indexed = indexed as usize;
        match kind {
            BodyKind::Pointers => Ok(Body::Pointers {
                class,
                fields: nils(alloc, named as usize)?,
                items: nils(alloc, indexed)?,
            }),
            BodyKind::Bytes => Ok(Body::Bytes {
                class,
                items: vec![in alloc; 0; indexed]?,
            }),
            BodyKind::Words => Ok(Body::Words {
                class,
                items: vec![in alloc; 0; indexed]?,
            }),
        }
    }

    pub(crate) fn of_bytes(alloc: Global, class: u32, held: &[u8]) -> Result<Body, OutOfMemory>
        ensures { IfOk result (λ b. tree_of b ≡ bytes class held.now) }
    {
        let items = held.to_vec(alloc)?;
        Ok(Body::Bytes { class, items })
    }

    /// The words that it costs.
    pub(crate) fn cost(&self) -> u64
        requires { cost_of (tree_of self.now) ≤ word_limit }
        ensures { result ≡ cost_of (tree_of self.now) }
    {
        match self {
            Body::Pointers { fields, items, .. } => 2 + fields.len() as u64 + items.len() as u64,
            Body::Bytes { items, .. } => 2 + (items.len() as u64 + 3) / 4,
            Body::Words { items, .. } => 2 + (items.len() as u64 + 1) / 2,
            Body::Home { .. } => 32,
            Body::Block { .. } => 8,
        }
    }

    /// Its fields, which for a home are its temporaries.
    pub(crate) fn fields(&self) -> Option<&[Value]>
        ensures { option_copied result ≡ fields_of (tree_of self.now) }
    {
        match self {
            Body::Pointers { fields, .. } => Some(fields),
            Body::Home { temporaries, .. } => Some(temporaries),
            _ => None,
        }
    }

    pub(crate) fn field(&self, i: u32) -> Result<Value, ObjectFault>
        ensures { result ≡ read_at (fields_of (tree_of self.now)) (Some i) }
    {
        match self.fields() {
            Some(fields) => match fields.get(i as usize) {
                Some(value) => Ok(*value),
                None => Err(ObjectFault::Range),
            },
            None => Err(ObjectFault::Kind),
        }
    }

    pub(crate) fn set_field(&mut self, i: u32, to: Value) -> Result<(), ObjectFault>
        ensures { IsChanged (field_put (tree_of self.old) i to) (tree_of self.old) (tree_of self.new) result }
    {
        match self {
            Body::Pointers { fields, .. } => set(fields, i as usize, to),
            Body::Home { temporaries, .. } => set(temporaries, i as usize, to),
            _ => Err(ObjectFault::Kind),
        }
    }

    pub(crate) fn item(&self, i: u32) -> Result<Value, ObjectFault>
        ensures { result ≡ read_at (items_of (tree_of self.now)) (item_place i) }
    {
        let item = match self {
            Body::Pointers { items, .. } => read_item(items, i),
            Body::Bytes { items, .. } => small_byte(read_item(items, i)),
            Body::Words { items, .. } => small_word(read_item(items, i)),
            _ => return Err(ObjectFault::Kind),
        };
        item.ok_or(ObjectFault::Range)
    }

    pub(crate) fn set_item(&mut self, i: u32, to: Value) -> Result<(), ObjectFault>
        ensures { IsChanged (item_put (tree_of self.old) i to) (tree_of self.old) (tree_of self.new) result }
    {
        match self {
            Body::Pointers { items, .. } => set_item(items, i, to),
            Body::Bytes { items, .. } => match byte_of(to) {
                Some(byte) => set_item(items, i, byte),
                None => Err(ObjectFault::Kind),
            },
            Body::Words { items, .. } => match word_of(to) {
                Some(word) => set_item(items, i, word),
                None => Err(ObjectFault::Kind),
            },
            _ => Err(ObjectFault::Kind),
        }
    }

    pub(crate) fn size(&self) -> Result<u32, ObjectFault>
        requires { cost_of (tree_of self.now) ≤ word_limit }
        ensures { result ≡ size_in (items_of (tree_of self.now)) }
    {
        match self {
            Body::Pointers { items, .. } => Ok(items.len() as u32),
            Body::Bytes { items, .. } => Ok(items.len() as u32),
            Body::Words { items, .. } => Ok(items.len() as u32),
            _ => Err(ObjectFault::Kind),
        }
    }

    pub(crate) fn bytes(&self) -> Option<&[u8]>
        ensures { option_copied result ≡ bytes_of (tree_of self.now) }
    {
        match self {
            Body::Bytes { items, .. } => Some(items),
            _ => None,
        }
    }

    pub(crate) fn class(&self) -> Option<(u32, BodyKind)>
        ensures { result ≡ kind_of (tree_of self.now) }
    {
        match self {
            Body::Pointers { class, .. } => Some((*class, BodyKind::Pointers)),
            Body::Bytes { class, .. } => Some((*class, BodyKind::Bytes)),
            Body::Words { class, .. } => Some((*class, BodyKind::Words)),
            _ => None,
        }
    }

    pub(crate) fn home_parts(&self) -> Option<(u32, Value)>
        ensures { result ≡ home_parts_of (tree_of self.now) }
    {
        match self {
            Body::Home {
                method,
                receiver,
                ..
            } => Some((*method, *receiver)),
            _ => None,
        }
    }

    pub(crate) fn block_parts(&self) -> Option<(Value, u32, u8)>
        ensures { result ≡ block_parts_of (tree_of self.now) }
    {
        match self {
            Body::Block {
                home,
                start,
                arguments,
            } => Some((*home, *start, *arguments)),
            _ => None,
        }
    }
}

fn set<T: Copy + Drop>(values: &mut Vec<T>, i: usize, to: T) -> Result<(), ObjectFault>
    ensures { IsSet values.old.items i to values.new.items result }
{
    match values.get_mut(i) {
        Some(place) => {
            *place = to;
            Ok(())
        }
        None => Err(ObjectFault::Range),
    }
}

fn set_item<T: Copy + Drop>(items: &mut Vec<T>, i: u32, to: T) -> Result<(), ObjectFault>
    ensures { IsItemSet items.old.items i to items.new.items result }
{
    match i.checked_sub(1) {
        Some(place) => set(items, place as usize, to),
        None => Err(ObjectFault::Range),
    }
}

fn read_item<T: Copy>(items: &[T], i: u32) -> Option<T>
    ensures { result ≡ item_in items.now i }
{
    match i.checked_sub(1) {
        Some(place) => items.get(place as usize).copied(),
        None => None,
    }
}

fn small_byte(n: Option<u8>) -> Option<Value>
    ensures { result ≡ option_map (λ n. Small (pos n)) n }
{
    Some(Value::Small(i32::from(n?)))
}

fn small_word(n: Option<u16>) -> Option<Value>
    ensures { result ≡ option_map (λ n. Small (pos n)) n }
{
    Some(Value::Small(i32::from(n?)))
}

fn byte_of(v: Value) -> Option<u8>
    ensures { result ≡ number_to 255 v }
{
    match v {
        Value::Small(n) => u8::try_from(n).ok(),
        _ => None,
    }
}

fn word_of(v: Value) -> Option<u16>
    ensures { result ≡ number_to 65535 v }
{
    match v {
        Value::Small(n) => u16::try_from(n).ok(),
        _ => None,
    }
}
