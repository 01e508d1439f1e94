// Entries as keys: lists of numbers, which can be put in order.
ghost use Rattle.std.specs.Prelude.{◌≡◌, ◌<◌, ◌^◌, ◌∷◌, ◌++◌, IfOk, OnOk, [], pos};
ghost use Rattle.s80_base.specs.Literal.{kind_number, literal_of, literals_of, small, symbol};
ghost use Rattle.s80_scope.specs.FitLiterals.{constant, ended, key as key_of, label, literal_key, literals_key, variable};

use s80_base::{Literal, Literals, NumberKind, OutOfMemory};
use std::alloc::Global;

/// The key of a constant.
pub(crate) fn constant_key(alloc: Global, literal: &Literal) -> Result<Vec<u64>, OutOfMemory>
    ensures { IfOk result (λ key. key.items ≡ key_of (constant (literal_of literal.now))) }
{
    let mut key = Vec::new(alloc);
    key.push(0)?;
    add_literal(&mut key, literal)?;
    Ok(key)
}

/// The key of a selector, which is a symbol.
pub(crate) fn selector_key(alloc: Global, selector: &[u8]) -> Result<Vec<u64>, OutOfMemory>
    ensures { IfOk result (λ key. key.items ≡ key_of (constant (symbol selector.now))) }
{
    let mut key = Vec::new(alloc);
    key.push(0)?;
    add_word(&mut key, 4, selector)?;
    add_end(&mut key)?;
    Ok(key)
}

/// The key of a number that is a constant.
pub(crate) fn count_key(alloc: Global, count: usize) -> Result<Vec<u64>, OutOfMemory>
    requires { count < 2 ^ 63 }
    ensures { IfOk result (λ key. key.items ≡ key_of (constant (small (pos count)))) }
{
    let mut key = Vec::new(alloc);
    key.push(0)?;
    add_number(&mut key, 0, count as u64)?;
    add_end(&mut key)?;
    Ok(key)
}

/// The key of a variable.
pub(crate) fn variable_key(alloc: Global, word: &[u8]) -> Result<Vec<u64>, OutOfMemory>
    ensures { IfOk result (λ key. key.items ≡ key_of (variable word.now)) }
{
    let mut key = Vec::new(alloc);
    key.push(1)?;
    for byte in word {
        key.push(u64::from(*byte))?;
    }
    Ok(key)
}

/// Adds the key of a literal.
#[cycle(keys)]
fn add_literal(key: &mut Vec<u64>, literal: &Literal) -> Result<(), OutOfMemory>
    ensures { OnOk result (key.new.items ≡ key.old.items ++ literal_key (literal_of literal.now)) }
{
    add_label(key, literal)?;
    match literal {
        Literal::Array(elements) => add_literals(key, elements),
        _ => add_end(key),
    }
}

/// Adds the keys of an array's elements, each behind a 1, and a 0.
#[cycle(keys)]
fn add_literals(key: &mut Vec<u64>, literals: &Literals) -> Result<(), OutOfMemory>
    ensures { OnOk result (key.new.items ≡ key.old.items ++ literals_key (literals_of literals.now)) }
{
    for literal in &literals.items {
        key.push(1)?;
        add_literal(key, literal)?;
    }
    add_end(key)
}

/// Adds what a literal spells, with its kind.
fn add_label(key: &mut Vec<u64>, literal: &Literal) -> Result<(), OutOfMemory>
    ensures { OnOk result (key.new.items ≡ key.old.items ++ ended (label (literal_of literal.now))) }
{
    match literal {
        Literal::Small(n) if *n >= 0 => add_number(key, 0, *n as u64),
        Literal::Small(n) => add_number(key, 1, -(i64::from(*n) + 1) as u64),
        Literal::Character(byte) => add_number(key, 2, u64::from(*byte)),
        Literal::Str(text) => add_word(key, 3, text.bytes()),
        Literal::Symbol(text) => add_word(key, 4, text.bytes()),
        Literal::Array(_) => add_word(key, 5, b""),
        Literal::True => add_word(key, 6, b""),
        Literal::False => add_word(key, 7, b""),
        Literal::Nil => add_word(key, 8, b""),
        Literal::Number(kind, text) => add_kept(key, *kind, text.bytes()),
    }
}

/// Adds a label of a kind and a number.
fn add_number(key: &mut Vec<u64>, kind: u64, number: u64) -> Result<(), OutOfMemory>
    requires kind { kind < 2 ^ 63 }
    requires number { number < 2 ^ 63 }
    ensures { OnOk result (key.new.items ≡ key.old.items ++ ended (kind ∷ number ∷ [])) }
{
    key.push(kind + 1)?;
    key.push(number + 1)?;
    key.push(0)?;
    Ok(())
}

/// Adds a label of a kind and bytes.
fn add_word(key: &mut Vec<u64>, kind: u64, bytes: &[u8]) -> Result<(), OutOfMemory>
    requires { kind < 2 ^ 63 }
    ensures { OnOk result (key.new.items ≡ key.old.items ++ ended (kind ∷ bytes.now)) }
{
    key.push(kind + 1)?;
    add_bytes(key, bytes)
}

/// Adds the label of a number that is kept by its text.
fn add_kept(key: &mut Vec<u64>, kind: NumberKind, bytes: &[u8]) -> Result<(), OutOfMemory>
    ensures { OnOk result (key.new.items ≡ key.old.items ++ ended (9 ∷ kind_number kind ∷ bytes.now)) }
{
    key.push(10)?;
    key.push(match kind {
        NumberKind::LargePositive => 1,
        NumberKind::LargeNegative => 2,
        NumberKind::Float => 3,
    })?;
    add_bytes(key, bytes)
}

/// Adds bytes as numbers one greater, and a 0.
fn add_bytes(key: &mut Vec<u64>, bytes: &[u8]) -> Result<(), OutOfMemory>
    ensures { OnOk result (key.new.items ≡ key.old.items ++ ended bytes.now) }
{
    for byte in bytes {
        key.push(u64::from(*byte) + 1)?;
    }
    add_end(key)
}

fn add_end(key: &mut Vec<u64>) -> Result<(), OutOfMemory>
    ensures { OnOk result (key.new.items ≡ key.old.items ++ 0 ∷ []) }
{
    key.push(0)?;
    Ok(())
}
