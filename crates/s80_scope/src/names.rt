// What the names in a method mean.
ghost use Rattle.std.specs.Prelude.{◌≡◌, ℕ, ◌+◌, ◌<◌, ◌≤◌, List, ◌∷◌, [], true, Some, length, find, slice_get, IfOk};
ghost use Rattle.std.specs.List.{Contains};
ghost use Rattle.std.specs.Option.{option_copied, option_map};
ghost use Rattle.std.specs.Str.{bytes_eq};
ghost use Rattle.s80_syntax.specs.Text.{IsDoItOf, IsMethodOf};
ghost use Rattle.s80_tree.specs.Tree.{block_of, body_of, expr_of, exprs_of, messages_of, method_of, primary_of, DoItParts, MethodParts};
ghost use Rattle.s80_tree.specs.Tree.{block as block_tree};
ghost use Rattle.s80_tree.specs.declared.name.NameAt.{NameAt};
ghost use Rattle.s80_scope.specs.Names.{AreInOrder, Declaration, IsUsedOnce, IsWithin, Walks, body_declarations, body_uses, declarations_of, declares, expr_declarations, expr_uses, exprs_declarations, exprs_uses, is_at, last_place, means, messages_declarations, messages_uses, number_among, primary_declarations, primary_uses, reserved_meaning, uses_of, word_means};
ghost use Rattle.s80_scope.specs.Shape.{where_of};

use crate::shape::{Binding, Bindings, Shape, Where};
use s80_base::{Literal, Names, OutOfMemory, Text};
use s80_tree::{Block, Body, Expr, Exprs, Messages, MethodTree, NameAt, Primary};
use std::alloc::Global;
use std::ops::ControlFlow;

/// The use of a name that was looked for, and the number of its declaration, if that stands in the part looked at.
#[derive(Clone, Copy)]
struct Found<'t> {
    name: &'t NameAt,
    number: Option<u8>,
}

/// Breaks off at the use that was looked for, or goes on with the number of the next declaration.
type Walk<'t> = ControlFlow<Found<'t>, u8>;

/// What the name that is used at this place of a method means, in a class of this shape.
pub fn bind(
    alloc: Global,
    tree: &MethodTree,
    name_at: u32,
    shape: &Shape,
) -> Result<Where, OutOfMemory>
    requires once { IsUsedOnce name_at (uses_of (method_of tree.now)) }
    requires declarations { length (declarations_of (method_of tree.now)) ≤ 31 }
    requires inst_vars { length shape.now.inst_vars ≤ 64 }
    ensures { IfOk result (λ found. (name : NameAt) → Contains (uses_of (method_of tree.now)) name → name.at ≡ name_at →
        where_of found ≡ means (method_of tree.now) shape.now name) }
{
    match in_method(tree, name_at) {
        ControlFlow::Break(found) => meaning(alloc, &found.name.name, found.number, shape),
        ControlFlow::Continue(_) => unreachable!(),
    }
}

/// What a word means that is a temporary of this number or of none.
fn meaning(
    alloc: Global,
    word: &Text,
    number: Option<u8>,
    shape: &Shape,
) -> Result<Where, OutOfMemory>
    requires { length shape.now.inst_vars ≤ 64 }
    ensures { IfOk result (λ found. where_of found ≡ word_means word.now number shape.now) }
{
    if let Some(reserved) = reserved(word.bytes()) {
        return Ok(reserved);
    }
    if let Some(number) = number {
        return Ok(Where::Temp(number));
    }
    if let Some(place) = last_variable(&shape.inst_vars, word.bytes()) {
        return Ok(Where::Inst(place as u8));
    }
    if let Some(binding) = nearest(&shape.class_vars, word.bytes()) {
        let owner = binding.owner.copy(alloc)?;
        return Ok(Where::ClassVar(owner, binding.name.copy(alloc)?));
    }
    Ok(Where::Outer(word.copy(alloc)?))
}

fn reserved(word: &[u8]) -> Option<Where>
    ensures { option_map where_of result ≡ reserved_meaning word.now }
{
    if word == b"self".as_slice() {
        Some(Where::SelfRef)
    } else if word == b"super".as_slice() {
        Some(Where::SuperRef)
    } else if word == b"thisContext".as_slice() {
        Some(Where::Context)
    } else if word == b"true".as_slice() {
        Some(Where::Constant(Literal::True))
    } else if word == b"false".as_slice() {
        Some(Where::Constant(Literal::False))
    } else if word == b"nil".as_slice() {
        Some(Where::Constant(Literal::Nil))
    } else {
        None
    }
}

/// The last place at which a word stands among variables.
fn last_variable(variables: &Names, word: &[u8]) -> Option<usize>
    ensures { result ≡ last_place (bytes_eq word.now) variables.now }
{
    let mut last = None;
    for i in 0..variables.count() {
        if word == variables.at(i).bytes() {
            last = Some(i);
        }
    }
    last
}

/// The first of these class variables that has the word.
fn nearest<'b>(variables: &'b Bindings, word: &[u8]) -> Option<&'b Binding>
    ensures { option_copied result ≡ find (λ b. bytes_eq word.now b.name) variables.now }
{
    for i in 0..variables.count() {
        let binding = variables.at(i);
        if word == binding.name.bytes() {
            return Some(binding);
        }
    }
    None
}

/// Looks for the use at a place of a method.
fn in_method(tree: &MethodTree, at: u32) -> Walk<'_>
    requires { length (declarations_of (method_of tree.now)) < 256 }
    ensures { Walks at 0 (uses_of (method_of tree.now)) (declarations_of (method_of tree.now)) result }
{
    let parameters = tree.parameters.items.as_slice();
    let temporaries = tree.temporaries.items.as_slice();
    let first = parameters.len() as u8;
    match in_body(&tree.body, at, first + temporaries.len() as u8) {
        ControlFlow::Break(found) => {
            let word = found.name.name.bytes();
            let number = found
                .number
                .or(number_in(temporaries, first, word))
                .or(number_in(parameters, 0, word));
            ControlFlow::Break(Found {
                name: found.name,
                number,
            })
        }
        ControlFlow::Continue(next) => ControlFlow::Continue(next),
    }
}

/// Looks for the use at a place of a block, and then for its declaration among the block's parameters.
#[cycle(walk)]
fn in_block(block: &Block, at: u32, first: u8) -> Walk<'_>
    requires { first + length (primary_declarations (block_tree (block_of block.now).0 (block_of block.now).1)) < 256 }
    ensures { Walks at first (primary_uses (block_tree (block_of block.now).0 (block_of block.now).1)) (primary_declarations (block_tree (block_of block.now).0 (block_of block.now).1)) result }
{
    let parameters = block.parameters.items.as_slice();
    match in_body(&block.body, at, first + parameters.len() as u8) {
        ControlFlow::Break(found) => {
            let word = found.name.name.bytes();
            ControlFlow::Break(Found {
                name: found.name,
                number: found.number.or(number_in(parameters, first, word)),
            })
        }
        ControlFlow::Continue(next) => ControlFlow::Continue(next),
    }
}

#[cycle(walk)]
fn in_body(body: &Body, at: u32, first: u8) -> Walk<'_>
    requires { first + length (body_declarations (body_of body.now)) < 256 }
    ensures { Walks at first (body_uses (body_of body.now)) (body_declarations (body_of body.now)) result }
{
    let mut next = first;
    for statement in &body.items {
        next = in_expr(&statement.expr, at, next)?;
    }
    ControlFlow::Continue(next)
}

#[cycle(walk)]
fn in_expr(expr: &Expr, at: u32, first: u8) -> Walk<'_>
    requires { first + length (expr_declarations (expr_of expr.now)) < 256 }
    ensures { Walks at first (expr_uses (expr_of expr.now)) (expr_declarations (expr_of expr.now)) result }
{
    in_names(&expr.targets.items, at, first)?;
    let next = in_primary(&expr.receiver, at, first)?;
    let next = in_messages(&expr.messages, at, next)?;
    in_messages(&expr.cascades, at, next)
}

#[cycle(walk)]
fn in_primary(primary: &Primary, at: u32, first: u8) -> Walk<'_>
    requires { first + length (primary_declarations (primary_of primary.now)) < 256 }
    ensures { Walks at first (primary_uses (primary_of primary.now)) (primary_declarations (primary_of primary.now)) result }
{
    match primary {
        Primary::Name(name) => in_name(name, at, first),
        Primary::Literal(_) => ControlFlow::Continue(first),
        Primary::Block(block) => in_block(block, at, first),
        Primary::Paren(inner) => in_expr(inner, at, first),
    }
}

#[cycle(walk)]
fn in_messages(messages: &Messages, at: u32, first: u8) -> Walk<'_>
    requires { first + length (messages_declarations (messages_of messages.now)) < 256 }
    ensures { Walks at first (messages_uses (messages_of messages.now)) (messages_declarations (messages_of messages.now)) result }
{
    let mut next = first;
    for message in &messages.items {
        next = in_exprs(&message.arguments, at, next)?;
    }
    ControlFlow::Continue(next)
}

#[cycle(walk)]
fn in_exprs(exprs: &Exprs, at: u32, first: u8) -> Walk<'_>
    requires { first + length (exprs_declarations (exprs_of exprs.now)) < 256 }
    ensures { Walks at first (exprs_uses (exprs_of exprs.now)) (exprs_declarations (exprs_of exprs.now)) result }
{
    let mut next = first;
    for expr in &exprs.items {
        next = in_expr(expr, at, next)?;
    }
    ControlFlow::Continue(next)
}

/// Looks for the use at a place among assigned names.
fn in_names(names: &[NameAt], at: u32, first: u8) -> Walk<'_>
    ensures { Walks at first names.now [] result }
{
    for name in names {
        in_name(name, at, first)?;
    }
    ControlFlow::Continue(first)
}

fn in_name(name: &NameAt, at: u32, first: u8) -> Walk<'_>
    ensures { Walks at first (name.now ∷ []) [] result }
{
    if name.at == at {
        return ControlFlow::Break(Found { name, number: None });
    }
    ControlFlow::Continue(first)
}

/// The number of the last of these names that has the word, where they are numbered from `first` on.
fn number_in(names: &[NameAt], first: u8, word: &[u8]) -> Option<u8>
    requires { first + length names.now < 256 }
    ensures { result ≡ number_among names.now first word.now }
{
    let mut number = None;
    for (i, name) in names.iter().enumerate() {
        if word == name.name.bytes() {
            number = Some(first + i as u8);
        }
    }
    number
}

/// The declaration that a use means is the innermost: no other one that is visible there with the same word stands behind it,
/// and all that it is visible in lies in what each of these is visible in.
pub fn the_innermost_declaration_is_meant()
    ensures { (m : MethodParts) (name : NameAt) (i j : ℕ) (meant other : Declaration) → IsUsedOnce name.at (uses_of m) →
        last_place (declares name) (declarations_of m) ≡ Some i → slice_get (declarations_of m) i ≡ Some meant →
        slice_get (declarations_of m) j ≡ Some other → declares name other ≡ true → (j ≤ i) × IsWithin meant.extent other.extent }
{}

/// The places of the uses in a text's tree rise.
pub fn places_of_uses_rise()
    ensures method { (text : List ℕ) (m : MethodParts) → IsMethodOf text m → AreInOrder (uses_of m) }
    ensures doit { (text : List ℕ) (d : DoItParts) → IsDoItOf text d → AreInOrder (body_uses d.body) }
{}

/// Where places rise, each use is the only one at its place.
pub fn a_use_has_its_place_alone()
    ensures { (uses : List NameAt) (name : NameAt) → AreInOrder uses → Contains uses name → IsUsedOnce name.at uses }
{}
