// A tree as a short text: arguments in braces, each cascade behind a semicolon, and names with their places where these are wanted.
use s80_base::{Literal, Literals, NumberKind, OutOfMemory, Text};
use s80_tree::{Body, DoItTree, Expr, Exprs, Messages, MethodTree, NameAt, NamesAt, Primary};
use std::alloc::Global;

/// How a tree is shown.
#[derive(Clone, Copy)]
struct Manner {
    alloc: Global,
    places: bool,
}

/// The selector with its parameters, temporaries, a primitive and the body.
pub(super) fn method(alloc: Global, places: bool, tree: &MethodTree) -> Result<Text, OutOfMemory> {
    let manner = Manner { alloc, places };
    let mut out = Text::empty(alloc);
    out.append(tree.selector.bytes())?;
    names(manner, &mut out, b" :", &tree.parameters)?;
    if !tree.temporaries.items.is_empty() {
        out.append(b" ")?;
        temporaries(manner, &mut out, &tree.temporaries)?;
    }
    if tree.primitive > 0 {
        let number = format!(in alloc; " <{}>", tree.primitive)?;
        out.append(number.as_bytes())?;
    }
    if !tree.body.items.is_empty() {
        out.append(b" ")?;
        body(manner, &mut out, &tree.body)?;
    }
    Ok(out)
}

/// Temporaries and the body.
pub(super) fn doit(alloc: Global, places: bool, tree: &DoItTree) -> Result<Text, OutOfMemory> {
    let manner = Manner { alloc, places };
    let mut out = Text::empty(alloc);
    if !tree.temporaries.items.is_empty() {
        temporaries(manner, &mut out, &tree.temporaries)?;
        out.append(b" ")?;
    }
    body(manner, &mut out, &tree.body)?;
    Ok(out)
}

fn name(manner: Manner, out: &mut Text, shown: &NameAt) -> Result<(), OutOfMemory> {
    out.append(shown.name.bytes())?;
    if manner.places {
        out.append(format!(in manner.alloc; "@{}", shown.at)?.as_bytes())?;
    }
    Ok(())
}

fn names(manner: Manner, out: &mut Text, before: &[u8], list: &NamesAt) -> Result<(), OutOfMemory> {
    for shown in &list.items {
        out.append(before)?;
        name(manner, out, shown)?;
    }
    Ok(())
}

fn temporaries(manner: Manner, out: &mut Text, list: &NamesAt) -> Result<(), OutOfMemory> {
    names(manner, out, b"|", list)?;
    out.append(b"|")
}

#[cycle(shown)]
fn body(manner: Manner, out: &mut Text, tree: &Body) -> Result<(), OutOfMemory> {
    for statement in &tree.items {
        if statement.returns {
            out.append(b"^")?;
        }
        expr(manner, out, &statement.expr)?;
        out.append(b".")?;
    }
    Ok(())
}

#[cycle(shown)]
fn expr(manner: Manner, out: &mut Text, tree: &Expr) -> Result<(), OutOfMemory> {
    for target in &tree.targets.items {
        name(manner, out, target)?;
        out.append(b"_")?;
    }
    primary(manner, out, &tree.receiver)?;
    messages(manner, out, b" ", &tree.messages)?;
    messages(manner, out, b"; ", &tree.cascades)
}

#[cycle(shown)]
fn messages(
    manner: Manner,
    out: &mut Text,
    before: &[u8],
    list: &Messages,
) -> Result<(), OutOfMemory> {
    for message in &list.items {
        out.append(before)?;
        out.append(message.selector.bytes())?;
        arguments(manner, out, &message.arguments)?;
    }
    Ok(())
}

#[cycle(shown)]
fn arguments(manner: Manner, out: &mut Text, list: &Exprs) -> Result<(), OutOfMemory> {
    for argument in &list.items {
        out.append(b"{")?;
        expr(manner, out, argument)?;
        out.append(b"}")?;
    }
    Ok(())
}

#[cycle(shown)]
fn primary(manner: Manner, out: &mut Text, tree: &Primary) -> Result<(), OutOfMemory> {
    match tree {
        Primary::Name(shown) => name(manner, out, shown),
        Primary::Literal(value) => literal(manner.alloc, out, value),
        Primary::Block(block) => {
            out.append(b"[")?;
            names(manner, out, b":", &block.parameters)?;
            out.append(b"|")?;
            body(manner, out, &block.body)?;
            out.append(b"]")
        }
        Primary::Paren(inner) => {
            out.append(b"(")?;
            expr(manner, out, inner)?;
            out.append(b")")
        }
    }
}

#[cycle(shown_literal)]
fn literal(alloc: Global, out: &mut Text, value: &Literal) -> Result<(), OutOfMemory> {
    match value {
        Literal::Small(value) => out.append(format!(in alloc; "{value}")?.as_bytes()),
        Literal::Character(code) => out.append(&[b'$', *code]),
        Literal::Str(text) => spelled(out, b"'", text),
        Literal::Symbol(text) => spelled(out, b"#", text),
        Literal::Array(list) => elements(alloc, out, list),
        Literal::True => out.append(b"TRUE"),
        Literal::False => out.append(b"FALSE"),
        Literal::Nil => out.append(b"NIL"),
        Literal::Number(NumberKind::LargePositive, text) => spelled(out, b"large ", text),
        Literal::Number(NumberKind::LargeNegative, text) => spelled(out, b"negative ", text),
        Literal::Number(NumberKind::Float, text) => spelled(out, b"float ", text),
    }
}

fn spelled(out: &mut Text, before: &[u8], text: &Text) -> Result<(), OutOfMemory> {
    out.append(before)?;
    out.append(text.bytes())
}

#[cycle(shown_literal)]
fn elements(alloc: Global, out: &mut Text, list: &Literals) -> Result<(), OutOfMemory> {
    out.append(b"(")?;
    for value in &list.items {
        out.append(b" ")?;
        literal(alloc, out, value)?;
    }
    out.append(b" )")
}
