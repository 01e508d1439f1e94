// A core tree as a short text: `t`, `i` and a number are temporaries and instance variables.
use s80_base::{Literal, OutOfMemory, Text};
use s80_core::{Core, CoreMessage, CoreMessages, Cores, Leaf, Variable};
use std::alloc::Global;

/// A core tree as a short text.
pub(super) fn shown(alloc: Global, tree: &Core) -> Result<Text, OutOfMemory> {
    let mut out = Text::empty(alloc);
    show(alloc, &mut out, tree)?;
    Ok(out)
}

fn show_variable(alloc: Global, out: &mut Text, variable: &Variable) -> Result<(), OutOfMemory> {
    match variable {
        Variable::Temporary(number) => out.append(format!(in alloc; "t{number}")?.as_bytes()),
        Variable::Instance(place) => out.append(format!(in alloc; "i{place}")?.as_bytes()),
        Variable::Class(owner, word) => {
            out.append(owner.bytes())?;
            out.append(b".")?;
            out.append(word.bytes())
        }
        Variable::Outer(word) => out.append(word.bytes()),
    }
}

#[cycle(literals)]
fn show_literal(alloc: Global, out: &mut Text, literal: &Literal) -> Result<(), OutOfMemory> {
    match literal {
        Literal::Small(value) => out.append(format!(in alloc; "{value}")?.as_bytes()),
        Literal::Character(byte) => out.append(format!(in alloc; "${byte}")?.as_bytes()),
        Literal::Str(text) => {
            out.append(b"'")?;
            out.append(text.bytes())?;
            out.append(b"'")
        }
        Literal::Symbol(text) => {
            out.append(b"#")?;
            out.append(text.bytes())
        }
        Literal::Array(elements) => {
            out.append(b"#(")?;
            for element in &elements.items {
                show_literal(alloc, out, element)?;
                out.append(b" ")?;
            }
            out.append(b")")
        }
        Literal::True => out.append(b"TRUE"),
        Literal::False => out.append(b"FALSE"),
        Literal::Nil => out.append(b"NIL"),
        Literal::Number(_, text) => out.append(text.bytes()),
    }
}

fn show_leaf(alloc: Global, out: &mut Text, leaf: &Leaf) -> Result<(), OutOfMemory> {
    match leaf {
        Leaf::Variable(variable) => show_variable(alloc, out, variable),
        Leaf::Constant(literal) => show_literal(alloc, out, literal),
        Leaf::Receiver => out.append(b"self"),
        Leaf::Context => out.append(b"context"),
    }
}

fn word_of<'a>(on: bool, yes: &'a [u8], no: &'a [u8]) -> &'a [u8] {
    if on { yes } else { no }
}

#[cycle(shown)]
fn show(alloc: Global, out: &mut Text, core: &Core) -> Result<(), OutOfMemory> {
    match core {
        Core::Leaf(leaf) => show_leaf(alloc, out, leaf),
        Core::Assign(target, value) => {
            show_variable(alloc, out, target)?;
            out.append(b" _ ")?;
            show(alloc, out, value)
        }
        Core::Value(value) => show_one(alloc, out, b"value", value),
        Core::Send {
            receiver,
            to_super,
            message,
        } => {
            show_one(alloc, out, b"", receiver)?;
            out.append(word_of(*to_super, b" super", b""))?;
            show_message(alloc, out, message)
        }
        Core::Cascade {
            receiver,
            to_super,
            messages,
        } => {
            show_one(alloc, out, b"", receiver)?;
            out.append(word_of(*to_super, b" super", b""))?;
            show_messages(alloc, out, messages)
        }
        Core::RealBlock {
            first,
            parameters,
            body,
        } => {
            out.append(format!(in alloc; "[{first}+{parameters} ")?.as_bytes())?;
            show(alloc, out, body)?;
            out.append(b"]")
        }
        Core::TwoArms {
            on,
            condition,
            first,
            second,
        } => {
            show_one(alloc, out, word_of(*on, b"if", b"unless"), condition)?;
            show_one(alloc, out, b" then", first)?;
            show_one(alloc, out, b" else", second)
        }
        Core::OneArm { on, condition, arm } => {
            show_one(alloc, out, word_of(*on, b"if", b"unless"), condition)?;
            show_one(alloc, out, b" then", arm)
        }
        Core::Shortcut { on, condition, arm } => {
            show_one(alloc, out, word_of(*on, b"and", b"or"), condition)?;
            show_one(alloc, out, b" then", arm)
        }
        Core::Loop {
            on,
            condition,
            body,
        } => {
            show_one(alloc, out, word_of(*on, b"while", b"until"), condition)?;
            show_one(alloc, out, b" do", body)
        }
        Core::Nothing => out.append(b"nothing"),
        Core::Then(first, second) => {
            show(alloc, out, first)?;
            out.append(b". ")?;
            show(alloc, out, second)
        }
        Core::Return(value) => show_one(alloc, out, b"^", value),
        Core::ReturnFixed(number) => out.append(format!(in alloc; "^{number}")?.as_bytes()),
        Core::Leave(value) => show_one(alloc, out, b"leave", value),
    }
}

#[cycle(shown)]
fn show_one(alloc: Global, out: &mut Text, word: &[u8], core: &Core) -> Result<(), OutOfMemory> {
    out.append(word)?;
    out.append(b"(")?;
    show(alloc, out, core)?;
    out.append(b")")
}

#[cycle(shown)]
fn show_message(alloc: Global, out: &mut Text, message: &CoreMessage) -> Result<(), OutOfMemory> {
    out.append(b" ")?;
    out.append(message.selector.bytes())?;
    show_all(alloc, out, &message.arguments)
}

#[cycle(shown)]
fn show_all(alloc: Global, out: &mut Text, cores: &Cores) -> Result<(), OutOfMemory> {
    for core in &cores.items {
        show_one(alloc, out, b" ", core)?;
    }
    Ok(())
}

#[cycle(shown)]
fn show_messages(
    alloc: Global,
    out: &mut Text,
    messages: &CoreMessages,
) -> Result<(), OutOfMemory> {
    for message in &messages.items {
        out.append(b";")?;
        show_message(alloc, out, message)?;
    }
    Ok(())
}
