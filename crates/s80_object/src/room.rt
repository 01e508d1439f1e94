// Room for the objects that a literal is.
ghost use Rattle.std.specs.Prelude.{◌≡◌};
ghost use Rattle.s80_base.specs.Literal.{array, literal_of, literals_of};
ghost use Rattle.s80_object.specs.Steps.{left_of, words_in};

use s80_base::{Literal, Literals};

/// What is left of room behind the objects that a literal is, if they fit.
#[cycle(room)]
pub(crate) fn room_behind(room: u64, literal: &Literal) -> Option<u64>
    ensures { result ≡ left_of room (words_in (literal_of literal.now)) }
{
    match literal {
        Literal::Str(text) => room.checked_sub(2 + (text.bytes().len() as u64 + 3) / 4),
        Literal::Array(elements) => room_behind_array(room, elements),
        _ => Some(room),
    }
}

#[cycle(room)]
fn room_behind_array(room: u64, elements: &Literals) -> Option<u64>
    ensures { result ≡ left_of room (words_in (array (literals_of elements.now))) }
{
    let mut left = room;
    for literal in &elements.items {
        left = room_behind(left, literal)?;
    }
    left.checked_sub(2 + elements.items.len() as u64)
}
