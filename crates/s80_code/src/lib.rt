//! The Blue Book's bytecodes as data: code and its literals, the instructions as one table, and the messages that have bytes of their own as
//! another.
#![tactic(auto)]

mod code;
mod decoding;
mod encoding;
mod instruction;
mod laws;
mod listing;
mod special;

pub use code::{Code, Entry, Frame};
pub use decoding::decode;
pub use encoding::{encode, encode_long_jump};
pub use instruction::{Instruction, Storage};
pub use laws::{
    a_byte_has_one_row, a_place_and_the_next, a_special_message_has_one_number,
    a_spelling_is_the_shortest, an_instruction_is_its_bytes, none_is_unused_or_cut_off,
    unused_bytes_stand_for_nothing, used_bytes_stand_for_instructions, what_is_spelled_is_decoded,
    widths_are_one_to_three,
};
pub use listing::disassemble;
pub use special::{
    BLOCK_COPY, SpecialMessage, special_arguments, special_messages, special_number,
};
