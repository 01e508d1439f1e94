//! Changes of the programmer's work: heads of sections, sources of methods, and the blocks that keep changes in a log.
#![tactic(auto)]

mod block;
mod change;
mod changes;
mod check;
mod first;
mod framing;
mod front;
mod head;
mod head_form;
mod head_parts;
mod laws;
mod logged_head;
mod source;

pub use block::{block_text, blocks_part_in_one_way, read_change};
pub use change::{Change, Method};
pub use changes::Changes;
pub use check::{fitting_doit, one_check, sources_have_selectors, syntax_refusal};
pub use first::{FirstBlock, first_block};
pub use framing::Framing;
pub use head::{HeadFault, SectionHead, head_of, one_head};
pub use laws::{a_condensing_is_a_doit, measures_are_told};
pub use logged_head::{a_head_text_is_a_head, head_text, one_head_text, read_head};
pub use s80_form::{
    Definition, FitWord, Form, Kind, ManyKind, Recognised, Refusal, Refused, SyntaxKind, recognise,
};
pub use source::Source;
