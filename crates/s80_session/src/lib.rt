//! A session: it works the items of an input one after another, and answers them in groups, each once what it changes is on the disk.
#![tactic(auto)]

mod base;
mod condense;
mod end;
mod files;
mod input;
mod make;
mod merge;
mod outside;
mod queries;
mod replies;
mod reply;
mod session;
mod sought;
mod theirs;
mod told;

pub use end::SessionEnd;
pub use outside::put_all;
pub use s80_model::{Filed, Query, SessionItem};
pub use session::Session;
