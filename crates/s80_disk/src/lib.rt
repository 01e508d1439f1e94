//! Five files as a program sees them: what a read gives, and what a crash at each moment may leave; and the outside, a disk, a source, a
//! sink and a clock that are one object.
#![tactic(auto)]

mod bytes;
mod disk;
mod durable;
mod faults;
mod five;
mod memory;
mod memory_outside;
mod outside;
mod plan;
mod real;
mod recorded;
mod streams;

pub use disk::{Disk, FileId};
pub use durable::write_and_sync;
pub use faults::Failure;
pub use memory::MemDisk;
pub use memory_outside::MemOutside;
pub use outside::{Outside, put_output, take_input, time_now};
pub use plan::FaultPlan;
pub use real::{HasLock, RealDisk};
pub use streams::{read_some, write_some};
