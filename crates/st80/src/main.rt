//! `st80 FOLDER COMMAND`: a day's work in Smalltalk-80, kept in a folder that no crash loses.
#![tactic(auto)]

mod fault;
mod places;
mod progress;
mod real;
mod sight;
mod words;

ghost use Rattle.std.specs.Prelude.{◌≡◌};
ghost use Rattle.std.specs.Process.{exit_status};
ghost use Rattle.s80_program.specs.Ending.{number_of};

use fault::{predicate, subject};
pub use places::Telling;
pub use progress::Seen;
pub use real::RealOutside;
use s80_base::Text;
pub use s80_disk::Failure;
use s80_keeper::{Damage, Keeper, StartFault};
pub use s80_program::{Status, st80};
use std::alloc::Global;
use std::env;
use std::io::IsTerminal;
use std::process::ExitCode;
use words::words_of;

/// What standard error is told of the input: places where somebody sees them or asks for them, and prompts where that one types.
fn telling(rt: &HostRuntime) -> Telling {
    let is_seen = rt.stderr().is_terminal();
    if is_seen && rt.stdin().is_terminal() {
        Telling::PlacesAndPrompts
    } else if is_seen || env::var(rt, "ST80_EXPLAIN").is_ok() {
        Telling::Places
    } else {
        Telling::Nothing
    }
}

/// Who sees standard error, if somebody does.
fn seen(rt: &HostRuntime) -> Option<Seen> {
    if !rt.stderr().is_terminal() {
        return None;
    }
    Some(if rt.stdout().is_terminal() {
        Seen::WithOutput
    } else {
        Seen::Alone
    })
}

/// Whether all of the input is answered by one reply, which has no place in it.
fn answers_as_a_whole(words: &[Text]) -> bool {
    match words.last() {
        Some(word) => word.bytes() == b"merge".as_slice(),
        None => false,
    }
}

/// Why a run of the folder ended so.
#[derive(Drop)]
enum Why {
    /// This failed first.
    Failed(Failure),
    /// This is what is wrong with its files.
    Damaged(Damage),
}

/// What is wrong with the files of the folder, as a start finds it. It changes none that is damaged.
fn damage(alloc: Global, outside: &mut RealOutside<HostRuntime>) -> Option<Damage> {
    match Keeper::start(alloc, outside) {
        Err(StartFault::Damaged(damage)) => Some(damage),
        _ => None,
    }
}

/// Why it ended with this status, where more is known of that.
fn cause(alloc: Global, status: Status, outside: &mut RealOutside<HostRuntime>) -> Option<Why> {
    match status {
        Status::DiskFault => outside.failure().map(Why::Failed),
        Status::Damaged => damage(alloc, outside).map(Why::Damaged),
        _ => None,
    }
}

/// Runs on the standard streams and the machine's files. Says why it ended so, too, to whom more is told.
fn run(rt: HostRuntime, telling: Telling) -> (Status, Option<Why>) {
    let seen = seen(&rt);
    match words_of(rt.alloc(), env::args(&rt)) {
        Ok(words) => {
            let alloc = rt.alloc();
            let of_input = if answers_as_a_whole(&words) {
                telling.without_places()
            } else {
                telling
            };
            let mut outside = RealOutside::make(rt, of_input, seen);
            let status = st80(alloc, &words, &mut outside);
            let why = if telling == Telling::Nothing {
                None
            } else {
                cause(alloc, status, &mut outside)
            };
            outside.clear_progress();
            (status, why)
        }
        Err(status) => (status, None),
    }
}

/// Tells more of a status to whoever sees standard error or asks for it.
fn explain(rt: &HostRuntime, status: Status, why: Option<Why>) {
    if status == Status::Usage {
        let _ = eprintln!(rt;
            "st80: COMMAND is run, do TEXT, recover, classes, browse N, source SPEC S, versions SPEC S, changes, file-out, file-out-class N, file-out-set, merge, senders S, implementors S, references N, undeclared, unimplemented, unsent, condense, snapshot or make N; man st80 tells more"
        );
    }
    match why {
        Some(Why::Failed(failure)) => {
            let (subject, predicate, error) = (
                subject(&failure),
                predicate(&failure),
                failure.error,
            );
            let _ = eprintln!(rt; "st80: {subject} {predicate}: {error}");
        }
        Some(Why::Damaged(damage)) => {
            let _ = eprintln!(rt; "st80: {damage}");
        }
        None => {}
    }
}

fn code_of(status: Status) -> ExitCode
    ensures { exit_status result ≡ number_of status }
{
    ExitCode::from(status.number())
}

fn main(rt: HostRuntime) -> ExitCode {
    let telling = telling(&rt);
    let (status, why) = run(rt, telling);
    if let Some(line) = status.message() {
        let _ = eprintln!(rt; "{line}");
    }
    if telling != Telling::Nothing {
        explain(&rt, status, why);
    }
    code_of(status)
}
