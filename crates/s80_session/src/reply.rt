// How an answer is written, and what a fault of the keeper answers.
ghost use Rattle.std.specs.Prelude.{◌≡◌, ◌≢◌, ◌++◌, ◌∷◌, [], ℕ, Err, IfOk};
ghost use Rattle.s80_print.specs.Refusal.{refusal_text};
ghost use Rattle.s80_session.specs.Ends.{refusal_at_fault, reply_to_keeping};

use crate::end::SessionEnd;
use s80_base::{OutOfMemory, Text};
use s80_form::Refusal;
use s80_keeper::KeepFault;
use s80_model::Reply;
use s80_print::refusal_text;
use std::alloc::Global;

/// The line that answers an accepted item.
pub(crate) const ACCEPTED: &[u8] = b"ok\n";

/// The line that answers a refused item.
pub(crate) fn refusal_line(alloc: Global, refusal: &Refusal) -> Result<Text, OutOfMemory>
    ensures { IfOk result (λ line. line ≡ refusal_text refusal.now ++ 10 ∷ []) }
{
    let mut line = refusal_text(alloc, refusal)?;
    line.append(b"\n")?;
    Ok(line)
}

/// Why an item is refused at a fault of the keeper: the log is full. Every other fault ends the session.
pub(crate) fn refusal_at_fault(fault: KeepFault) -> Result<Refusal, SessionEnd>
    ensures { result ≡ refusal_at_fault fault }
{
    match fault {
        KeepFault::Memory => Err(SessionEnd::Memory),
        KeepFault::Disk(failed) | KeepFault::Closed(failed) => Err(SessionEnd::Disk(failed)),
        KeepFault::Full(length) => Ok(Refusal::LogFull(length)),
        KeepFault::Damaged(damage) => Err(SessionEnd::Damaged(damage)),
    }
}

/// How a fault of reading ends the session.
pub(crate) fn end_at_fault(fault: KeepFault) -> SessionEnd
    requires { (length : ℕ) → fault ≢ KeepFault.Full length }
    ensures { refusal_at_fault fault ≡ Err result }
{
    match refusal_at_fault(fault) {
        Ok(_) => unreachable!(),
        Err(end) => end,
    }
}

/// What a change is answered, by why it is refused, if it is.
pub(crate) fn reply_to_keeping(refusal: Option<Refusal>) -> Reply
    ensures { result ≡ reply_to_keeping refusal }
{
    match refusal {
        None => Reply::Accepted,
        Some(refusal) => Reply::Refused(refusal),
    }
}
