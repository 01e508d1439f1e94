// How the program ends.
ghost use Rattle.std.specs.Prelude.{◌≡◌, option_map};
ghost use Rattle.s80_program.specs.Ending.{message_of, number_of};

/// How `st80` ends. The number of a status is the program's exit status.
#[derive(Clone, Copy, Debug, PartialEq, Eq)]
pub enum Status {
    /// All was done and answered, and nothing was refused or stopped.
    Done,
    /// The same, but something was refused or stopped.
    DoneWithRefusals,
    /// The words ask for nothing that the program does. The outside wasn't called.
    Usage,
    ReadFault,
    WriteFault,
    DiskFault,
    /// The folder's files are damaged: they stand for no list of changes. None is changed.
    Damaged,
    OutOfMemory,
    /// The input has more than 2^30 bytes.
    InputTooLong,
}

impl Status {
    /// The exit status: from 0 for `Done` to 8 for `InputTooLong`.
    pub fn number(self) -> u8
        ensures { result ≡ number_of self }
    {
        self as u8
    }

    /// The line that standard error gets, if any.
    pub fn message(self) -> Option<&'static str>
        ensures { option_map (λ line. line.now) result ≡ message_of self }
    {
        match self {
            Status::Done | Status::DoneWithRefusals => None,
            Status::Usage => Some(
                "st80: usage: st80 [--budget N] [--keep K] FOLDER COMMAND [ARGUMENTS]",
            ),
            Status::ReadFault => Some("st80: read fault"),
            Status::WriteFault => Some("st80: write fault"),
            Status::DiskFault => Some("st80: disk fault"),
            Status::Damaged => Some("st80: damaged"),
            Status::OutOfMemory => Some("st80: out of memory"),
            Status::InputTooLong => Some("st80: input too long"),
        }
    }
}
