// Which calls of a disk in memory fail.
ghost use Rattle.std.specs.Prelude.{◌↔◌, IsTrue};
ghost use Rattle.s80_disk.specs.Plan.{Plans};

/// Which calls of a disk in memory fail, by their numbers from 1.
#[derive(Clone, Copy, Debug, PartialEq, Eq)]
pub enum FaultPlan {
    /// No call fails.
    Never,
    /// The call of this number fails.
    One(u64),
    /// The call of this number and every later one fail.
    From(u64),
}

impl FaultPlan {
    pub(crate) fn has(self, number: u64) -> bool
        ensures { IsTrue result ↔ Plans self number }
    {
        match self {
            FaultPlan::Never => false,
            FaultPlan::One(one) => number == one,
            FaultPlan::From(first) => first <= number,
        }
    }
}
