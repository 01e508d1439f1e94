// What the replies to generated input come to.
ghost use Rattle.std.specs.Prelude.{◌≡◌, true, false, None, IfOk, OnOk, option_map};
ghost use Rattle.s80_make.specs.Tally.{made_line, nothing, small_in, with_doit, with_refusal, with_reply};

use s80_base::{OutOfMemory, Text};
use s80_doit::small_answer;
use s80_machine::Ran;
use s80_model::Reply;
use std::alloc::Global;

/// How many replies were refusals, how many doIts were stopped, and the sum of the SmallIntegers that the others answered.
#[derive(Clone, Copy, Debug, PartialEq, Eq)]
pub struct Tally {
    pub refused: u64,
    pub stopped: u64,
    pub sum: i64,
}

impl Tally {
    /// Of no reply.
    pub fn nothing() -> Tally
        ensures { result ≡ nothing }
    {
        Tally {
            refused: 0,
            stopped: 0,
            sum: 0,
        }
    }

    /// Counts a reply: that to a doIt by its run, which came last. Fails where a count would leave its type.
    pub fn count(&mut self, reply: &Reply, last_run: Option<&Ran>) -> Result<(), OutOfMemory>
        ensures { OnOk result (self.new ≡ with_reply reply.now (small_in (option_map (λ ran. ran.now) last_run.entry)) self.old) }
    {
        match reply {
            Reply::Silent => Ok(()),
            Reply::Accepted => Ok(()),
            Reply::Refused(_) => self.count_refusal(),
            Reply::Evaluated { stopped: true, .. } => self.count_stop(),
            Reply::Evaluated { stopped: false, .. } => match last_run {
                Some(ran) => self.count_answer(small_answer(ran)),
                None => Ok(()),
            },
            Reply::Told(_) => Ok(()),
        }
    }

    fn count_refusal(&mut self) -> Result<(), OutOfMemory>
        ensures { OnOk result (self.new ≡ with_refusal self.old) }
    {
        self.refused = self.refused.checked_add(1).ok_or(OutOfMemory)?;
        Ok(())
    }

    fn count_stop(&mut self) -> Result<(), OutOfMemory>
        ensures { OnOk result (self.new ≡ with_doit true None self.old) }
    {
        self.stopped = self.stopped.checked_add(1).ok_or(OutOfMemory)?;
        Ok(())
    }

    fn count_answer(&mut self, small: Option<i32>) -> Result<(), OutOfMemory>
        ensures { OnOk result (self.new ≡ with_doit false small self.old) }
    {
        if let Some(n) = small {
            self.sum = self.sum.checked_add(i64::from(n)).ok_or(OutOfMemory)?;
        }
        Ok(())
    }

    /// The line that tells it, of so many classes.
    pub fn line(&self, alloc: Global, classes: u32) -> Result<Text, OutOfMemory>
        ensures { IfOk result (λ line. line ≡ made_line classes self.now) }
    {
        let line = format!(in alloc;
            "made {classes} classes, {} refused, {} stopped, sum {}\n",
            self.refused, self.stopped, self.sum
        )?;
        Text::from_bytes(alloc, line.as_bytes())
    }
}
