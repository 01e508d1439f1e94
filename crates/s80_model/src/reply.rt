// What an item is answered.
ghost use Rattle.std.specs.Prelude.{◌≡◌, None};

use crate::section::Section;
use s80_base::Text;
use s80_form::Refusal;

/// What an item is answered.
#[derive(Debug, Drop)]
pub enum Reply {
    /// Nothing: a section begins or ends, or the item stands in one that is passed over.
    Silent,
    /// The change was kept.
    Accepted,
    /// The doIt was kept and evaluated: what it is told, and whether its run was stopped.
    Evaluated { lines: Text, stopped: bool },
    Refused(Refusal),
    /// These lines.
    Told(Text),
}

/// What an item is answered, and the section in which the next item stands where that is another one.
#[derive(Debug, Drop)]
pub struct Answer {
    pub reply: Reply,
    pub section: Option<Section>,
}

impl Answer {
    /// The section stays.
    pub fn staying(reply: Reply) -> Self
        ensures { result ≡ record { reply = reply; section = None } }
    {
        Answer {
            reply,
            section: None,
        }
    }
}
