// Where messages went before.
ghost use Rattle.std.specs.Prelude.{◌≡◌, ◌<◌, ◌+◌, ◌==◌, ℕ, None, Some, IfSome, OnOk, get_or, if◌then◌else◌, length};
ghost use Rattle.s80_machine.specs.Sites.{IsNoted, site_in};

use s80_base::{OutOfMemory, Side};
use s80_class::Found;
use s80_verify::Verified;
use std::alloc::Global;

/// The row of the messages that have bytes of their own.
pub(crate) const SPECIAL: usize = 0;

/// Where a message went.
#[derive(Clone, Copy, Debug)]
pub(crate) enum Target<'a> {
    /// To the method of this number, which has no primitive.
    Numbered(u32),
    /// To this method.
    Primitive(Found<'a, Verified>),
    /// Nothing was found, and it was sent on to this method.
    Handler(Found<'a, Verified>),
}

/// Where a message of a code went, to a receiver whose class has this place.
#[derive(Clone, Copy, Debug)]
pub(crate) struct Site<'a> {
    pub class: u32,
    pub side: Side,
    pub target: Target<'a>,
}

/// A message by its row and its place there, to a receiver whose class has this place.
#[derive(Clone, Copy, Debug)]
pub(crate) struct Sending {
    pub row: usize,
    pub place: u8,
    pub class: u32,
    pub side: Side,
}

/// For each message of the methods' codes, where it went last: an inline cache (Deutsch and Schiffman, 1984).
#[derive(Debug, Drop)]
pub(crate) struct Sites<'a> {
    // First those of the messages that have bytes of their own, by their numbers. Behind them those of each method, by the place of the selector among its literals.
    rows: Vec<Vec<Option<Site<'a>>>>,
}

impl<'a> Sites<'a> {
    pub(crate) fn none(alloc: Global) -> Self
        ensures { (m k : ℕ) → site_in result m k ≡ None }
    {
        Sites {
            rows: Vec::new(alloc),
        }
    }

    /// Where the message went, where that is noted.
    #[inline(always)]
    pub(crate) fn get(&self, sending: Sending) -> Option<Target<'a>>
        ensures { IfSome result (λ target. site_in self.now sending.row sending.place
            ≡ Some (record { class = sending.class; side = sending.side; target = target })) }
    {
        let site = self.site(sending.row, sending.place)?;
        if site.class == sending.class && site.side == sending.side {
            Some(site.target)
        } else {
            None
        }
    }

    #[inline(always)]
    fn site(&self, row: usize, place: u8) -> Option<Site<'a>>
        ensures { result ≡ site_in self.now row place }
    {
        *self.rows.get(row)?.get(usize::from(place))?
    }

    /// Notes where the message went.
    pub(crate) fn note(
        &mut self,
        alloc: Global,
        sending: Sending,
        target: Target<'a>,
    ) -> Result<(), OutOfMemory>
        ensures { OnOk result (IsNoted self.old sending.row sending.place
            (record { class = sending.class; side = sending.side; target = target.entry }) self.new) }
    {
        let site = Site {
            class: sending.class,
            side: sending.side,
            target,
        };
        self.add_rows(alloc, sending.row)?;
        put(&mut self.rows[sending.row], sending.place, site)
    }

    // Adds rows up to this one.
    fn add_rows(&mut self, alloc: Global, row: usize) -> Result<(), OutOfMemory>
        ensures same { (n k : ℕ) → site_in self.new n k ≡ site_in self.old n k }
        ensures there { OnOk result (row < length self.new.rows.items) }
    {
        while self.rows.len() <= row {
            self.rows.push(Vec::new(alloc))?;
        }
        Ok(())
    }
}

// Puts a site at a place of a row.
fn put<'a>(row: &mut Vec<Option<Site<'a>>>, place: u8, site: Site<'a>) -> Result<(), OutOfMemory>
    ensures { OnOk result ((k : ℕ) → get_or row.new.items k None ≡ (if k == place then Some site.entry else get_or row.old.items k None)) }
{
    let place = usize::from(place);
    if row.len() <= place {
        row.resize(place + 1, None)?;
    }
    row[place] = Some(site);
    Ok(())
}

/// The row of a method's own messages.
#[inline(always)]
pub(crate) fn row_of(method: u32) -> usize
    ensures { result ≡ method + 1 }
{
    method as usize + 1
}
