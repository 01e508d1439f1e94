// The moment at which changes were filed out, in UTC.
ghost use Rattle.std.specs.Prelude.{◌≡◌, ◌<◌, ◌++◌, ℕ, List, OnOk};
ghost use Rattle.s80_fileout.specs.Moment.{IsCivil, IsMoment, civil_text, clock_text, date_text, two_digits};

use jiff::Timestamp;
use jiff::civil::DateTime;
use jiff::tz::Offset;
use s80_base::{OutOfMemory, Text};

/// The last second that is shown as it is.
const LAST: u64 = 250_000_000_000;

/// Adds the civil time so many seconds after the beginning of 1970, as in `2001-09-09T01:46:40Z`. A second behind the last is taken as that.
pub(crate) fn add_moment(text: &mut Text, seconds: u64) -> Result<(), OutOfMemory>
    ensures { OnOk result ((moment : _) × IsMoment seconds moment × (text.new ≡ text.old ++ moment)) }
{
    add_civil(text, civil(seconds))
}

/// Each second has a moment.
pub fn each_second_has_a_moment(seconds: u64)
    ensures { (moment : List ℕ) × IsMoment seconds moment }
{
    civil(seconds);
}

/// The civil time so many seconds after the beginning of 1970.
fn civil(seconds: u64) -> DateTime
    ensures { IsCivil seconds result }
{
    match Timestamp::from_second(seconds.min(LAST) as i64) {
        Ok(time) => Offset::UTC.to_datetime(time),
        Err(_) => unreachable!(),
    }
}

/// Adds a civil time, to the second.
fn add_civil(text: &mut Text, time: DateTime) -> Result<(), OutOfMemory>
    ensures { OnOk result (text.new ≡ text.old ++ civil_text time) }
{
    add_date(text, time)?;
    add_clock(text, time)
}

/// Adds its year in four digits, its month and its day.
fn add_date(text: &mut Text, time: DateTime) -> Result<(), OutOfMemory>
    ensures { OnOk result (text.new ≡ text.old ++ date_text time) }
{
    let year = time.year().unsigned_abs();
    add_two_digits(text, year / 100)?;
    add_two_digits(text, year % 100)?;
    text.append(b"-")?;
    add_two_digits(text, time.month().unsigned_abs().into())?;
    text.append(b"-")?;
    add_two_digits(text, time.day().unsigned_abs().into())
}

/// Adds its hour, minute and second.
fn add_clock(text: &mut Text, time: DateTime) -> Result<(), OutOfMemory>
    ensures { OnOk result (text.new ≡ text.old ++ clock_text time) }
{
    text.append(b"T")?;
    add_two_digits(text, time.hour().unsigned_abs().into())?;
    text.append(b":")?;
    add_two_digits(text, time.minute().unsigned_abs().into())?;
    text.append(b":")?;
    add_two_digits(text, time.second().unsigned_abs().into())?;
    text.append(b"Z")
}

/// Adds a number in two digits.
fn add_two_digits(text: &mut Text, number: u16) -> Result<(), OutOfMemory>
    requires { number < 100 }
    ensures { OnOk result (text.new ≡ text.old ++ two_digits number) }
{
    let number = number as u8;
    text.append(&[b'0' + number / 10, b'0' + number % 10])
}
