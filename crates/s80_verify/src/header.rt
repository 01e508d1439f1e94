// Whether a header fits.
ghost use Rattle.std.specs.Prelude.{◌≡◌, ◌≢◌, ◌+◌, ◌*◌, ◌<◌, ◌⊎◌, ◌↔◌, IsTrue, map, option_map};
ghost use Rattle.std.specs.List.{list_all};
ghost use Rattle.s80_code.specs.Entries.{entry_of};
ghost use Rattle.s80_verify.specs.Header.{is_plain, IsShort, IsExtended, HeaderFits, BeforeOwner, BeforeExtension, EndsPlain};

use s80_code::{Code, Entry};

/// Whether the flag, the arguments, the temporaries and the special last entries of a code fit each other.
pub(crate) fn header_fits(code: &Code) -> bool
    ensures { IsTrue result ↔ HeaderFits code.now }
{
    code.arguments <= code.temporaries
        && code.temporaries <= 31
        && (is_short(code) || is_extended(code))
}

fn is_short(code: &Code) -> bool
    ensures { IsTrue result ↔ IsShort code.now }
{
    code.flag <= 4
        && code.flag == code.arguments
        && code.primitive == 0
        && ends_plain(code.literals.items.as_slice())
}

/// Whether all but an owner at the end are constants and variables.
fn ends_plain(entries: &[Entry]) -> bool
    ensures { IsTrue result ↔ EndsPlain (map entry_of entries.now) }
{
    match before_owner(entries) {
        Some(plain) => are_plain(plain),
        None => are_plain(entries),
    }
}

fn is_extended(code: &Code) -> bool
    ensures { IsTrue result ↔ IsExtended code.now }
{
    let Some(rest) = before_owner(code.literals.items.as_slice()) else {
        return false;
    };
    let Some(plain) = before_extension(rest, extension(code.arguments, code.primitive)) else {
        return false;
    };
    is_flagged(code) && are_plain(plain)
}

fn is_flagged(code: &Code) -> bool
    ensures { IsTrue result ↔ ((code.now.flag ≡ 7) × ((4 < code.now.arguments) ⊎ (code.now.primitive ≢ 0))) }
{
    code.flag == 7 && needs_extension(code)
}

fn needs_extension(code: &Code) -> bool
    ensures { IsTrue result ↔ ((4 < code.now.arguments) ⊎ (code.now.primitive ≢ 0)) }
{
    code.arguments > 4 || code.primitive != 0
}

/// The number of an extension.
fn extension(arguments: u8, primitive: u8) -> u32
    ensures { result ≡ arguments * 256 + primitive }
{
    u32::from(arguments) * 256 + u32::from(primitive)
}

/// What stands before an owner at the end.
pub(crate) fn before_owner(entries: &[Entry]) -> Option<&[Entry]>
    ensures { BeforeOwner (map entry_of entries.now) (option_map (λ plain. map entry_of plain.now) result) }
{
    match entries.split_last()? {
        (Entry::Owner(..), plain) => Some(plain),
        _ => None,
    }
}

/// What stands before this extension at the end.
fn before_extension(entries: &[Entry], number: u32) -> Option<&[Entry]>
    ensures { BeforeExtension number (map entry_of entries.now) (option_map (λ plain. map entry_of plain.now) result) }
{
    let (Entry::Extension(extension), plain) = entries.split_last()? else {
        return None;
    };
    if *extension == number {
        Some(plain)
    } else {
        None
    }
}

/// Whether all are constants or variables.
fn are_plain(entries: &[Entry]) -> bool
    ensures { result ≡ list_all (λ e. is_plain (entry_of e)) entries.now }
{
    entries.iter().all(|entry| is_plain(entry))
}

fn is_plain(entry: &Entry) -> bool
    ensures { result ≡ is_plain (entry_of entry.now) }
{
    !matches!(entry, Entry::Owner(..) | Entry::Extension(_))
}
