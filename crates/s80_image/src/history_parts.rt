// The change set and the versions.
ghost use Rattle.std.specs.Prelude.{◌≡◌, ◌==◌, ◌&&◌, ◌||◌, if◌then◌else◌, [], length, nat_le, option_map, option_copied};
ghost use Rattle.s80_history.specs.Lists.{MethodName};
ghost use Rattle.s80_image.specs.Format.{Gives, members, text_where};
ghost use Rattle.s80_image.specs.Parts.{is_selector, last_of, place_above, places, side_number};
ghost use Rattle.s80_image.specs.History.{all_versions, all_versions_of, change_set, is_above_method, names_method, noted, noted_behind, noted_kind, noted_kind_of, noted_selector, noted_side, selector_above, versions, versions_behind, versions_of};

use crate::fault::ReadError;
use crate::fields::{byte, byte_to, text, unlawful, word32};
use crate::image::MethodVersions;
use crate::parts::{class_text, is_selector, place_above, side, side_of};
use s80_base::{Side, Text};
use s80_history::{Noted, NotedKind};
use std::alloc::Global;
use std::cmp::Ordering;

// ---- the change set

fn noted_kind_of(number: u8) -> NotedKind
    ensures { result ≡ noted_kind_of number }
{
    match number {
        0 => NotedKind::Define,
        1 => NotedKind::ClassVars,
        2 => NotedKind::Comment,
        3 => NotedKind::Method,
        4 => NotedKind::RemoveMethod,
        5 => NotedKind::Classify,
        _ => NotedKind::RemoveClass,
    }
}

#[tactic(auto, unfolding(crate::specs::History::noted_kind))]
fn noted_kind(bytes: &[u8]) -> Result<(NotedKind, &[u8]), ReadError>
    ensures { Gives (λ x. (x.0, x.1.now)) result (noted_kind.read bytes.now) }
{
    let (number, rest) = byte_to(6, bytes)?;
    Ok((noted_kind_of(number), rest))
}

/// Whether a change of this kind names a method.
fn names_method(kind: NotedKind) -> bool
    ensures { result ≡ names_method kind }
{
    matches!(
        kind,
        NotedKind::Method | NotedKind::RemoveMethod | NotedKind::Classify
    )
}

fn is_side(kind: NotedKind, number: u8) -> bool
    ensures { result ≡ (nat_le number 1 && (names_method kind || number == 0)) }
{
    if names_method(kind) {
        number <= 1
    } else {
        number == 0
    }
}

#[tactic(auto, unfolding(crate::specs::History::noted_side))]
fn noted_side(kind: NotedKind, bytes: &[u8]) -> Result<(Side, &[u8]), ReadError>
    ensures { Gives (λ x. (x.0, x.1.now)) result ((noted_side kind).read bytes.now) }
{
    let (number, rest) = byte(bytes)?;
    if !is_side(kind, number) {
        return Err(unlawful(bytes, u64::from(number)));
    }
    Ok((side_of(number), rest))
}

fn is_noted_selector(kind: NotedKind, word: &[u8]) -> bool
    ensures { result ≡ (if names_method kind then is_selector word.now else length word.now == 0) }
{
    if names_method(kind) {
        is_selector(word)
    } else {
        word.is_empty()
    }
}

fn noted_selector(alloc: Global, kind: NotedKind, bytes: &[u8]) -> Result<(Text, &[u8]), ReadError>
    ensures { Gives (λ x. (x.0, x.1.now)) result ((noted_selector kind).read bytes.now) }
{
    let (word, rest) = text(alloc, bytes)?;
    if !is_noted_selector(kind, word.bytes()) {
        return Err(unlawful(bytes, word.bytes().len() as u64));
    }
    Ok((word, rest))
}

#[tactic(auto, unfolding(crate::specs::History::noted))]
fn noted(alloc: Global, last: Option<u64>, bytes: &[u8]) -> Result<(Noted, &[u8]), ReadError>
    ensures { Gives (λ x. (x.0, x.1.now)) result ((noted last).read bytes.now) }
{
    let (at, rest) = place_above(last, bytes)?;
    let (kind, rest) = noted_kind(rest)?;
    let (class_name, rest) = class_text(alloc, rest)?;
    let (side, rest) = noted_side(kind, rest)?;
    let (selector, rest) = noted_selector(alloc, kind, rest)?;
    let noted = Noted {
        at,
        kind,
        class_name,
        side,
        selector,
    };
    Ok((noted, rest))
}

/// The place of the last member.
fn last_noted(members: &[Noted]) -> Option<u64>
    ensures { result ≡ option_map (λ m. m.at) (last_of members.now) }
{
    match members.last() {
        Some(member) => Some(member.at),
        None => None,
    }
}

fn change_set_from(
    alloc: Global,
    count: u32,
    bytes: &[u8],
) -> Result<(Vec<Noted>, &[u8]), ReadError>
    ensures { Gives (λ x. (x.0.items, x.1.now)) result (members noted_behind [] count bytes.now) }
{
    let mut set = Vec::new(alloc);
    let mut rest = bytes;
    for _ in 0..count {
        let (member, after) = noted(alloc, last_noted(&set), rest)?;
        set.push(member)?;
        rest = after;
    }
    Ok((set, rest))
}

#[tactic(auto, unfolding(crate::specs::History::change_set))]
pub(crate) fn change_set(alloc: Global, bytes: &[u8]) -> Result<(Vec<Noted>, &[u8]), ReadError>
    ensures { Gives (λ x. (x.0.items, x.1.now)) result (change_set.read bytes.now) }
{
    let (count, rest) = word32(bytes)?;
    change_set_from(alloc, count, rest)
}

// ---- versions

/// The last place.
fn last_place(places: &[u64]) -> Option<u64>
    ensures { result ≡ last_of places.now }
{
    places.last().copied()
}

fn places_from(alloc: Global, count: u32, bytes: &[u8]) -> Result<(Vec<u64>, &[u8]), ReadError>
    ensures { Gives (λ x. (x.0.items, x.1.now)) result (members (λ before. place_above (last_of before)) [] count bytes.now) }
{
    let mut places = Vec::new(alloc);
    let mut rest = bytes;
    for _ in 0..count {
        let (place, after) = place_above(last_place(&places), rest)?;
        places.push(place)?;
        rest = after;
    }
    Ok((places, rest))
}

/// Places in the log, at least one.
fn places(alloc: Global, bytes: &[u8]) -> Result<(Vec<u64>, &[u8]), ReadError>
    ensures { Gives (λ x. (x.0.items, x.1.now)) result (places.read bytes.now) }
{
    let (count, rest) = word32(bytes)?;
    if count == 0 {
        return Err(unlawful(bytes, 0));
    }
    places_from(alloc, count, rest)
}

fn side_number(side: Side) -> u8
    ensures { result ≡ side_number side }
{
    match side {
        Side::Instance => 0,
        Side::Class => 1,
    }
}

/// Whether a method's name comes behind the last one, by class, side and selector.
fn is_above_method(last: Option<&MethodVersions>, class: &[u8], side: Side, word: &[u8]) -> bool
    ensures { result ≡ is_above_method (option_map (λ v. (versions_of v.now).name) last.entry) (record { class_name = class.now; side = side; selector = word.now }) }
{
    match last {
        Some(last) => {
            last.class_name
                .bytes()
                .cmp(&class)
                .then(side_number(last.side).cmp(&side_number(side)))
                .then(last.selector.bytes().cmp(&word))
                == Ordering::Less
        }
        None => true,
    }
}

fn selector_above<'b>(
    alloc: Global,
    last: Option<&MethodVersions>,
    class: &[u8],
    side: Side,
    bytes: &'b [u8],
) -> Result<(Text, &'b [u8]), ReadError>
    ensures { Gives (λ x. (x.0, x.1.now)) result ((selector_above (option_map (λ v. (versions_of v.now).name) last.entry) class.now side).read bytes.now) }
{
    let (word, rest) = text(alloc, bytes)?;
    let lawful = is_selector(word.bytes()) && is_above_method(last, class, side, word.bytes());
    if !lawful {
        return Err(unlawful(bytes, word.bytes().len() as u64));
    }
    Ok((word, rest))
}

#[tactic(auto, unfolding(crate::specs::History::versions))]
fn versions<'b>(
    alloc: Global,
    last: Option<&MethodVersions>,
    bytes: &'b [u8],
) -> Result<(MethodVersions, &'b [u8]), ReadError>
    ensures { Gives (λ x. (versions_of x.0, x.1.now)) result ((versions (option_map (λ v. (versions_of v.now).name) last.entry)).read bytes.now) }
{
    let (class_name, rest) = class_text(alloc, bytes)?;
    let (side, rest) = side(rest)?;
    let (selector, rest) = selector_above(alloc, last, class_name.bytes(), side, rest)?;
    let (places, rest) = places(alloc, rest)?;
    let versions = MethodVersions {
        class_name,
        side,
        selector,
        places,
    };
    Ok((versions, rest))
}

fn all_versions_from(
    alloc: Global,
    count: u32,
    bytes: &[u8],
) -> Result<(Vec<MethodVersions>, &[u8]), ReadError>
    ensures { Gives (λ x. (all_versions_of x.0.items, x.1.now)) result (members versions_behind [] count bytes.now) }
{
    let mut all = Vec::new(alloc);
    let mut rest = bytes;
    for _ in 0..count {
        let (next, after) = versions(alloc, all.last(), rest)?;
        all.push(next)?;
        rest = after;
    }
    Ok((all, rest))
}

#[tactic(auto, unfolding(crate::specs::History::all_versions))]
pub(crate) fn all_versions(
    alloc: Global,
    bytes: &[u8],
) -> Result<(Vec<MethodVersions>, &[u8]), ReadError>
    ensures { Gives (λ x. (all_versions_of x.0.items, x.1.now)) result (all_versions.read bytes.now) }
{
    let (count, rest) = word32(bytes)?;
    all_versions_from(alloc, count, rest)
}
