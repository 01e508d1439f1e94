// The members of a change set in groups, in which a later one leaves out earlier ones.
ghost use Rattle.std.specs.Prelude.{◌≡◌, ◌<◌, ◌≤◌, All, None, false, get_or, length, map as list_map, option_copied, option_map, slice_get, vec_capacity, vec_len, IfOk};
ghost use Rattle.s80_history.specs.Members.{IsWithin, added, added_as, gaps, in_set};

use crate::noted::{Noted, is_new};
use s80_base::OutOfMemory;
use std::alloc::Global;

/// A member of the change set, as it was noted. Those that one later member leaves out are a group: the puts and classifications of a method
/// until it is removed, or the comments of a class. Each names the first of its group, which keeps the last member that left out all of the
/// group before it. So one number that is set leaves out as many as there are.
#[derive(Debug, Drop)]
pub(crate) struct Member {
    pub(crate) noted: Noted,
    pub(crate) group: usize,
    pub(crate) last: usize,
}

/// Adds a member behind the others, in a group that is there or in one of its own. Takes no memory.
pub(crate) fn add(members: &mut Vec<Member>, noted: Noted, group: usize)
    requires room { vec_len members.old < vec_capacity members.old }
    requires group { group ≤ length members.old.items }
    ensures { members.new.items ≡ added members.old.items noted group }
{
    let number = members.len();
    let is_new = is_new(noted.kind);
    members.push_reserved(Member {
        noted,
        group,
        last: number,
    });
    if is_new {
        members[group].last = number;
    }
}

/// Adds a member behind the others, which leaves out none. Takes no memory.
pub(crate) fn restore(members: &mut Vec<Member>, noted: Noted, group: usize)
    requires { vec_len members.old < vec_capacity members.old }
    ensures { members.new.items ≡ added_as false members.old.items noted group }
{
    let last = members.len();
    members.push_reserved(Member { noted, group, last });
}

/// The member of this number, if no later one left it out.
fn kept(members: &[Member], i: usize) -> Option<&Noted>
    requires within { i < length members.now }
    requires groups { All (IsWithin (length members.now)) members.now }
    ensures { option_copied result ≡ get_or (gaps members.now) i None }
{
    let member = &members[i];
    if members[member.group].last <= i {
        Some(&member.noted)
    } else {
        None
    }
}

/// The place of the member of this number, if no later one left it out.
fn place_of(members: &[Member], i: usize) -> Option<u64>
    requires within { i < length members.now }
    requires groups { All (IsWithin (length members.now)) members.now }
    ensures { result ≡ option_map (λ m. m.at) (get_or (gaps members.now) i None) }
{
    let noted = kept(members, i)?;
    Some(noted.at)
}

/// How many members no later one left out. It passes over all.
pub(crate) fn count(members: &[Member]) -> usize
    requires { All (IsWithin (length members.now)) members.now }
    ensures { result ≡ length (in_set members.now) }
{
    let mut count = 0;
    for i in 0..members.len() {
        count += usize::from(place_of(members, i).is_some());
    }
    count
}

/// Their places, the oldest first.
pub(crate) fn places(alloc: Global, members: &[Member]) -> Result<Vec<u64>, OutOfMemory>
    requires { All (IsWithin (length members.now)) members.now }
    ensures { IfOk result (λ places. places.items ≡ list_map (λ m. m.at) (in_set members.now)) }
{
    let mut places = Vec::new(alloc);
    for i in 0..members.len() {
        if let Some(place) = place_of(members, i) {
            places.push(place)?;
        }
    }
    Ok(places)
}

/// The place of the i-th of them, the oldest being that of 0.
pub(crate) fn place_at(members: &[Member], i: usize) -> Option<u64>
    requires { All (IsWithin (length members.now)) members.now }
    ensures { result ≡ slice_get (list_map (λ m. m.at) (in_set members.now)) i }
{
    let mut left = i;
    for k in 0..members.len() {
        if let Some(place) = place_of(members, k) {
            if left == 0 {
                return Some(place);
            }
            left -= 1;
        }
    }
    None
}

/// The i-th of them, the oldest being that of 0.
pub(crate) fn member_at(members: &[Member], i: usize) -> Option<&Noted>
    requires { All (IsWithin (length members.now)) members.now }
    ensures { option_copied result ≡ slice_get (in_set members.now) i }
{
    let mut left = i;
    for k in 0..members.len() {
        if let Some(noted) = kept(members, k) {
            if left == 0 {
                return Some(noted);
            }
            left -= 1;
        }
    }
    None
}

/// All of them, the oldest first.
pub(crate) fn listed(alloc: Global, members: &[Member]) -> Result<Vec<&Noted>, OutOfMemory>
    requires { All (IsWithin (length members.now)) members.now }
    ensures { IfOk result (λ listed. list_map (λ m. m.now) listed.items ≡ in_set members.now) }
{
    let mut listed = Vec::new(alloc);
    for i in 0..members.len() {
        if let Some(noted) = kept(members, i) {
            listed.push(noted)?;
        }
    }
    Ok(listed)
}
