// What is kept of a list step by step.
ghost use Rattle.std.specs.Prelude.{◌≡◌, ◌∷◌, [], ◌++◌, All, List, length, map as list_map, option_copied, option_map, slice_get, IfOk, IfSome, OnErr, OnOk};
ghost use Rattle.s80_change.specs.declared.change.Change.{Change};
ghost use Rattle.s80_change.specs.Block.{IsLawful, blocks};
ghost use Rattle.s80_history.specs.Lists.{MethodName, set_of, versions_of};
ghost use Rattle.s80_history.specs.History.{IsHistoryOf, IsReadyFor, none_noted, noting, set_places, version_places, with_newest};
ghost use Rattle.s80_history.specs.Order.{AreMethodsOf};
ghost use Rattle.s80_history.specs.Traces.{AreAlikeIn, HasPlaceIn};

use crate::keys::{MethodKey, key_at, key_of, put, put_next};
use crate::members::{Member, add, count, listed, member_at, place_at, places, restore};
use crate::noted::{Noted, is_no_changes, joining, noted_of};
use crate::trace::{
    ClassTrace, add_version, make_method_room, make_place, newest, newest_first, note, versions,
};
use indexmap::IndexMap;
use s80_base::{OutOfMemory, Side, Text};
use s80_change::Change;
use std::alloc::Global;
use std::marker::Model;

/// The change set of a list of changes, and the places of all versions of each method, whatever was removed since (Goldberg, "Smalltalk-80:
/// The Interactive Programming Environment"). Each step of the list is noted in constant time, which no contract says; but a method's name is
/// sought among those that have versions, which stand in order, and a new one moves those behind it.
#[derive(Debug, Drop)]
pub struct History {
    members: Vec<Member>,
    /// How many members there were in the sets before this one.
    begun: u64,
    classes: IndexMap<Vec<u8>, ClassTrace>,
    /// The member for which memory is found.
    next: Option<Noted>,
    /// The methods that have versions, in order.
    keys: Vec<MethodKey>,
    /// The method that the member puts for which memory is found.
    next_key: Option<MethodKey>,
}

impl Model for History {
    ghost use Rattle.s80_history.specs.Coded.{history_code};
    ghost use Rattle.s80_history.specs.History.{HistoryState};
    ghost use Rattle.s80_history.specs.Keys.{AreKept};
    ghost use Rattle.s80_history.specs.Members.{in_set};
    ghost use Rattle.s80_history.specs.Sound.{IsSound};
    ghost use Rattle.s80_history.specs.Traces.{versions_of_classes};

    ghost Value = { HistoryState };

    ghost coded = { history_code };

    ghost view = { λ h. record { members = in_set h.members.items; versions = versions_of_classes h.classes.entries; ready = h.next } };

    ghost invariant = { λ h. IsSound h.members h.begun h.classes.entries h.next × AreKept h.classes.entries h.keys h.next h.next_key };
}

impl History {
    /// Of the empty list. Takes no memory.
    pub fn empty(alloc: Global) -> History
        ensures none { result ≡ none_noted }
        ensures of { IsHistoryOf result [] }
    {
        History {
            members: Vec::new(alloc),
            begun: 0,
            classes: IndexMap::new(alloc),
            next: None,
            keys: Vec::new(alloc),
            next_key: None,
        }
    }

    /// Takes all memory that the noting of this change takes, and no other's. What is noted stays.
    pub fn reserve(&mut self, alloc: Global, change: &Change) -> Result<(), OutOfMemory>
        ensures ready { OnOk result (IsReadyFor self.new change.now) }
        ensures members { self.new.members ≡ self.old.members }
        ensures versions { (name : MethodName) → version_places self.new name ≡ version_places self.old name }
        ensures of { (changes : List Change) → IsHistoryOf self.old changes → IsHistoryOf self.new changes }
    {
        self.next = None;
        self.next_key = None;
        self.members.reserve(1)?;
        let number = self.begun + self.members.len() as u64;
        if number == u64::MAX {
            return Err(OutOfMemory);
        }
        self.keys.reserve(1)?;
        let noted = ready(&mut self.classes, alloc, change)?;
        self.next_key = key_of(alloc, &noted)?;
        self.next = noted;
        Ok(())
    }

    /// Notes the change whose block begins at this place, behind a list of changes. Takes no memory.
    pub fn note(&mut self, change: &Change, at: u64)
        requires { IsReadyFor self.old change.now }
        ensures { (changes : List Change) → All IsLawful (changes ++ change.now ∷ []) → at ≡ length (blocks changes)
            → IsHistoryOf self.old changes → IsHistoryOf self.new (changes ++ change.now ∷ []) }
    {
        let Some(mut noted) = self.next.take() else {
            if is_no_changes(change) {
                self.begun += self.members.len() as u64;
                self.members.clear();
            }
            return;
        };
        noted.at = at;
        let number = self.begun + self.members.len() as u64;
        let first = note(&mut self.classes, &noted, self.begun, number);
        add(&mut self.members, noted, (first - self.begun) as usize);
        put_next(&mut self.keys, self.next_key.take());
    }

    /// Adds a member at the end of the set, as a set that was kept is built again from its members. It leaves out none, and the members that
    /// are noted later leave it out as they would have where it was kept. No version comes with it. What was reserved is let go.
    pub fn restore_member(&mut self, alloc: Global, member: Noted) -> Result<(), OutOfMemory>
        ensures ok { OnOk result (self.new.members ≡ self.old.members ++ member ∷ []) }
        ensures err { OnErr result (self.new.members ≡ self.old.members) }
        ensures versions { (name : MethodName) → version_places self.new name ≡ version_places self.old name }
    {
        self.next = None;
        self.next_key = None;
        self.members.reserve(1)?;
        let number = self.begun + self.members.len() as u64;
        if number == u64::MAX {
            return Err(OutOfMemory);
        }
        let mut member = member;
        let kind = member.kind;
        member.kind = joining(kind);
        make_place(&mut self.classes, alloc, &member)?;
        let first = note(&mut self.classes, &member, self.begun, number);
        member.kind = kind;
        restore(&mut self.members, member, (first - self.begun) as usize);
        Ok(())
    }

    /// Adds a newest version of a method, as its versions are built again, and leaves the set. What was reserved is let go.
    pub fn restore_version(
        &mut self,
        alloc: Global,
        class_name: &Text,
        side: Side,
        selector: &Text,
        at: u64,
    ) -> Result<(), OutOfMemory>
        ensures members { self.new.members ≡ self.old.members }
        ensures ok { OnOk result ((name : MethodName) → version_places self.new name
            ≡ with_newest (record { class_name = class_name.now; side = side; selector = selector.now }) at name (version_places self.old name)) }
        ensures err { OnErr result ((name : MethodName) → version_places self.new name ≡ version_places self.old name) }
    {
        self.next = None;
        self.next_key = None;
        self.keys.reserve(1)?;
        let key = MethodKey::copied(alloc, class_name, side, selector)?;
        make_method_room(&mut self.classes, alloc, class_name, side, selector)?;
        add_version(&mut self.classes, class_name, side, selector, at);
        put(&mut self.keys, key);
        Ok(())
    }

    /// How many changes the set has. It passes over all that were noted since the set began.
    pub fn set_count(&self) -> usize
        ensures { result ≡ length self.now.members }
    {
        count(&self.members)
    }

    /// The places of the set's blocks, the oldest first.
    pub fn set_places(&self, alloc: Global) -> Result<Vec<u64>, OutOfMemory>
        ensures { IfOk result (λ places. places.items ≡ set_places self.now) }
    {
        places(alloc, &self.members)
    }

    /// The place of the set's i-th block, the oldest being that of 0; None past the last. It passes over those before it.
    pub fn set_at(&self, i: usize) -> Option<u64>
        ensures place { result ≡ slice_get (set_places self.now) i }
        ensures of { (changes : List Change) → IsHistoryOf self.now changes → result ≡ slice_get (list_map (λ p. p.0) (set_of changes)) i }
    {
        place_at(&self.members, i)
    }

    /// The i-th member of the set, the oldest being that of 0; None past the last. It passes over those before it, where `members` gives all in
    /// one pass.
    pub fn member_at(&self, i: usize) -> Option<&Noted>
        ensures { option_copied result ≡ slice_get self.now.members i }
    {
        member_at(&self.members, i)
    }

    /// The members of the set, the oldest first.
    pub fn members(&self, alloc: Global) -> Result<Vec<&Noted>, OutOfMemory>
        ensures { IfOk result (λ members. list_map (λ m. m.now) members.items ≡ self.now.members) }
    {
        listed(alloc, &self.members)
    }

    /// How many methods have versions, whether or not they are there any more.
    pub fn key_count(&self) -> usize
        ensures { (names : List MethodName) → AreMethodsOf self.now names → result ≡ length names }
    {
        self.keys.len()
    }

    /// The i-th of the methods that have versions, in the byte order of their classes, then the instance side before the class side, then in the
    /// byte order of their selectors; None past the last.
    pub fn key_at(&self, i: usize) -> Option<(&Text, Side, &Text)>
        ensures key { (names : List MethodName) → AreMethodsOf self.now names
            → option_map (λ k. record { class_name = k.0.now; side = k.1; selector = k.2.now }) result ≡ slice_get names i }
        ensures names { (names : List MethodName) × AreMethodsOf self.now names }
    {
        key_at(&self.keys, i)
    }

    /// The place of the i-th newest version of a method, the newest being that of 0; None past the oldest.
    pub fn version_at(
        &self,
        class_name: &Text,
        side: Side,
        selector: &Text,
        i: usize,
    ) -> Option<u64>
        ensures place { result ≡ slice_get (version_places self.now (record { class_name = class_name.now; side = side; selector = selector.now })) i }
        ensures of { (changes : List Change) → IsHistoryOf self.now changes
            → result ≡ slice_get (list_map (λ p. p.0) (versions_of changes (record { class_name = class_name.now; side = side; selector = selector.now }))) i }
    {
        newest(versions(&self.classes, class_name, side, selector), i)
    }

    /// How many versions a method has.
    pub fn version_count(&self, class_name: &Text, side: Side, selector: &Text) -> usize
        ensures { result ≡ length (version_places self.now (record { class_name = class_name.now; side = side; selector = selector.now })) }
    {
        versions(&self.classes, class_name, side, selector).len()
    }

    /// The places of all versions of a method, the newest first.
    pub fn version_places(
        &self,
        alloc: Global,
        class_name: &Text,
        side: Side,
        selector: &Text,
    ) -> Result<Vec<u64>, OutOfMemory>
        ensures { IfOk result (λ places. places.items ≡ version_places self.now (record { class_name = class_name.now; side = side; selector = selector.now })) }
    {
        newest_first(alloc, versions(&self.classes, class_name, side, selector))
    }
}

/// The room of a change that may stand in a set, and what is noted of it.
fn ready(
    classes: &mut IndexMap<Vec<u8>, ClassTrace>,
    alloc: Global,
    change: &Change,
) -> Result<Option<Noted>, OutOfMemory>
    ensures same { AreAlikeIn classes.old.entries classes.new.entries }
    ensures noted { IfOk result (λ noted. noted ≡ noting 0 change.now) }
    ensures place { IfOk result (λ noted. IfSome noted (HasPlaceIn classes.new.entries)) }
{
    let Some(noted) = noted_of(alloc, change)? else {
        return Ok(None);
    };
    make_place(classes, alloc, &noted)?;
    Ok(Some(noted))
}
