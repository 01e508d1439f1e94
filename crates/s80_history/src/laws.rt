// Laws of histories, as calls.
ghost use Rattle.std.specs.Prelude.{◌≡◌, List};
ghost use Rattle.s80_change.specs.declared.change.Change.{Change};
ghost use Rattle.s80_history.specs.History.{HistoryState, IsHistoryOf, version_places};
ghost use Rattle.s80_history.specs.Lists.{MethodName};

/// A history that is built again with the members and the places of another is that of the same list, and is noted on as the other is.
pub fn a_history_is_its_members_and_places()
    ensures { (old new : HistoryState) (changes : List Change) → new.members ≡ old.members → ((name : MethodName) → version_places new name ≡ version_places old name)
        → IsHistoryOf old changes → IsHistoryOf new changes }
{}
