// Laws of condensed lists, and of files of changes.
ghost use Rattle.std.specs.Prelude.{◌≡◌, ◌≤◌, ◌++◌, ℕ, All, List, [], ◌∷◌, Some, map as list_map, take};
ghost use Rattle.std.specs.FinMap as map;
ghost use Rattle.std.specs.List.{flat_map};
ghost use Rattle.s80_form.specs.declared.form.Form.TheVariants.{NoChanges};
ghost use Rattle.s80_change.specs.declared.change.Change.{Change};
ghost use Rattle.s80_change.specs.declared.change.Change.TheVariants.{Form};
ghost use Rattle.s80_change.specs.Block.{IsLawful};
ghost use Rattle.s80_history.specs.Lists.{MethodName, set_of, versions_of};
ghost use Rattle.s80_apply.specs.List.{AreAccepted, IsBuilt, state_of};
ghost use Rattle.s80_apply.specs.State.{MethodRow, State, kernel_state};
ghost use Rattle.s80_fileout.specs.Condensed.{canon, filed, kept, kernel_part, own_part};
ghost use Rattle.s80_fileout.specs.FileText.{IsFile, IsFileAt};
ghost use Rattle.s80_fileout.specs.Items.{IsReadAs, IsShort};
ghost use Rattle.s80_fileout.specs.Lawful.{AreLawfulClasses, MakesClasses};
ghost use Rattle.s80_fileout.specs.Moment.{IsMoment};
ghost use Rattle.s80_fileout.specs.Order.{all_methods, kernel_class, of_listed, own_class, own_names};

use s80_apply::kernel_sources_fit;
use s80_change::sources_have_selectors;

/// The shortest list that makes the state of a list is accepted, change by change, makes that state again, and leaves no change set. It is lawful
/// where the list was.
pub fn the_shortest_list_folds_back()
    ensures accepted { (changes : List Change) → AreAccepted kernel_state (canon (state_of changes)) }
    ensures state { (changes : List Change) → state_of (canon (state_of changes)) ≡ state_of changes }
    ensures set { (changes : List Change) → set_of (canon (state_of changes)) ≡ [] }
    ensures lawful { (changes : List Change) → All IsLawful changes → All IsLawful (canon (state_of changes)) }
{
    sources_have_selectors();
    kernel_sources_fit();
}

/// So is the list that keeps versions of the methods, at least one of each; and those that it keeps are the newest.
pub fn the_list_with_versions_folds_back()
    ensures accepted { (count : ℕ) (changes : List Change) → 1 ≤ count → IsBuilt changes → AreAccepted kernel_state (kept changes count) }
    ensures state { (count : ℕ) (changes : List Change) → 1 ≤ count → IsBuilt changes → state_of (kept changes count) ≡ state_of changes }
    ensures set { (count : ℕ) (changes : List Change) → set_of (kept changes count) ≡ [] }
    ensures versions { (count : ℕ) (changes : List Change) (name : MethodName) (row : MethodRow)
        → map.get ((state_of changes).methods name.class_name name.side) name.selector ≡ Some row
        → list_map (λ p. p.1) (versions_of (kept changes count) name) ≡ take count (list_map (λ p. p.1) (versions_of changes name)) }
    ensures lawful { (count : ℕ) (changes : List Change) → 1 ≤ count → IsBuilt changes → All IsLawful changes → All IsLawful (kept changes count) }
{
    sources_have_selectors();
    kernel_sources_fit();
}

/// That list is what makes the classes, then for each method in order what it keeps of it, and the beginning of the change set.
pub fn the_list_with_versions_is_made_in_order()
    ensures { (count : ℕ) (changes : List Change) → kept changes count
        ≡ kernel_part (state_of changes) ++ own_part (state_of changes) ++ flat_map (of_listed count changes) (all_methods (state_of changes)) ++ Form NoChanges ∷ [] }
{}

/// What a file of all classes has is accepted too, change by change, and makes the state of the list. It is lawful where the list was.
pub fn a_file_of_all_classes_folds_back()
    ensures accepted { (changes : List Change) → AreAccepted kernel_state (filed (state_of changes)) }
    ensures state { (changes : List Change) → state_of (filed (state_of changes)) ≡ state_of changes }
    ensures lawful { (changes : List Change) → All IsLawful changes → All IsLawful (filed (state_of changes)) }
{
    sources_have_selectors();
    kernel_sources_fit();
}

/// A file of lawful changes, none of whose texts is too long for a chunk, is read as its first line and then as these changes, the methods in
/// the sections that they share, and nothing else is read.
pub fn a_file_is_read_again()
    ensures { (changes : List Change) (seconds : ℕ) (moment text : List ℕ) → All IsLawful changes → All IsShort changes
        → IsFileAt changes seconds moment text → IsReadAs text moment changes }
{}

/// A second has one moment, so that the changes that are filed out in it have one file.
pub fn there_is_one_moment()
    ensures moment { (seconds : ℕ) (one other : List ℕ) → IsMoment seconds one → IsMoment seconds other → other ≡ one }
    ensures file { (changes : List Change) (seconds : ℕ) (one other : List ℕ) → IsFile changes seconds one → IsFile changes seconds other → other ≡ one }
{}

/// Classes that are lawful are made of the kernel's, whatever methods a state has: what makes them is accepted, and leaves of the kernel's methods those at
/// whose places the state has some.
pub fn lawful_classes_are_made()
    ensures { (state : State) → AreLawfulClasses state.classes → MakesClasses state }
{}

/// They are made class by class: those of the kernel in byte order of their names, and then those of one's own, each behind its superclass.
pub fn classes_are_made_in_order()
    ensures kernel { (state : State) → kernel_part state ≡ flat_map (kernel_class state) (map.keys state.classes) }
    ensures own { (state : State) → own_part state ≡ flat_map (own_class state.classes) (own_names state.classes) }
{}
