// Laws of filing in.
ghost use Rattle.std.specs.Prelude.{◌≡◌, ◌++◌, ℕ, All, List, [], map as list_map};
ghost use Rattle.s80_change.specs.declared.change.Change.{Change};
ghost use Rattle.s80_change.specs.Block.{blocks, IsList};
ghost use Rattle.s80_history.specs.Lists.{set_of};
ghost use Rattle.s80_apply.specs.List.{state_from, state_of, IsBuilt};
ghost use Rattle.s80_model.specs.declared.item.Filed.TheVariants.{All as AllClasses, Set};
ghost use Rattle.s80_model.specs.Asked.{files};
ghost use Rattle.s80_model.specs.Settings.{Settings};
ghost use Rattle.s80_model.specs.declared.section.Section.TheVariants.{Top};
ghost use Rattle.s80_model.specs.Replies.{Work, begun, reply_text, reply_to};
ghost use Rattle.s80_fileout.specs.Condensed.{filed};
ghost use Rattle.s80_fileout.specs.FileText.{IsFileAt};
ghost use Rattle.s80_fileout.specs.Items.{IsShort};
ghost use Rattle.s80_fileout.specs.Moment.{IsMoment};
ghost use Rattle.s80_filing.specs.Filing.{BeginsSet, BytesLeadTo, CanFile, FilesIn, FitsAgain, HasRoom, headed};

use s80_chunk::one_reading;
use s80_fileout::{a_file_is_read_again, a_file_of_all_classes_folds_back};
use s80_model::one_ask;

/// A file of changes that a list accepts, worked from the top level behind that list, leads to the list with the doIt of the file's first line and
/// then these changes, whatever that doIt is told; and so to the state that they make of the list's.
pub fn a_file_is_filed_in()
    ensures list { (work : Work) (changes : List Change) (seconds : ℕ) (moment text : List ℕ) → work.section ≡ Top
        → IsFileAt changes seconds moment text → CanFile (headed work.changes moment) changes
        → BytesLeadTo work text (headed work.changes moment ++ changes) }
    ensures state { (list changes : List Change) (moment : List ℕ) → state_of (headed list moment ++ changes) ≡ state_from (state_of list) changes }
{
    one_reading();
    a_file_is_read_again();
    one_ask();
}

/// What is filed out of all classes and filed in behind an empty list makes these classes again.
pub fn all_classes_file_in()
    ensures { (work : Work) (settings : Settings) (seconds : ℕ) (moment : List ℕ) → IsList work.changes → IsMoment seconds moment
        → HasRoom [] (filed (state_of work.changes)) moment
        → FilesIn (begun settings []) (reply_text (reply_to work (files AllClasses moment))) (state_of work.changes) }
{
    one_reading();
    a_file_is_read_again();
    a_file_of_all_classes_folds_back();
    one_ask();
}

/// What is filed out of a change set and filed in behind the list before the set makes the classes and methods of the whole list.
pub fn a_change_set_files_in()
    ensures { (work : Work) (settings : Settings) (before set : List Change) (seconds : ℕ) (moment : List ℕ) → work.changes ≡ before ++ set → BeginsSet before set
        → IsBuilt work.changes → IsList work.changes → IsMoment seconds moment
        → HasRoom before (list_map (λ p. p.1) (set_of work.changes)) moment
        → FilesIn (begun settings before) (reply_text (reply_to work (files Set moment))) (state_of work.changes) }
{
    one_reading();
    a_file_is_read_again();
    one_ask();
}

/// A log files in to itself: the bytes of a list's blocks, worked behind an empty list, lead to that list, if no text is too long for a chunk,
/// its doIts fit a machine, and none asks to condense.
pub fn a_log_files_in()
    ensures { (settings : Settings) (changes : List Change) → IsBuilt changes → IsList changes → All IsShort changes → All FitsAgain changes
        → BytesLeadTo (begun settings []) (blocks changes) changes }
{
    one_reading();
    one_ask();
}
