// What the program does with its words.
ghost use Rattle.std.specs.Prelude.{◌≡◌, ◌≢◌, ◌⊎◌, ◌<◌, ◌≤◌, ℕ, List, [], IsTrue, false, None, Some, IfOk, IfErr};
ghost use Rattle.s80_change.specs.declared.change.Change.{Change};
ghost use Rattle.s80_chunk.specs.Chunks.{item_of};
ghost use Rattle.s80_disk.specs.declared.disk.FileId.{FileId};
ghost use Rattle.s80_disk.specs.declared.disk.FileId.TheVariants.{Mark};
ghost use Rattle.s80_mark.specs.Found.{longer_log};
ghost use Rattle.s80_session.specs.Files.{IsAsking};
ghost use Rattle.s80_disk.specs.Moments.{LeavesOnly};
ghost use Rattle.s80_keeper.specs.declared.start.Damage.{Damage};
ghost use Rattle.s80_keeper.specs.Start.{IsDamage};
ghost use Rattle.s80_keeper.specs.Standing.{FilesStandFor};
ghost use Rattle.s80_model.specs.Asked.{Ask};
ghost use Rattle.s80_session.specs.Ending.{Counts, MeetsNoDamage, SourceCounts};
ghost use Rattle.s80_session.specs.Known.{IsKnowing};
ghost use Rattle.s80_session.specs.Putting.{IsAsBefore};
ghost use Rattle.s80_session.specs.Run.{Keeps, ShownFor};
ghost use Rattle.s80_session.specs.Session.{last_run_of, troubled_of, IsResting};
ghost use Rattle.s80_session.specs.Working.{IsAt, IsReadable, StepLeaves};
ghost use Rattle.s80_program.specs.Ending.{IsDiskEnd, IsUnread, NoFault, StatusHasReason, status_after, IsWhole};
ghost use Rattle.s80_program.specs.Leaves.{StartsWith, Leaves, RunLeaves, ItemLeaves, MakeLeaves, MergeLeaves, CommandKeeps, KilledKeeps, AllAsks, IsWithin, PutsFront, Writes, AreDamaged, TellsDamage, beginning};
ghost use Rattle.s80_program.specs.Command.{Command, Options, IsAskingCommand, IsTimedCommand, IsUseful, behind_separators, job_of};
ghost use Rattle.s80_program.specs.Words.{Asks, options_in};
ghost use Rattle.s80_line.specs.Line.{is_number, number_of};
ghost use Rattle.s80_session.specs.Making.{MakeKeeps};
ghost use Rattle.s80_session.specs.Merging.{MergeKeeps};
ghost use Rattle.s80_program.specs.Job.{SuitsJob, shown_job};
ghost use Rattle.s80_program.specs.Task.{command_of};

use crate::outside::attach;
use crate::status::Status;
use crate::words::{DIGITS, MOST, Task, behind_separators, task_of};
use s80_base::{OutOfMemory, Text};
use s80_chunk::{Item, Role};
use s80_disk::Outside;
use s80_joining::merging_has_one_outcome;
use s80_keeper::{damaged_files_stand_for_no_list, undamaged_files_have_no_damage};
use s80_line::{Line, number_in, read_line};
use s80_make::{make_has_one_line, text_item};
use s80_model::{Filed, Query, SessionItem, one_ask};
use s80_session::{Session, SessionEnd};
use std::alloc::Global;

/// Does what the words ask for: the program's name, a folder and a command. `run` keeps each chunk of the input that is a change of classes, a
/// method or a doIt in the folder, on the disk, and then answers it: a doIt with what it wrote and what it comes to, and else by a line.
/// `do TEXT` does so with one text; `classes` names all classes, `browse NAME` shows one, `source SPEC SELECTOR` shows a method and
/// `versions SPEC SELECTOR` all that it has been, `changes` lists the change set, `recover` says how much there is, and `snapshot` writes an image.
/// `file-out`, `file-out-class NAME` and `file-out-set` write all classes, one and the change set as a file that `run` takes. `condense` has a
/// list take the place of the folder's that makes the same classes and methods, and has as many of the newest versions of each method as `--keep`
/// says. `make N` makes N classes, to try the folder at size, and writes one line. `merge` takes the input as a second change set that starts from
/// where the folder's own does, and writes where the two are in conflict, or adds its changes.
pub fn st80<O: Outside>(alloc: Global, words: &[Text], outside: &mut O) -> Status
    // Bad usage is answered exactly where the words ask for nothing, and then the outside isn't called.
    ensures usage { result ≡ Status.Usage
        → ((options : Options) (command : Command) → Asks words.now options command → ⊥) × (outside.new ≡ outside.old) }
    ensures lawful { result ≢ Status.Usage → ((options : Options) × (command : Command) × Asks words.now options command) ⊎ IsUnread result outside.old outside.new }

    // A fault is answered only where its count rose in this call, and every other status only where no count did.
    ensures reason { StatusHasReason (O.faults outside.old) (O.faults outside.new) result }

    // From a disk that stands for a list of changes, the bytes written are the model keeper's replies to the items of the command.
    ensures leaves { (options : Options) (command : Command) (changes : List Change) (input before : List ℕ)
        → Asks words.now options command
        → StartsWith (O.may_leave outside.old) (O.shown outside.old) changes input before
        → Leaves command result (O.may_leave outside.new) (O.shown outside.new) (beginning options (O.shown outside.old).seconds changes) input before
        ⊎ IsUnread result outside.old outside.new }

    // A crash at any moment, inside a write too, leaves files that stand for the list after the first items, and no change is lost that
    // was answered by then.
    ensures any_moment { (options : Options) (command : Command) (changes : List Change) (input before : List ℕ)
        → Asks words.now options command
        → StartsWith (O.may_leave outside.old) (O.shown outside.old) changes input before
        → ShownFor (O.may_leave outside.old) (O.shown outside.old) changes
        → LeavesOnly O.moment O.left_since outside.old outside.new (CommandKeeps command (beginning options (O.shown outside.old).seconds changes) input before) }

    // So it is behind a run that was killed as it committed: its disk reads for the list, and a crash might leave that list or the one before.
    ensures killed { (options : Options) (command : Command) (changes was : List Change) (input before : List ℕ)
        → Asks words.now options command
        → StartsWith (O.may_leave outside.old) (O.shown outside.old) changes input before
        → ((c : FileId → List ℕ) → O.may_leave outside.old c → FilesStandFor c changes ⊎ FilesStandFor c was)
        → LeavesOnly O.moment O.left_since outside.old outside.new (KilledKeeps command (beginning options (O.shown outside.old).seconds changes) was input before) }

    // However it ends, what it wrote is a front of what is written to all that the command asks, if the clock tells its seconds to one that files
    // out.
    ensures front { (options : Options) (command : Command) (changes : List Change) (input before : List ℕ) (asks : List Ask)
        → Asks words.now options command
        → StartsWith (O.may_leave outside.old) (O.shown outside.old) changes input before
        → IsTimedCommand options (O.shown outside.old).seconds command
        → AllAsks command (beginning options (O.shown outside.old).seconds changes) input asks
        → (bytes : List ℕ) → Writes command (beginning options (O.shown outside.old).seconds changes) input asks bytes
        → PutsFront (O.shown outside.new).taken before bytes }

    // With no fault and an input within the limit it comes to the end, or is out of memory.
    ensures complete { (options : Options) (command : Command) (changes : List Change) (input before : List ℕ)
        → Asks words.now options command
        → StartsWith (O.may_leave outside.old) (O.shown outside.old) changes input before
        → IsWithin command input
        → NoFault (O.faults outside.old) (O.faults outside.new)
        → IsWhole result }

    // A command that asks for something changes no file, but that logs which are empty get their first mark.
    ensures asked { (options : Options) (command : Command) → Asks words.now options command → IsAskingCommand command
        → (file : FileId) → file ≢ Mark → (O.shown outside.new).files file ≡ (O.shown outside.old).files file }
    ensures marked { (options : Options) (command : Command) → Asks words.now options command → IsAskingCommand command
        → IsTrue (O.shown outside.old).tells → 0 < longer_log (O.shown outside.old).files
        → (file : FileId) → (O.shown outside.new).files file ≡ (O.shown outside.old).files file }

    // Damage is answered only where the files have one, or stand for no list by an image that isn't the log's. Where they have one nothing that
    // is shown changes, and a crash at any moment leaves what it might have left before.
    ensures found { result ≡ Status.Damaged → IsTrue (O.shown outside.old).tells → AreDamaged (O.shown outside.old).files }
    ensures damaged { (options : Options) (command : Command) (damage : Damage) → Asks words.now options command
        → IsTrue (O.shown outside.old).tells → IsDamage (O.shown outside.old).files damage
        → TellsDamage result × (O.shown outside.new ≡ O.shown outside.old)
        × LeavesOnly O.moment O.left_since outside.old outside.new (IsAsBefore (O.may_leave outside.old) (O.shown outside.old).told 0) }
{
    one_ask();
    make_has_one_line();
    merging_has_one_outcome();
    let Ok(line) = read_line(alloc, words) else {
        return Status::OutOfMemory;
    };
    let Some(line) = line else {
        return Status::Usage;
    };
    match task_of(&line.command, line.arguments.as_slice()) {
        Some(task) => status_of(work(alloc, &line, task, outside)),
        None => Status::Usage,
    }
}

/// Does a task in a folder. Says whether some item was refused or stopped.
fn work<O: Outside>(
    alloc: Global,
    line: &Line,
    task: Task<'_>,
    outside: &mut O,
) -> Result<bool, SessionEnd>
    requires useful { IsUseful (command_of task) }
    requires keep { 1 ≤ line.now.keep }
    ensures worked { (changes : List Change) (input before : List ℕ)
        → StartsWith (O.may_leave outside.old) (O.shown outside.old) changes input before
        → Leaves (command_of task.entry) (status_after result) (O.may_leave outside.new) (O.shown outside.new) (beginning (options_in line.now) (O.shown outside.old).seconds changes) input before }
    ensures any_moment { (changes : List Change) (input before : List ℕ)
        → StartsWith (O.may_leave outside.old) (O.shown outside.old) changes input before
        → ShownFor (O.may_leave outside.old) (O.shown outside.old) changes
        → LeavesOnly O.moment O.left_since outside.old outside.new (CommandKeeps (command_of task.entry) (beginning (options_in line.now) (O.shown outside.old).seconds changes) input before) }
    ensures killed { (changes was : List Change) (input before : List ℕ)
        → StartsWith (O.may_leave outside.old) (O.shown outside.old) changes input before
        → ((c : FileId → List ℕ) → O.may_leave outside.old c → FilesStandFor c changes ⊎ FilesStandFor c was)
        → LeavesOnly O.moment O.left_since outside.old outside.new (KilledKeeps (command_of task.entry) (beginning (options_in line.now) (O.shown outside.old).seconds changes) was input before) }
    ensures asked { IsAskingCommand (command_of task.entry)
        → (file : FileId) → file ≢ Mark → (O.shown outside.new).files file ≡ (O.shown outside.old).files file }
    ensures marked { IsAskingCommand (command_of task.entry) → IsTrue (O.shown outside.old).tells → 0 < longer_log (O.shown outside.old).files
        → (file : FileId) → (O.shown outside.new).files file ≡ (O.shown outside.old).files file }
    ensures found { status_after result ≡ Status.Damaged → IsTrue (O.shown outside.old).tells → AreDamaged (O.shown outside.old).files }
    ensures damaged { (damage : Damage) → IsTrue (O.shown outside.old).tells → IsDamage (O.shown outside.old).files damage
        → TellsDamage (status_after result) × (O.shown outside.new ≡ O.shown outside.old)
        × LeavesOnly O.moment O.left_since outside.old outside.new (IsAsBefore (O.may_leave outside.old) (O.shown outside.old).told 0) }
    ensures reason { StatusHasReason (O.faults outside.old) (O.faults outside.new) (status_after result) }
    ensures useful { status_after result ≢ Status.Usage }
{
    damaged_files_stand_for_no_list();
    undamaged_files_have_no_damage();
    open_folder(outside, &line.folder)?;
    let mut session = Session::start(alloc, outside, line.budget, line.keep)?;
    do_task(&mut session, alloc, task, outside)
}

/// Chooses the folder.
fn open_folder<O: Outside>(outside: &mut O, folder: &Text) -> Result<(), SessionEnd>
    ensures shown { O.shown outside.new ≡ O.shown outside.old }
    ensures counts { Counts (O.faults outside.old) (O.faults outside.new) result }
    ensures disk { IfErr result IsDiskEnd }
    ensures images { (c : FileId → List ℕ) → O.may_leave outside.new c → O.may_leave outside.old c }
    ensures any_moment { LeavesOnly O.moment O.left_since outside.old outside.new
        (IsAsBefore (O.may_leave outside.old) (O.shown outside.old).told 0) }
{
    attach(outside, folder).map_err(SessionEnd::Disk)?;
    Ok(())
}

/// Does a task in a session that has begun.
fn do_task<O: Outside>(
    session: &mut Session,
    alloc: Global,
    task: Task<'_>,
    outside: &mut O,
) -> Result<bool, SessionEnd>
    requires resting { IsResting session.old }
    requires useful { IsUseful (command_of task) }
    ensures worked { (options : Options) (changes : List Change) (input before : List ℕ) → (O.shown outside.old).left ≡ Some input
        → troubled_of session.old ≡ false → last_run_of session.old ≡ None
        → IsAt (O.may_leave outside.old) (O.shown outside.old) session.old (beginning options (O.shown outside.old).seconds changes) before
        → Leaves (command_of task.entry) (status_after result) (O.may_leave outside.new) (O.shown outside.new) (beginning options (O.shown outside.old).seconds changes) input before }
    ensures any_moment { (options : Options) (changes : List Change) (input before : List ℕ) → (O.shown outside.old).left ≡ Some input
        → IsAt (O.may_leave outside.old) (O.shown outside.old) session.old (beginning options (O.shown outside.old).seconds changes) before
        → LeavesOnly O.moment O.left_since outside.old outside.new (CommandKeeps (command_of task.entry) (beginning options (O.shown outside.old).seconds changes) input before) }
    ensures asked { IsAskingCommand (command_of task.entry) → (file : FileId) → (O.shown outside.new).files file ≡ (O.shown outside.old).files file }
    ensures sound { IsTrue (O.shown outside.old).tells → IsKnowing (O.shown outside.old) session.old → MeetsNoDamage result }
    ensures counts { SourceCounts (O.faults outside.old) (O.faults outside.new) result }
{
    match job_of(alloc, task)? {
        Job::Takes => run_input(session, alloc, outside),
        Job::Merges => merge_input(session, alloc, outside),
        Job::Works(item) => answer_item(session, alloc, item, outside),
        Job::Makes(classes) => make_classes(session, alloc, classes, outside),
    }
}

/// What a task works.
enum Job {
    /// The items of the input.
    Takes,
    /// The items of the input, as a second change set.
    Merges,
    /// One item.
    Works(SessionItem),
    /// The items of so many classes.
    Makes(u32),
}

/// What a task works.
fn job_of(alloc: Global, task: Task<'_>) -> Result<Job, OutOfMemory>
    requires { IsUseful (command_of task) }
    ensures job { IfOk result (λ job. shown_job job ≡ job_of (command_of task.entry)) }
    ensures suits { IfOk result SuitsJob }
{
    let query = match task {
        Task::Run => return Ok(Job::Takes),
        Task::Merge => return Ok(Job::Merges),
        Task::Do(text) => return Ok(Job::Works(SessionItem::Chunk(chunk_of(alloc, text)?))),
        Task::Make(count) => return Ok(Job::Makes(count_of(count))),
        Task::Recover => Query::Recover,
        Task::Classes => Query::Classes,
        Task::Browse(name) => Query::Browse(name.copy(alloc)?),
        Task::Source(spec, selector) => Query::Source(spec.copy(alloc)?, selector.copy(alloc)?),
        Task::Versions(spec, selector) => Query::Versions(spec.copy(alloc)?, selector.copy(alloc)?),
        Task::Changes => Query::Changes,
        Task::FileOut => Query::FileOut(Filed::All),
        Task::FileOutClass(name) => Query::FileOut(Filed::Class(name.copy(alloc)?)),
        Task::FileOutSet => Query::FileOut(Filed::Set),
        Task::Senders(selector) => Query::Senders(selector.copy(alloc)?),
        Task::Implementors(selector) => Query::Implementors(selector.copy(alloc)?),
        Task::References(name) => Query::References(name.copy(alloc)?),
        Task::Undeclared => Query::Undeclared,
        Task::Unimplemented => Query::Unimplemented,
        Task::Unsent => Query::Unsent,
        Task::Snapshot => Query::Snapshot,
        Task::Condense => Query::Condense,
    };
    Ok(Job::Works(SessionItem::Query(query)))
}

/// The number of classes that a word writes.
fn count_of(word: &Text) -> u32
    requires { IsTrue (is_number 4 1000 word.now) }
    ensures number { result ≡ number_of word.now }
    ensures bounded { result ≤ 1000 }
{
    number_in(word.bytes(), DIGITS, MOST).unwrap() as u32
}

/// The plain chunk of what stands behind a text's separators.
fn chunk_of(alloc: Global, text: &Text) -> Result<Item, OutOfMemory>
    requires { behind_separators text.now ≢ [] }
    ensures item { IfOk result (λ item. item ≡ item_of Role.Plain (behind_separators text.now)) }
    ensures readable { IfOk result (λ item. IsReadable (SessionItem.Chunk item)) }
{
    let behind = Text::from_bytes(alloc, behind_separators(text))?;
    Ok(text_item(Role::Plain, behind))
}

/// Works the input to its end. Says whether some item was refused or stopped.
fn run_input<O: Outside>(
    session: &mut Session,
    alloc: Global,
    outside: &mut O,
) -> Result<bool, SessionEnd>
    requires resting { IsResting session.old }
    ensures worked { (options : Options) (changes : List Change) (input before : List ℕ) → (O.shown outside.old).left ≡ Some input
        → troubled_of session.old ≡ false → last_run_of session.old ≡ None
        → IsAt (O.may_leave outside.old) (O.shown outside.old) session.old (beginning options (O.shown outside.old).seconds changes) before
        → RunLeaves (status_after result) (O.may_leave outside.new) (O.shown outside.new) (beginning options (O.shown outside.old).seconds changes) input before }
    ensures any_moment { (options : Options) (changes : List Change) (input before : List ℕ) → (O.shown outside.old).left ≡ Some input
        → IsAt (O.may_leave outside.old) (O.shown outside.old) session.old (beginning options (O.shown outside.old).seconds changes) before
        → LeavesOnly O.moment O.left_since outside.old outside.new (Keeps (beginning options (O.shown outside.old).seconds changes) input before) }
    ensures sound { IsTrue (O.shown outside.old).tells → IsKnowing (O.shown outside.old) session.old → MeetsNoDamage result }
    ensures counts { SourceCounts (O.faults outside.old) (O.faults outside.new) result }
{
    session.run_items(alloc, outside)?;
    Ok(session.troubled())
}

/// Merges the input, a second change set. Says whether something was refused, or there are conflicts.
fn merge_input<O: Outside>(
    session: &mut Session,
    alloc: Global,
    outside: &mut O,
) -> Result<bool, SessionEnd>
    requires resting { IsResting session.old }
    ensures worked { (options : Options) (changes : List Change) (input before : List ℕ) → (O.shown outside.old).left ≡ Some input → troubled_of session.old ≡ false
        → IsAt (O.may_leave outside.old) (O.shown outside.old) session.old (beginning options (O.shown outside.old).seconds changes) before
        → MergeLeaves (status_after result) (O.may_leave outside.new) (O.shown outside.new) (beginning options (O.shown outside.old).seconds changes) input before }
    ensures any_moment { (options : Options) (changes : List Change) (input before : List ℕ) → (O.shown outside.old).left ≡ Some input
        → IsAt (O.may_leave outside.old) (O.shown outside.old) session.old (beginning options (O.shown outside.old).seconds changes) before
        → LeavesOnly O.moment O.left_since outside.old outside.new (MergeKeeps (beginning options (O.shown outside.old).seconds changes) input before) }
    ensures sound { IsTrue (O.shown outside.old).tells → IsKnowing (O.shown outside.old) session.old → MeetsNoDamage result }
    ensures counts { SourceCounts (O.faults outside.old) (O.faults outside.new) result }
{
    session.merge(alloc, outside)?;
    Ok(session.troubled())
}

/// Works and answers one item. Says whether it was refused or stopped.
fn answer_item<O: Outside>(
    session: &mut Session,
    alloc: Global,
    item: SessionItem,
    outside: &mut O,
) -> Result<bool, SessionEnd>
    requires resting { IsResting session.old }
    requires readable { IsReadable item }
    ensures worked { (options : Options) (changes : List Change) (before : List ℕ) → troubled_of session.old ≡ false
        → IsAt (O.may_leave outside.old) (O.shown outside.old) session.old (beginning options (O.shown outside.old).seconds changes) before
        → ItemLeaves (status_after result) (O.may_leave outside.new) (O.shown outside.new) (beginning options (O.shown outside.old).seconds changes) item before }
    ensures any_moment { (options : Options) (changes : List Change) (before : List ℕ)
        → IsAt (O.may_leave outside.old) (O.shown outside.old) session.old (beginning options (O.shown outside.old).seconds changes) before
        → LeavesOnly O.moment O.left_since outside.old outside.new (StepLeaves (beginning options (O.shown outside.old).seconds changes) before item) }
    ensures asked { IsAsking item → (file : FileId) → (O.shown outside.new).files file ≡ (O.shown outside.old).files file }
    ensures left { (O.shown outside.new).left ≡ (O.shown outside.old).left }
    ensures sound { IsTrue (O.shown outside.old).tells → IsKnowing (O.shown outside.old) session.old → MeetsNoDamage result }
    ensures counts { SourceCounts (O.faults outside.old) (O.faults outside.new) result }
{
    session.step(alloc, item, outside)?;
    Ok(session.troubled())
}

/// Makes so many classes, and writes a line. Says whether something was refused or stopped.
fn make_classes<O: Outside>(
    session: &mut Session,
    alloc: Global,
    classes: u32,
    outside: &mut O,
) -> Result<bool, SessionEnd>
    requires resting { IsResting session.old }
    requires classes { classes ≤ 1000 }
    ensures worked { (options : Options) (changes : List Change) (before : List ℕ) → troubled_of session.old ≡ false → last_run_of session.old ≡ None
        → IsAt (O.may_leave outside.old) (O.shown outside.old) session.old (beginning options (O.shown outside.old).seconds changes) before
        → MakeLeaves (status_after result) (O.may_leave outside.new) (O.shown outside.new) (beginning options (O.shown outside.old).seconds changes) classes before }
    ensures any_moment { (options : Options) (changes : List Change) (before : List ℕ)
        → IsAt (O.may_leave outside.old) (O.shown outside.old) session.old (beginning options (O.shown outside.old).seconds changes) before
        → LeavesOnly O.moment O.left_since outside.old outside.new (MakeKeeps (beginning options (O.shown outside.old).seconds changes) classes before) }
    ensures left { (O.shown outside.new).left ≡ (O.shown outside.old).left }
    ensures sound { IsTrue (O.shown outside.old).tells → IsKnowing (O.shown outside.old) session.old → MeetsNoDamage result }
    ensures counts { SourceCounts (O.faults outside.old) (O.faults outside.new) result }
{
    session.make(alloc, classes, outside)?;
    Ok(session.troubled())
}

/// The status of work that ended so.
fn status_of(ended: Result<bool, SessionEnd>) -> Status
    ensures { result ≡ status_after ended }
{
    match ended {
        Ok(false) => Status::Done,
        Ok(true) => Status::DoneWithRefusals,
        Err(SessionEnd::Memory) => Status::OutOfMemory,
        Err(SessionEnd::Read(_)) => Status::ReadFault,
        Err(SessionEnd::Write(_)) => Status::WriteFault,
        Err(SessionEnd::Disk(_)) => Status::DiskFault,
        Err(SessionEnd::Damaged(_)) => Status::Damaged,
        Err(SessionEnd::TooLong) => Status::InputTooLong,
    }
}
