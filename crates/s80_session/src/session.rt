// A session works items: it keeps what they change, and answers them.
ghost use Rattle.std.specs.Prelude.{◌≡◌, ◌≢◌, ◌⊎◌, ◌||◌, ◌<◌, ◌≤◌, ℕ, false, List, [], ◌++◌, length, option_map, Some, Ok, IsTrue, IfErr, IfOk, OnErr, OnOk};
ghost use Rattle.s80_apply.specs.List.{IsBuilt};
ghost use Rattle.s80_change.specs.declared.change.Change.{Change};
ghost use Rattle.s80_chunk.specs.declared.item.Item.TheVariants as items;
ghost use Rattle.s80_disk.specs.declared.disk.FileId.{FileId};
ghost use Rattle.s80_disk.specs.declared.disk.FileId.TheVariants.{Mark};
ghost use Rattle.s80_disk.specs.Moments.{LeavesOnly};
ghost use Rattle.s80_mark.specs.Found.{longer_log};
ghost use Rattle.s80_log.specs.Log.{log_file};
ghost use Rattle.s80_keeper.specs.Keeper.{pending_of, Knows};
ghost use Rattle.s80_keeper.specs.Standing.{FilesStandFor, LeavesEither, ReadsFor};
ghost use Rattle.s80_keeper.specs.Start.{StartLeaves};
ghost use Rattle.s80_model.specs.Asked.{adds, condenses, snapshot_note, Asks};
ghost use Rattle.s80_model.specs.Replies.{is_trouble, reply_text, Work};
ghost use Rattle.s80_model.specs.Section.{section_or, IsBriefSection};
ghost use Rattle.s80_model.specs.Settings.{Settings};
ghost use Rattle.s80_session.specs.Ending.{Counts, CountsFor, MeetsNoDamage, NoFewer, OnOkOrMemory, StartsForReason};
ghost use Rattle.s80_session.specs.Files.{AsksSnapshot, IsAsking, IsAsLeft, IsElsewhere, IsOther, IsUnwritten, LogAfter};
ghost use Rattle.s80_session.specs.FiledIn.{PutsFile};
ghost use Rattle.s80_session.specs.Known.{IsFed, IsKnowing, IsLawfulAnywhere, StaysKnowing};
ghost use Rattle.s80_session.specs.Putting.{IsAsBefore};
ghost use Rattle.s80_session.specs.Replies.{HasRoom, HasRoomFor, LacksRoom};
ghost use Rattle.s80_session.specs.Run.{HasKept, ShownFor};

use crate::end::SessionEnd;
use crate::outside::{commit, keep_later, put_all, snapshot, start_keeper};
use crate::replies::Replies;
use crate::reply::{ACCEPTED, refusal_at_fault, refusal_line, reply_to_keeping};
use s80_apply::{accepted_forms_are_lawful, classes_are_named};
use s80_base::{OutOfMemory, Text};
use s80_change::{Change, Source};
use s80_chunk::{Item, LONGEST, Role};
use s80_disk::Outside;
use s80_doit::{answer as answer_of, compile, evaluate, is_stopped};
use s80_filing::{a_change_set_files_in, all_classes_file_in};
use s80_form::{FitWord, Refusal, Refused};
use s80_keeper::Keeper;
use s80_machine::Ran;
use s80_model::{
    Answer, Plain, Reply, Section, SessionItem, head_answer, method_of, plain_of, too_long_answer,
};
use s80_syntax::MethodTree;
use s80_verify::Verified;
use std::alloc::Global;
use std::num::NonZeroU32;

/// A session at work on a folder.
#[derive(Debug, Drop)]
pub struct Session {
    pub(crate) keeper: Keeper,
    /// The section in which the next item stands.
    pub(crate) section: Section,
    /// Whether some item was refused or stopped.
    pub(crate) troubled: bool,
    /// How many ticks a doIt may take.
    pub(crate) budget: u64,
    /// How many of the newest versions of each method a condensed list keeps.
    pub(crate) kept_versions: NonZeroU32,
    /// The run of the doIt that was evaluated last.
    pub(crate) last_run: Option<Ran>,
    /// The replies to items whose changes aren't committed yet.
    pub(crate) held: Replies,
}

impl Session {
    ghost use Rattle.s80_form.specs.Form.{IsEvaluatedText};
    ghost use Rattle.s80_chunk.specs.Chunks.{IsChunkText, longest};
    ghost use Rattle.s80_doit.specs.DoIt.{IsDoItCode, IsMethodOfDoIt};
    ghost use Rattle.s80_session.specs.Ending.{IsDiskEnd, IsFlushEnd, IsKeepEnd, IsWorkEnd, IsWriteEnd};
    ghost use Rattle.s80_session.specs.Session.{budget_of, held_of, keeper_of, last_run_of, room_of, section_of, troubled_of, was_of, HasBegun, HasMarked, HasSameRest, IsFaultless, IsResting, RunAfter, RunAfterText, RunAfterWork, TakesHeld, TroubleAfter, TroubleWhile};
    ghost use Rattle.s80_session.specs.Working.{at_rest, Answers, Committed, CommitLeaves, EndsForMemory, Evaluates, Flushed, FlushLeaves, Ground, HeldPut, IsAmid, IsAt, IsGrouped, IsLawfulFor, IsReadable, IsSessionStart, ItemWorked, Kept, Replied, Starts, Stepped, StepLeaves, Worked, WorkedAlone, WorkLeaves};

    /// A session on the folder that was attached, at the top level of its input. A doIt may take at most `budget` ticks, and a condensed list
    /// keeps the `keep` newest versions of each method.
    pub fn start<O: Outside>(
        alloc: Global,
        outside: &mut O,
        budget: u64,
        keep: u32,
    ) -> Result<Session, SessionEnd>
        requires keep { 1 ≤ keep }
        ensures answer { IsTrue (O.shown outside.old).tells → IsSessionStart (O.shown outside.old).files result }
        ensures started { (settings : Settings) (changes : List Change) (put : List ℕ) → settings.budget ≡ budget
            → settings.kept_versions ≡ keep → settings.moment ≡ (O.shown outside.old).seconds
            → ReadsFor (O.shown outside.old).tells (O.shown outside.old).files (O.may_leave outside.old) changes
            → (O.shown outside.old).taken ≡ Some put → (O.shown outside.old).told ≡ length put
            → Starts result (O.may_leave outside.new) (O.shown outside.new) settings changes put }
        ensures any_moment { (changes : List Change)
            → ShownFor (O.may_leave outside.old) (O.shown outside.old) changes
            → LeavesOnly O.moment O.left_since outside.old outside.new (HasKept changes (O.shown outside.old).told) }
        // Also where a run that was killed left the disk so that it reads for the list, and a crash might leave that or another.
        ensures killed { (changes was : List Change)
            → ReadsFor (O.shown outside.old).tells (O.shown outside.old).files (O.may_leave outside.old) changes
            → ((c : FileId → List ℕ) → O.may_leave outside.old c → FilesStandFor c changes ⊎ FilesStandFor c was)
            → LeavesOnly O.moment O.left_since outside.old outside.new (LeavesEither (O.shown outside.old).told changes was) }
        // Also where the files are damaged: only of logs that read empty a crash may leave more than before, and then empty ones.
        ensures leaves { IsTrue (O.shown outside.old).tells → LeavesOnly O.moment O.left_since outside.old outside.new
            (StartLeaves (O.shown outside.old).files (O.may_leave outside.old) (O.shown outside.old).told) }
        ensures untouched { IsTrue (O.shown outside.old).tells → 0 < longer_log (O.shown outside.old).files
            → (file : FileId) → (O.shown outside.new).files file ≡ (O.shown outside.old).files file }
        ensures others { (other : FileId) → other ≢ Mark → (O.shown outside.new).files other ≡ (O.shown outside.old).files other }
        ensures shown { O.shown outside.new ≡ record (O.shown outside.old) { files = (O.shown outside.new).files } }
        ensures resting { IfOk result IsResting }
        ensures untroubled { IfOk result (λ session. troubled_of session ≡ false) }
        ensures begun { IfOk result (HasBegun budget keep) }
        // Where the files stand for a list; they need not where the image that they name is of none.
        ensures known { (changes : List Change) → FilesStandFor (O.shown outside.old).files changes → IfOk result (IsKnowing (O.shown outside.new)) }
        ensures later { NoFewer (O.faults outside.old) (O.faults outside.new) }
        ensures reason { StartsForReason (O.faults outside.old) (O.faults outside.new) result }
    {
        let keeper = start_keeper(alloc, outside)?;
        Ok(Session {
            keeper,
            section: Section::Top,
            troubled: false,
            budget,
            kept_versions: NonZeroU32::new(keep).unwrap(),
            last_run: None,
            held: Replies::none(alloc),
        })
    }

    /// Whether some item was refused or stopped.
    pub fn troubled(&self) -> bool
        ensures { result ≡ troubled_of self.now }
    {
        self.troubled
    }

    /// The run of the doIt that this session evaluated last, if it has evaluated one.
    pub fn last_run(&self) -> Option<&Ran>
        ensures { option_map (λ ran. ran.now) result ≡ last_run_of self.now }
    {
        self.last_run.as_ref()
    }

    /// Works and answers one item.
    pub fn step<O: Outside>(
        &mut self,
        alloc: Global,
        item: SessionItem,
        outside: &mut O,
    ) -> Result<(), SessionEnd>
        requires resting { IsResting self.old }
        ensures stepped { (work : Work) (put : List ℕ) → IsReadable item
            → IsAt (O.may_leave outside.old) (O.shown outside.old) self.old work put
            → Stepped result (O.may_leave outside.new) (O.shown outside.new) self.new (was_of self.old) work put item }
        ensures any_moment { (work : Work) (put : List ℕ) → IsReadable item
            → IsAt (O.may_leave outside.old) (O.shown outside.old) self.old work put
            → LeavesOnly O.moment O.left_since outside.old outside.new (StepLeaves work put item) }
        // What it files out of all classes, and of the change set, files in again.
        ensures files_in { (work : Work) (put : List ℕ) → IsReadable item
            → IsAt (O.may_leave outside.old) (O.shown outside.old) self.old work put
            → OnOk result (PutsFile work item put (O.shown outside.new).taken) }
        // Whatever the disk stands for, files that the item doesn't write stay, in what is read and at any moment.
        ensures others { (other : FileId) → IsUnwritten item (keeper_of self.old).log.number other → (O.shown outside.new).files other ≡ (O.shown outside.old).files other }
        ensures elsewhere { LeavesOnly O.moment O.left_since outside.old outside.new (IsElsewhere (O.may_leave outside.old) (IsUnwritten item (keeper_of self.old).log.number)) }
        // A query changes no file, and at any moment a crash leaves what it might have left before.
        ensures asked { IsAsking item → (file : FileId) → (O.shown outside.new).files file ≡ (O.shown outside.old).files file }
        ensures images { IsAsking item → (c : FileId → List ℕ) → O.may_leave outside.new c → O.may_leave outside.old c }
        ensures no_more { IsAsking item → LeavesOnly O.moment O.left_since outside.old outside.new (IsAsLeft (O.may_leave outside.old)) }
        ensures sound { IsTrue (O.shown outside.old).tells → (changes : List Change) → Knows (O.shown outside.old).files (keeper_of self.old) changes
            → (Asks item condenses → IsBuilt changes) → MeetsNoDamage result }
        ensures troubled { TroubleAfter result (O.shown outside.old).taken (O.shown outside.new).taken self.old self.new }
        ensures last_run { RunAfter result item self.old self.new }
        ensures budget { budget_of self.new ≡ budget_of self.old }
        ensures resting { OnOk result (IsResting self.new) }
        ensures left { (O.shown outside.new).left ≡ (O.shown outside.old).left }
        ensures counts { CountsFor item (O.faults outside.old) (O.faults outside.new) result }
    {
        all_classes_file_in();
        a_change_set_files_in();
        self.work(alloc, item, outside)?;
        self.flush(outside)
    }

    /// Works one item, and holds its reply until a flush. What a chunk changes is pending until then; before a query, and the forms of a
    /// snapshot and of condensing, all that is pending and held is flushed. So it is where memory is wanting.
    pub fn work<O: Outside>(
        &mut self,
        alloc: Global,
        item: SessionItem,
        outside: &mut O,
    ) -> Result<(), SessionEnd>
        requires faultless { IsFaultless self.old }
        ensures worked { (work : Work) (basis : Ground) → IsReadable item
            → IsAmid (O.may_leave outside.old) (O.shown outside.old) self.old work basis
            → Worked result (O.may_leave outside.new) (O.shown outside.new) self.new (was_of self.old) work basis item }
        ensures any_moment { (work : Work) (basis : Ground) → IsReadable item
            → IsAmid (O.may_leave outside.old) (O.shown outside.old) self.old work basis
            → LeavesOnly O.moment O.left_since outside.old outside.new (WorkLeaves work basis item) }
        // Nothing is put and the mark stays where a chunk is worked that asks neither for a snapshot nor to condense, and at any moment a crash
        // leaves the list that was kept before.
        ensures grouped { (work : Work) (basis : Ground) → IsReadable item → IsGrouped item
            → IsAmid (O.may_leave outside.old) (O.shown outside.old) self.old work basis
            → OnOk result (LeavesOnly O.moment O.left_since outside.old outside.new (HasKept basis.kept (length basis.put))) }
        ensures unmarked { IsReadable item → IsGrouped item → OnOk result ((O.shown outside.new).files Mark ≡ (O.shown outside.old).files Mark) }
        ensures silent { IsReadable item → IsGrouped item → OnOk result ((O.shown outside.new).taken ≡ (O.shown outside.old).taken) }
        // Whatever the disk stands for, files that the item doesn't write stay, in what is read and at any moment.
        ensures others { (other : FileId) → IsUnwritten item (keeper_of self.old).log.number other → (O.shown outside.new).files other ≡ (O.shown outside.old).files other }
        ensures elsewhere { LeavesOnly O.moment O.left_since outside.old outside.new (IsElsewhere (O.may_leave outside.old) (IsUnwritten item (keeper_of self.old).log.number)) }
        // At rest a query changes no file, and at any moment a crash leaves what it might have left before.
        ensures asked { IsAsking item → IsResting self.old → (file : FileId) → (O.shown outside.new).files file ≡ (O.shown outside.old).files file }
        ensures images { IsAsking item → IsResting self.old → (c : FileId → List ℕ) → O.may_leave outside.new c → O.may_leave outside.old c }
        ensures no_more { IsAsking item → IsResting self.old → LeavesOnly O.moment O.left_since outside.old outside.new (IsAsLeft (O.may_leave outside.old)) }
        ensures sound { IsTrue (O.shown outside.old).tells → (changes : List Change) → Knows (O.shown outside.old).files (keeper_of self.old) changes
            → (Asks item condenses → IsBuilt changes) → MeetsNoDamage result }
        ensures troubled { TroubleWhile result self.old self.new }
        ensures last_run { RunAfter result item self.old self.new }
        ensures budget { budget_of self.new ≡ budget_of self.old }
        ensures faultless { OnOk result (IsFaultless self.new) }
        ensures log { LogAfter item (keeper_of self.old).log.number (keeper_of self.new).log.number }
        ensures unput { IsResting self.old → (O.shown outside.new).taken ≡ (O.shown outside.old).taken }
        ensures settled { IsAsking item → IsResting self.old → OnOk result (pending_of (keeper_of self.new) ≡ 0) }
        ensures left { (O.shown outside.new).left ≡ (O.shown outside.old).left }
        ensures tells { (O.shown outside.new).tells ≡ (O.shown outside.old).tells }
        ensures known { IsReadable item → IsFed item → IsKnowing (O.shown outside.old) self.old → StaysKnowing result (O.shown outside.new) self.new }
        ensures counts { CountsFor item (O.faults outside.old) (O.faults outside.new) result }
    {
        let Err(end) = self.work_item(alloc, item, outside) else {
            return Ok(());
        };
        if end.is_memory() {
            return Err(self.end_for_memory(outside));
        }
        Err(end)
    }

    /// How the session ends where memory is wanting, once what is pending and held is flushed: so, or by the fault of that flush.
    pub(crate) fn end_for_memory<O: Outside>(&mut self, outside: &mut O) -> SessionEnd
        requires faultless { IsFaultless self.old }
        ensures ends { (work : Work) (basis : Ground)
            → IsAmid (O.may_leave outside.old) (O.shown outside.old) self.old work basis
            → EndsForMemory result (O.may_leave outside.new) (O.shown outside.new) self.new work basis }
        ensures any_moment { (work : Work) (basis : Ground)
            → IsAmid (O.may_leave outside.old) (O.shown outside.old) self.old work basis
            → LeavesOnly O.moment O.left_since outside.old outside.new (FlushLeaves work basis) }
        // Whatever the disk stands for, but for the mark the files stay, in what is read and at any moment.
        ensures others { (other : FileId) → other ≢ Mark → (O.shown outside.new).files other ≡ (O.shown outside.old).files other }
        ensures elsewhere { LeavesOnly O.moment O.left_since outside.old outside.new (IsElsewhere (O.may_leave outside.old) (IsOther (keeper_of self.old).log.number)) }
        ensures idle { IsResting self.old → (outside.new ≡ outside.old) × (result ≡ SessionEnd.Memory) }
        ensures rest { HasSameRest self.old self.new }
        ensures log { (keeper_of self.new).log ≡ (keeper_of self.old).log }
        ensures unheld { held_of self.old ≡ [] → (O.shown outside.new).taken ≡ (O.shown outside.old).taken }
        ensures left { (O.shown outside.new).left ≡ (O.shown outside.old).left }
        ensures tells { (O.shown outside.new).tells ≡ (O.shown outside.old).tells }
        ensures counts { Counts {T = Unit {0}} (O.faults outside.old) (O.faults outside.new) (Err result) }
    {
        match self.flush(outside) {
            Ok(()) => SessionEnd::Memory,
            Err(end) => end,
        }
    }

    /// Commits what is pending, with one mark at most, and then puts the replies that are held, in their order. Takes no memory. Behind a fault
    /// of the output none is held any more.
    pub fn flush<O: Outside>(&mut self, outside: &mut O) -> Result<(), SessionEnd>
        requires faultless { IsFaultless self.old }
        ensures flushed { (work : Work) (basis : Ground)
            → IsAmid (O.may_leave outside.old) (O.shown outside.old) self.old work basis
            → Flushed result (O.may_leave outside.new) (O.shown outside.new) self.new work basis }
        ensures any_moment { (work : Work) (basis : Ground)
            → IsAmid (O.may_leave outside.old) (O.shown outside.old) self.old work basis
            → LeavesOnly O.moment O.left_since outside.old outside.new (FlushLeaves work basis) }
        ensures one_mark { HasMarked result (keeper_of self.old) (keeper_of self.new) }
        ensures put { TakesHeld result (O.shown outside.old).taken (O.shown outside.new).taken (held_of self.old) }
        // Whatever the disk stands for, but for the mark the files stay, in what is read and at any moment.
        ensures others { (other : FileId) → other ≢ Mark → (O.shown outside.new).files other ≡ (O.shown outside.old).files other }
        ensures elsewhere { LeavesOnly O.moment O.left_since outside.old outside.new (IsElsewhere (O.may_leave outside.old) (IsOther (keeper_of self.old).log.number)) }
        // At rest no call is made.
        ensures idle { IsResting self.old → (outside.new ≡ outside.old) × (result ≡ Ok tt) }
        ensures unheld { held_of self.old ≡ [] → (O.shown outside.new).taken ≡ (O.shown outside.old).taken }
        // With nothing pending no call of the disk is made.
        ensures unpending { pending_of (keeper_of self.old) ≡ 0 → (file : FileId) → (O.shown outside.new).files file ≡ (O.shown outside.old).files file }
        ensures images { pending_of (keeper_of self.old) ≡ 0 → (c : FileId → List ℕ) → O.may_leave outside.new c → O.may_leave outside.old c }
        ensures no_more { pending_of (keeper_of self.old) ≡ 0 → LeavesOnly O.moment O.left_since outside.old outside.new (IsAsLeft (O.may_leave outside.old)) }
        ensures rest { HasSameRest self.old self.new }
        ensures system { (keeper_of self.new).system ≡ (keeper_of self.old).system }
        ensures held { (held_of self.new ≡ held_of self.old) ⊎ (held_of self.new ≡ []) }
        ensures room { room_of self.old ≤ room_of self.new }
        ensures resting { OnOk result (IsResting self.new) }
        ensures log { (keeper_of self.new).log ≡ (keeper_of self.old).log }
        ensures shown { O.shown outside.new ≡ record (O.shown outside.old) { files = (O.shown outside.new).files; taken = (O.shown outside.new).taken; told = (O.shown outside.new).told } }
        ensures left { (O.shown outside.new).left ≡ (O.shown outside.old).left }
        ensures tells { (O.shown outside.new).tells ≡ (O.shown outside.old).tells }
        ensures ends { IfErr result IsFlushEnd }
        ensures known { IsKnowing (O.shown outside.old) self.old → StaysKnowing result (O.shown outside.new) self.new }
        ensures counts { Counts (O.faults outside.old) (O.faults outside.new) result }
    {
        self.commit(outside)?;
        self.put_held(outside)
    }

    /// Commits what is pending.
    fn commit<O: Outside>(&mut self, outside: &mut O) -> Result<(), SessionEnd>
        requires faultless { IsFaultless self.old }
        ensures committed { (work : Work) (basis : Ground)
            → IsAmid (O.may_leave outside.old) (O.shown outside.old) self.old work basis
            → Committed result (O.may_leave outside.new) (O.shown outside.new) self.new work basis }
        ensures any_moment { (work : Work) (basis : Ground)
            → IsAmid (O.may_leave outside.old) (O.shown outside.old) self.old work basis
            → LeavesOnly O.moment O.left_since outside.old outside.new (CommitLeaves work basis) }
        ensures one_mark { HasMarked result (keeper_of self.old) (keeper_of self.new) }
        // Whatever the disk stands for, but for the mark the files stay, in what is read and at any moment.
        ensures others { (other : FileId) → other ≢ Mark → (O.shown outside.new).files other ≡ (O.shown outside.old).files other }
        ensures elsewhere { LeavesOnly O.moment O.left_since outside.old outside.new (IsElsewhere (O.may_leave outside.old) (IsOther (keeper_of self.old).log.number)) }
        ensures idle { pending_of (keeper_of self.old) ≡ 0 → (outside.new ≡ outside.old) × (result ≡ Ok tt) }
        ensures rest { self.new ≡ record self.old { keeper = keeper_of self.new } }
        ensures log { (keeper_of self.new).log ≡ (keeper_of self.old).log }
        ensures system { (keeper_of self.new).system ≡ (keeper_of self.old).system }
        ensures faultless { OnOk result (IsFaultless self.new) }
        ensures settled { OnOk result (pending_of (keeper_of self.new) ≡ 0) }
        ensures shown { O.shown outside.new ≡ record (O.shown outside.old) { files = (O.shown outside.new).files } }
        ensures ends { IfErr result IsDiskEnd }
        ensures known { IsKnowing (O.shown outside.old) self.old → StaysKnowing result (O.shown outside.new) self.new }
        ensures counts { Counts (O.faults outside.old) (O.faults outside.new) result }
    {
        if let Err(fault) = commit(&mut self.keeper, outside) {
            refusal_at_fault(fault)?;
        }
        Ok(())
    }

    /// Puts the replies that are held, and lets them go.
    fn put_held<O: Outside>(&mut self, outside: &mut O) -> Result<(), SessionEnd>
        ensures put { TakesHeld result (O.shown outside.old).taken (O.shown outside.new).taken (held_of self.old) }
        ensures told { (put : List ℕ) → (O.shown outside.old).taken ≡ Some put → (O.shown outside.old).told ≡ length put
            → HeldPut result (O.shown outside.new).taken (O.shown outside.new).told put (held_of self.old) }
        ensures images { (c : FileId → List ℕ) → O.may_leave outside.new c → O.may_leave outside.old c }
        ensures any_moment { LeavesOnly O.moment O.left_since outside.old outside.new
            (IsAsBefore (O.may_leave outside.old) (O.shown outside.old).told (length (held_of self.old))) }
        ensures idle { held_of self.old ≡ [] → (outside.new ≡ outside.old) × (result ≡ Ok tt) }
        ensures rest { self.new ≡ record self.old { held = self.new.held } }
        ensures none { held_of self.new ≡ [] }
        ensures room { room_of self.old ≤ room_of self.new }
        ensures shown { O.shown outside.new ≡ record (O.shown outside.old) { taken = (O.shown outside.new).taken; told = (O.shown outside.new).told } }
        ensures ends { IfErr result IsWriteEnd }
        ensures counts { Counts (O.faults outside.old) (O.faults outside.new) result }
    {
        if self.held.bytes().is_empty() {
            return Ok(());
        }
        let put = put_all(outside, self.held.bytes());
        self.held.clear();
        put.map_err(SessionEnd::Write)
    }

    /// Works one item, and holds its reply.
    fn work_item<O: Outside>(
        &mut self,
        alloc: Global,
        item: SessionItem,
        outside: &mut O,
    ) -> Result<(), SessionEnd>
        requires faultless { IsFaultless self.old }
        ensures worked { (work : Work) (basis : Ground) → IsReadable item
            → IsAmid (O.may_leave outside.old) (O.shown outside.old) self.old work basis
            → ItemWorked result (O.may_leave outside.new) (O.shown outside.new) self.new (was_of self.old) work basis item }
        ensures any_moment { (work : Work) (basis : Ground) → IsReadable item
            → IsAmid (O.may_leave outside.old) (O.shown outside.old) self.old work basis
            → LeavesOnly O.moment O.left_since outside.old outside.new (WorkLeaves work basis item) }
        ensures grouped { (work : Work) (basis : Ground) → IsReadable item → IsGrouped item
            → IsAmid (O.may_leave outside.old) (O.shown outside.old) self.old work basis
            → LeavesOnly O.moment O.left_since outside.old outside.new (HasKept basis.kept (length basis.put)) }
        ensures unmarked { IsReadable item → IsGrouped item → (O.shown outside.new).files Mark ≡ (O.shown outside.old).files Mark }
        ensures silent { IsReadable item → IsGrouped item → (O.shown outside.new).taken ≡ (O.shown outside.old).taken }
        // Whatever the disk stands for, files that the item doesn't write stay, in what is read and at any moment.
        ensures others { (other : FileId) → IsUnwritten item (keeper_of self.old).log.number other → (O.shown outside.new).files other ≡ (O.shown outside.old).files other }
        ensures elsewhere { LeavesOnly O.moment O.left_since outside.old outside.new (IsElsewhere (O.may_leave outside.old) (IsUnwritten item (keeper_of self.old).log.number)) }
        // At rest a query changes no file, and at any moment a crash leaves what it might have left before.
        ensures asked { IsAsking item → IsResting self.old → (file : FileId) → (O.shown outside.new).files file ≡ (O.shown outside.old).files file }
        ensures images { IsAsking item → IsResting self.old → (c : FileId → List ℕ) → O.may_leave outside.new c → O.may_leave outside.old c }
        ensures no_more { IsAsking item → IsResting self.old → LeavesOnly O.moment O.left_since outside.old outside.new (IsAsLeft (O.may_leave outside.old)) }
        ensures sound { IsTrue (O.shown outside.old).tells → (changes : List Change) → Knows (O.shown outside.old).files (keeper_of self.old) changes
            → (Asks item condenses → IsBuilt changes) → MeetsNoDamage result }
        ensures troubled { TroubleWhile result self.old self.new }
        ensures last_run { RunAfter result item self.old self.new }
        ensures budget { budget_of self.new ≡ budget_of self.old }
        ensures faultless { OnOkOrMemory result (IsFaultless self.new) }
        ensures log { LogAfter item (keeper_of self.old).log.number (keeper_of self.new).log.number }
        ensures unput { IsResting self.old → (O.shown outside.new).taken ≡ (O.shown outside.old).taken }
        ensures unheld { IsResting self.old → OnErr result (held_of self.new ≡ []) }
        ensures settled { IsAsking item → IsResting self.old → OnOkOrMemory result (pending_of (keeper_of self.new) ≡ 0) }
        ensures left { (O.shown outside.new).left ≡ (O.shown outside.old).left }
        ensures tells { (O.shown outside.new).tells ≡ (O.shown outside.old).tells }
        ensures known { IsReadable item → IsFed item → IsKnowing (O.shown outside.old) self.old → StaysKnowing result (O.shown outside.new) self.new }
        ensures counts { CountsFor item (O.faults outside.old) (O.faults outside.new) result }
    {
        self.held.reserve(ACCEPTED.len())?;
        let Answer { reply, section } = self.answer_to(alloc, item, outside)?;
        self.hold(alloc, &reply)?;
        self.enter(section);
        Ok(())
    }

    /// Holds a reply, and notes whether something was refused or stopped. Memory is wanting for a refusal or what a query is told alone, where
    /// there is room for all else.
    fn hold(&mut self, alloc: Global, reply: &Reply) -> Result<(), OutOfMemory>
        ensures held { OnOk result (held_of self.new ≡ held_of self.old ++ reply_text reply.now) }
        ensures troubled { OnOk result (troubled_of self.new ≡ (troubled_of self.old || is_trouble reply.now)) }
        ensures same { OnErr result ((held_of self.new ≡ held_of self.old) × (troubled_of self.new ≡ troubled_of self.old)) }
        ensures lacks { OnErr result (LacksRoom reply.now (room_of self.old)) }
        ensures rest { self.new ≡ record self.old { held = self.new.held; troubled = troubled_of self.new } }
    {
        match reply {
            Reply::Silent => {}
            Reply::Accepted => self.held.hold(ACCEPTED)?,
            Reply::Refused(refusal) => {
                let line = refusal_line(alloc, refusal)?;
                self.held.hold(line.bytes())?;
                self.troubled = true;
            }
            Reply::Evaluated { lines, stopped } => {
                self.held.hold(lines.bytes())?;
                self.troubled |= *stopped;
            }
            Reply::Told(text) => self.held.hold(text.bytes())?,
        }
        Ok(())
    }

    /// Goes on in this section, where it is another one.
    pub(crate) fn enter(&mut self, section: Option<Section>)
        ensures section { section_of self.new ≡ section_or section (section_of self.old) }
        ensures rest { self.new ≡ record self.old { section = section_of self.new } }
    {
        if let Some(section) = section {
            self.section = section;
        }
    }

    /// Works one item, and says what it is to be answered, and in which section the next item stands. The session's section stays.
    pub(crate) fn answer_to<O: Outside>(
        &mut self,
        alloc: Global,
        item: SessionItem,
        outside: &mut O,
    ) -> Result<Answer, SessionEnd>
        requires faultless { IsFaultless self.old }
        ensures answers { (work : Work) (basis : Ground) → IsReadable item
            → IsAmid (O.may_leave outside.old) (O.shown outside.old) self.old work basis
            → Answers result (O.may_leave outside.new) (O.shown outside.new) self.new (was_of self.old) work basis item }
        ensures any_moment { (work : Work) (basis : Ground) → IsReadable item
            → IsAmid (O.may_leave outside.old) (O.shown outside.old) self.old work basis
            → LeavesOnly O.moment O.left_since outside.old outside.new (WorkLeaves work basis item) }
        ensures grouped { (work : Work) (basis : Ground) → IsReadable item → IsGrouped item
            → IsAmid (O.may_leave outside.old) (O.shown outside.old) self.old work basis
            → LeavesOnly O.moment O.left_since outside.old outside.new (HasKept basis.kept (length basis.put)) }
        ensures unmarked { IsReadable item → IsGrouped item → (O.shown outside.new).files Mark ≡ (O.shown outside.old).files Mark }
        ensures silent { IsReadable item → IsGrouped item → ((O.shown outside.new).taken ≡ (O.shown outside.old).taken) × (held_of self.new ≡ held_of self.old) }
        // Whatever the disk stands for, files that the item doesn't write stay, in what is read and at any moment.
        ensures others { (other : FileId) → IsUnwritten item (keeper_of self.old).log.number other → (O.shown outside.new).files other ≡ (O.shown outside.old).files other }
        ensures elsewhere { LeavesOnly O.moment O.left_since outside.old outside.new (IsElsewhere (O.may_leave outside.old) (IsUnwritten item (keeper_of self.old).log.number)) }
        // At rest a query changes no file, and at any moment a crash leaves what it might have left before.
        ensures asked { IsAsking item → IsResting self.old → (file : FileId) → (O.shown outside.new).files file ≡ (O.shown outside.old).files file }
        ensures images { IsAsking item → IsResting self.old → (c : FileId → List ℕ) → O.may_leave outside.new c → O.may_leave outside.old c }
        ensures no_more { IsAsking item → IsResting self.old → LeavesOnly O.moment O.left_since outside.old outside.new (IsAsLeft (O.may_leave outside.old)) }
        ensures sound { IsTrue (O.shown outside.old).tells → (changes : List Change) → Knows (O.shown outside.old).files (keeper_of self.old) changes
            → (Asks item condenses → IsBuilt changes) → MeetsNoDamage result }
        ensures troubled { troubled_of self.new ≡ troubled_of self.old }
        ensures held { (held_of self.new ≡ held_of self.old) ⊎ (held_of self.new ≡ []) }
        ensures room { 3 ≤ room_of self.old → IfOk result (λ answer. HasRoomFor item answer.reply (room_of self.new)) }
        ensures last_run { RunAfterWork result item self.old self.new }
        ensures budget { budget_of self.new ≡ budget_of self.old }
        ensures faultless { OnOkOrMemory result (IsFaultless self.new) }
        ensures log { LogAfter item (keeper_of self.old).log.number (keeper_of self.new).log.number }
        ensures unput { IsResting self.old → (O.shown outside.new).taken ≡ (O.shown outside.old).taken }
        ensures settled { IsAsking item → IsResting self.old → OnOkOrMemory result (pending_of (keeper_of self.new) ≡ 0) }
        ensures left { (O.shown outside.new).left ≡ (O.shown outside.old).left }
        ensures tells { (O.shown outside.new).tells ≡ (O.shown outside.old).tells }
        ensures ends { IfErr result IsWorkEnd }
        ensures known { IsReadable item → IsFed item → IsKnowing (O.shown outside.old) self.old → StaysKnowing result (O.shown outside.new) self.new }
        // The section that is answered is brief.
        ensures brief { IsReadable item → IsFed item → IsKnowing (O.shown outside.old) self.old → IsTrue (O.shown outside.new).tells
            → IfOk result (λ answer. IsBriefSection (section_or answer.section (section_of self.new))) }
        ensures counts { CountsFor item (O.faults outside.old) (O.faults outside.new) result }
    {
        match item {
            SessionItem::Chunk(Item::Plain(text)) => {
                Ok(Answer::staying(self.keep_text(alloc, text, outside)?))
            }
            SessionItem::Chunk(Item::Head(text)) => {
                Ok(head_answer(alloc, self.keeper.system(), text)?)
            }
            SessionItem::Chunk(Item::Method(text)) => {
                Ok(Answer::staying(self.keep_method(alloc, text, outside)?))
            }
            SessionItem::Chunk(Item::SectionEnd) => Ok(Answer {
                reply: Reply::Silent,
                section: Some(Section::Top),
            }),
            SessionItem::Chunk(Item::TooLong { role, length }) => {
                Ok(too_long_answer(&self.section, role, length))
            }
            SessionItem::Unended => Ok(Answer::staying(Reply::Refused(Refusal::Unended))),
            SessionItem::Query(query) => {
                self.flush(outside)?;
                Ok(Answer::staying(self.work_query(alloc, query, outside)?))
            }
        }
    }

    /// Keeps the change that a plain text is, or makes the snapshot that it asks for, or condenses, or evaluates a doIt that it keeps.
    /// Refuses every other text: one that is too long, has no tree, or doesn't fit a machine.
    fn keep_text<O: Outside>(
        &mut self,
        alloc: Global,
        text: Text,
        outside: &mut O,
    ) -> Result<Reply, SessionEnd>
        requires faultless { IsFaultless self.old }
        ensures replied { (work : Work) (basis : Ground) → IsChunkText text → length text ≤ longest
            → IsAmid (O.may_leave outside.old) (O.shown outside.old) self.old work basis
            → Replied result (O.may_leave outside.new) (O.shown outside.new) self.new (was_of self.old) work basis (SessionItem.Chunk (items.Plain text)) }
        ensures any_moment { (work : Work) (basis : Ground) → IsChunkText text → length text ≤ longest
            → IsAmid (O.may_leave outside.old) (O.shown outside.old) self.old work basis
            → LeavesOnly O.moment O.left_since outside.old outside.new (WorkLeaves work basis (SessionItem.Chunk (items.Plain text))) }
        ensures grouped { (work : Work) (basis : Ground) → IsChunkText text → length text ≤ longest → IsGrouped (SessionItem.Chunk (items.Plain text))
            → IsAmid (O.may_leave outside.old) (O.shown outside.old) self.old work basis
            → LeavesOnly O.moment O.left_since outside.old outside.new (HasKept basis.kept (length basis.put)) }
        ensures unmarked { IsChunkText text → length text ≤ longest → IsGrouped (SessionItem.Chunk (items.Plain text)) → (O.shown outside.new).files Mark ≡ (O.shown outside.old).files Mark }
        ensures silent { IsChunkText text → length text ≤ longest → IsGrouped (SessionItem.Chunk (items.Plain text))
            → ((O.shown outside.new).taken ≡ (O.shown outside.old).taken) × (held_of self.new ≡ held_of self.old) }
        // Whatever the disk stands for, files that the text doesn't write stay, in what is read and at any moment.
        ensures others { (other : FileId) → IsUnwritten (SessionItem.Chunk (items.Plain text)) (keeper_of self.old).log.number other → (O.shown outside.new).files other ≡ (O.shown outside.old).files other }
        ensures elsewhere { LeavesOnly O.moment O.left_since outside.old outside.new (IsElsewhere (O.may_leave outside.old) (IsUnwritten (SessionItem.Chunk (items.Plain text)) (keeper_of self.old).log.number)) }
        ensures sound { IsTrue (O.shown outside.old).tells → (changes : List Change) → Knows (O.shown outside.old).files (keeper_of self.old) changes
            → (Asks (SessionItem.Chunk (items.Plain text)) condenses → IsBuilt changes) → MeetsNoDamage result }
        ensures troubled { troubled_of self.new ≡ troubled_of self.old }
        ensures last_run { RunAfterText result (SessionItem.Chunk (items.Plain text)) self.old self.new }
        ensures budget { budget_of self.new ≡ budget_of self.old }
        ensures faultless { OnOkOrMemory result (IsFaultless self.new) }
        ensures left { (O.shown outside.new).left ≡ (O.shown outside.old).left }
        ensures tells { (O.shown outside.new).tells ≡ (O.shown outside.old).tells }
        ensures unput { IsResting self.old → (O.shown outside.new).taken ≡ (O.shown outside.old).taken }
        ensures held { (held_of self.new ≡ held_of self.old) ⊎ (held_of self.new ≡ []) }
        ensures room { 3 ≤ room_of self.old → IfOk result (λ reply. HasRoom reply (room_of self.new)) }
        ensures log { LogAfter (SessionItem.Chunk (items.Plain text)) (keeper_of self.old).log.number (keeper_of self.new).log.number }
        ensures ends { IfErr result IsWorkEnd }
        ensures known { IsChunkText text → length text ≤ longest → IsKnowing (O.shown outside.old) self.old → StaysKnowing result (O.shown outside.new) self.new }
        ensures counts { CountsFor (SessionItem.Chunk (items.Plain text)) (O.faults outside.old) (O.faults outside.new) result }
    {
        accepted_forms_are_lawful();
        let length = text.bytes().len();
        if length > LONGEST {
            let refusal = Refusal::TooLarge(FitWord::Chunk, length as u64);
            return Ok(Reply::Refused(refusal));
        }
        match plain_of(alloc, text) {
            Ok(Plain::Form(form)) => {
                let refusal = self.keep(alloc, Change::Form(form), outside)?;
                Ok(reply_to_keeping(refusal))
            }
            Ok(Plain::Snapshot) => self.keep_note(alloc, outside),
            Ok(Plain::Condense) => self.condense(alloc, outside),
            Ok(Plain::Evaluate(text, method)) => self.keep_doit(alloc, text, &method, outside),
            Err(Refused::Memory) => Err(SessionEnd::Memory),
            Err(Refused::Refusal(refusal)) => Ok(Reply::Refused(refusal)),
        }
    }

    /// Keeps a doIt, and then evaluates it.
    fn keep_doit<O: Outside>(
        &mut self,
        alloc: Global,
        text: Text,
        method: &MethodTree,
        outside: &mut O,
    ) -> Result<Reply, SessionEnd>
        requires faultless { IsFaultless self.old }
        requires method { IsMethodOfDoIt text method.now }
        ensures replied { (work : Work) (basis : Ground) → IsChunkText text → length text ≤ longest → IsEvaluatedText text
            → IsAmid (O.may_leave outside.old) (O.shown outside.old) self.old work basis
            → Replied result (O.may_leave outside.new) (O.shown outside.new) self.new (was_of self.old) work basis (SessionItem.Chunk (items.Plain text)) }
        ensures any_moment { (work : Work) (basis : Ground) → IsChunkText text → length text ≤ longest → IsEvaluatedText text
            → IsAmid (O.may_leave outside.old) (O.shown outside.old) self.old work basis
            → LeavesOnly O.moment O.left_since outside.old outside.new (HasKept basis.kept (length basis.put)) }
        // Whatever the disk stands for, but for the log the files stay, and at any moment but for the mark and the log.
        ensures others { (other : FileId) → other ≢ log_file (keeper_of self.old).log.number → (O.shown outside.new).files other ≡ (O.shown outside.old).files other }
        ensures elsewhere { LeavesOnly O.moment O.left_since outside.old outside.new (IsElsewhere (O.may_leave outside.old) (IsOther (keeper_of self.old).log.number)) }
        ensures troubled { troubled_of self.new ≡ troubled_of self.old }
        ensures last_run { IsEvaluatedText text → RunAfterText result (SessionItem.Chunk (items.Plain text)) self.old self.new }
        ensures budget { budget_of self.new ≡ budget_of self.old }
        ensures faultless { OnOkOrMemory result (IsFaultless self.new) }
        ensures left { (O.shown outside.new).left ≡ (O.shown outside.old).left }
        ensures tells { (O.shown outside.new).tells ≡ (O.shown outside.old).tells }
        ensures taken { (O.shown outside.new).taken ≡ (O.shown outside.old).taken }
        ensures held { held_of self.new ≡ held_of self.old }
        ensures room { 3 ≤ room_of self.old → IfOk result (λ reply. HasRoom reply (room_of self.new)) }
        ensures log { (keeper_of self.new).log.number ≡ (keeper_of self.old).log.number }
        ensures ends { IfErr result IsKeepEnd }
        ensures known { IsChunkText text → length text ≤ longest → IsEvaluatedText text → IsKnowing (O.shown outside.old) self.old → StaysKnowing result (O.shown outside.new) self.new }
        ensures counts { Counts (O.faults outside.old) (O.faults outside.new) result }
    {
        let code = compile(alloc, self.keeper.system(), method)?;
        match self.keep(alloc, Change::DoIt { text }, outside)? {
            None => Ok(self.evaluate(alloc, &code)?),
            Some(refusal) => Ok(Reply::Refused(refusal)),
        }
    }

    /// Evaluates the code of a doIt among the classes and methods as they are, and makes room to hold what it is told. The keeper stays.
    fn evaluate(&mut self, alloc: Global, code: &Verified) -> Result<Reply, OutOfMemory>
        requires { (text : List ℕ) × IsDoItCode text code.now }
        ensures evaluated { (text : List ℕ) → IsDoItCode text code.now → Evaluates result self.old self.new text }
        ensures held { held_of self.new ≡ held_of self.old }
        ensures room { IfOk result (λ reply. HasRoom reply (room_of self.new)) }
        ensures rest { self.new ≡ record self.old { last_run = last_run_of self.new; held = self.new.held } }
    {
        let system = self.keeper.system();
        let ran = evaluate(alloc, system, code, self.budget)?;
        let mut lines = answer_of(alloc, system, &ran)?;
        lines.append(b"\n")?;
        self.held.reserve(lines.bytes().len())?;
        let stopped = is_stopped(&ran);
        self.last_run = Some(ran);
        Ok(Reply::Evaluated { lines, stopped })
    }

    /// Keeps the method of a source in the class of an open section. In another section it is passed over.
    fn keep_method<O: Outside>(
        &mut self,
        alloc: Global,
        source: Text,
        outside: &mut O,
    ) -> Result<Reply, SessionEnd>
        requires faultless { IsFaultless self.old }
        ensures replied { (work : Work) (basis : Ground) → IsChunkText source → length source ≤ longest
            → IsAmid (O.may_leave outside.old) (O.shown outside.old) self.old work basis
            → Replied result (O.may_leave outside.new) (O.shown outside.new) self.new (was_of self.old) work basis (SessionItem.Chunk (items.Method source)) }
        ensures any_moment { (work : Work) (basis : Ground) → IsChunkText source → length source ≤ longest
            → IsAmid (O.may_leave outside.old) (O.shown outside.old) self.old work basis
            → LeavesOnly O.moment O.left_since outside.old outside.new (HasKept basis.kept (length basis.put)) }
        // Whatever the disk stands for, but for the log the files stay, and at any moment but for the mark and the log.
        ensures others { (other : FileId) → other ≢ log_file (keeper_of self.old).log.number → (O.shown outside.new).files other ≡ (O.shown outside.old).files other }
        ensures elsewhere { LeavesOnly O.moment O.left_since outside.old outside.new (IsElsewhere (O.may_leave outside.old) (IsOther (keeper_of self.old).log.number)) }
        ensures troubled { troubled_of self.new ≡ troubled_of self.old }
        ensures last_run { last_run_of self.new ≡ last_run_of self.old }
        ensures budget { budget_of self.new ≡ budget_of self.old }
        ensures faultless { OnOkOrMemory result (IsFaultless self.new) }
        ensures left { (O.shown outside.new).left ≡ (O.shown outside.old).left }
        ensures tells { (O.shown outside.new).tells ≡ (O.shown outside.old).tells }
        ensures taken { (O.shown outside.new).taken ≡ (O.shown outside.old).taken }
        ensures held { self.new.held ≡ self.old.held }
        ensures room { 3 ≤ room_of self.old → IfOk result (λ reply. HasRoom reply (room_of self.new)) }
        ensures log { (keeper_of self.new).log.number ≡ (keeper_of self.old).log.number }
        ensures ends { IfErr result IsKeepEnd }
        ensures known { IsChunkText source → length source ≤ longest → IsKnowing (O.shown outside.old) self.old → StaysKnowing result (O.shown outside.new) self.new }
        ensures counts { Counts (O.faults outside.old) (O.faults outside.new) result }
    {
        classes_are_named();
        let length = source.bytes().len();
        if length > LONGEST {
            return Ok(too_long_answer(&self.section, Role::Method, length as u64).reply);
        }
        let source = Source::parse(alloc, source)?;
        match &self.section {
            Section::Open(head) => {
                let method = method_of(alloc, head, source)?;
                let refusal = self.keep(alloc, Change::Method(method), outside)?;
                Ok(reply_to_keeping(refusal))
            }
            Section::Top => Ok(Reply::Silent),
            Section::Refused => Ok(Reply::Silent),
        }
    }

    /// Writes the image of the list with a snapshot's note behind it and keeps the note, by itself: what is pending and held is flushed before.
    pub(crate) fn keep_note<O: Outside>(
        &mut self,
        alloc: Global,
        outside: &mut O,
    ) -> Result<Reply, SessionEnd>
        requires faultless { IsFaultless self.old }
        ensures noted { (work : Work) (basis : Ground) (item : SessionItem) → Asks item (adds (Change.DoIt snapshot_note))
            → IsAmid (O.may_leave outside.old) (O.shown outside.old) self.old work basis
            → WorkedAlone result (O.may_leave outside.new) (O.shown outside.new) self.new work basis item (adds (Change.DoIt snapshot_note)) }
        ensures any_moment { (work : Work) (basis : Ground) (item : SessionItem) → Asks item (adds (Change.DoIt snapshot_note))
            → IsAmid (O.may_leave outside.old) (O.shown outside.old) self.old work basis
            → LeavesOnly O.moment O.left_since outside.old outside.new (WorkLeaves work basis item) }
        // Whatever the disk stands for, files that the item doesn't write stay, in what is read and at any moment.
        ensures others { (item : SessionItem) (other : FileId) → AsksSnapshot item → IsUnwritten item (keeper_of self.old).log.number other
            → (O.shown outside.new).files other ≡ (O.shown outside.old).files other }
        ensures elsewhere { (item : SessionItem) → AsksSnapshot item
            → LeavesOnly O.moment O.left_since outside.old outside.new (IsElsewhere (O.may_leave outside.old) (IsUnwritten item (keeper_of self.old).log.number)) }
        ensures rest { HasSameRest self.old self.new }
        ensures unput { IsResting self.old → (O.shown outside.new).taken ≡ (O.shown outside.old).taken }
        ensures held { (held_of self.new ≡ held_of self.old) ⊎ (held_of self.new ≡ []) }
        ensures room { 3 ≤ room_of self.old → IfOk result (λ reply. HasRoom reply (room_of self.new)) }
        ensures log { (keeper_of self.new).log.number ≡ (keeper_of self.old).log.number }
        ensures faultless { OnOkOrMemory result (IsFaultless self.new) }
        ensures left { (O.shown outside.new).left ≡ (O.shown outside.old).left }
        ensures tells { (O.shown outside.new).tells ≡ (O.shown outside.old).tells }
        ensures ends { IfErr result IsWorkEnd }
        ensures ends_at_rest { IsResting self.old → IfErr result IsKeepEnd }
        ensures known { IsKnowing (O.shown outside.old) self.old → StaysKnowing result (O.shown outside.new) self.new }
        ensures counts { Counts (O.faults outside.old) (O.faults outside.new) result }
    {
        self.flush(outside)?;
        match snapshot(&mut self.keeper, alloc, outside) {
            Ok(()) => Ok(Reply::Accepted),
            Err(fault) => Ok(Reply::Refused(refusal_at_fault(fault)?)),
        }
    }

    /// Keeps a change, to be committed later. Says why it is refused, if it is.
    pub(crate) fn keep<O: Outside>(
        &mut self,
        alloc: Global,
        change: Change,
        outside: &mut O,
    ) -> Result<Option<Refusal>, SessionEnd>
        requires faultless { IsFaultless self.old }
        ensures kept { (work : Work) (basis : Ground) → IsLawfulFor work.changes change
            → IsAmid (O.may_leave outside.old) (O.shown outside.old) self.old work basis
            → Kept result (O.may_leave outside.new) (O.shown outside.new) self.new work basis change }
        ensures any_moment { (work : Work) (basis : Ground) → IsLawfulFor work.changes change
            → IsAmid (O.may_leave outside.old) (O.shown outside.old) self.old work basis
            → LeavesOnly O.moment O.left_since outside.old outside.new (HasKept basis.kept (length basis.put)) }
        // Whatever the disk stands for, but for the log the files stay, and at any moment but for the mark and the log.
        ensures others { (other : FileId) → other ≢ log_file (keeper_of self.old).log.number → (O.shown outside.new).files other ≡ (O.shown outside.old).files other }
        ensures elsewhere { LeavesOnly O.moment O.left_since outside.old outside.new (IsElsewhere (O.may_leave outside.old) (IsOther (keeper_of self.old).log.number)) }
        ensures rest { self.new ≡ record self.old { keeper = keeper_of self.new } }
        ensures faultless { OnOkOrMemory result (IsFaultless self.new) }
        ensures left { (O.shown outside.new).left ≡ (O.shown outside.old).left }
        ensures tells { (O.shown outside.new).tells ≡ (O.shown outside.old).tells }
        ensures taken { (O.shown outside.new).taken ≡ (O.shown outside.old).taken }
        ensures log { (keeper_of self.new).log.number ≡ (keeper_of self.old).log.number }
        ensures ends { IfErr result IsKeepEnd }
        ensures known { (IsTrue (O.shown outside.old).tells → IsLawfulAnywhere change) → IsKnowing (O.shown outside.old) self.old
            → StaysKnowing result (O.shown outside.new) self.new }
        ensures counts { Counts (O.faults outside.old) (O.faults outside.new) result }
    {
        let prepared = match self.keeper.prepare(alloc, change) {
            Ok(prepared) => prepared,
            Err(Refused::Memory) => return Err(SessionEnd::Memory),
            Err(Refused::Refusal(refusal)) => return Ok(Some(refusal)),
        };
        match keep_later(&mut self.keeper, outside, prepared) {
            Ok(_) => Ok(None),
            Err(fault) => Ok(Some(refusal_at_fault(fault)?)),
        }
    }
}
