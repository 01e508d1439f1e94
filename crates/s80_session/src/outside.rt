// The calls on the outside that a run makes, each with all that it leaves.
ghost use Rattle.std.specs.Prelude.{◌≡◌, ◌≢◌, ◌⊎◌, ◌↔◌, ◌≤◌, ◌<◌, ◌+◌, ◌-◌, ◌∷◌, [], ◌++◌, ℕ, List, length, map as list_map, option_map, Some, None, Ok, Err, IsTrue, IfOk, IfSome, OnErr, OnOk, ⊤};
ghost use Rattle.std.specs.FinMap as map;
ghost use Rattle.std.specs.Int.NonZero.{non_zero_u32_get};
ghost use Rattle.std.specs.Io.{ReadsAtMost};
ghost use Rattle.std.specs.Io.KnownBytes.{ReadConsumes};
ghost use Rattle.s80_base.specs.Causes.{HasCause, Rose};
ghost use Rattle.s80_base.specs.declared.outside.Failed.{Failed};
ghost use Rattle.s80_change.specs.declared.change.Change.{Change};
ghost use Rattle.s80_change.specs.Block.{block, blocks, log_limit, IsLawful};
ghost use Rattle.s80_class.specs.Classes.{Name};
ghost use Rattle.s80_class.specs.Table.{IsNumberOf};
ghost use Rattle.s80_disk.specs.declared.disk.FileId.{FileId};
ghost use Rattle.s80_disk.specs.declared.disk.FileId.TheVariants.{Mark};
ghost use Rattle.s80_disk.specs.Moments.{LeavesOnly};
ghost use Rattle.s80_mark.specs.Found.{longer_log};
ghost use Rattle.s80_keeper.specs.ChangesAt.{IsPlacedAt};
ghost use Rattle.s80_keeper.specs.Condensing.{AfterCondensing, Condensed, IfReplaced};
ghost use Rattle.s80_keeper.specs.Imaged.{image_file};
ghost use Rattle.s80_keeper.specs.Renewing.{HasWritten};
ghost use Rattle.s80_keeper.specs.Snapshot.{AfterSnapshot, LeavesApart, Snapped, note, other_image};
ghost use Rattle.s80_keeper.specs.Keeper.{pending_of, IsSettled, Keeps, Knows};
ghost use Rattle.s80_keeper.specs.Standing.{FilesStandFor, LeavesEither, ReadsFor};
ghost use Rattle.s80_keeper.specs.Start.{IsStart, Started, StartLeaves, IfStartDisk, UnlessStartDisk};
ghost use Rattle.s80_keeper.specs.Answers.{AfterCommit, AfterKeepingLater, CanKeep, Committed, IfKeepDisk, IsFor, KeptLater, PlacesFor, UnlessKeepDisk};
ghost use Rattle.s80_keeper.specs.Source.{IsThis, after_reading};
ghost use Rattle.s80_apply.specs.List.{IsBuilt, state_of};
ghost use Rattle.s80_fileout.specs.Condensed.{kept};
ghost use Rattle.s80_apply.specs.Placed.{placed_of};
ghost use Rattle.s80_history.specs.Lists.{set_of, versions_of};
ghost use Rattle.s80_log.specs.Commit.{LeavesBeside};
ghost use Rattle.s80_log.specs.Log.{log_file};
ghost use Rattle.s80_session.specs.Putting.{IsAsBefore, PutsFront};
ghost use Rattle.s80_session.specs.Run.{HasKept, ShownFor};

use s80_base::{Failed, Side, Text};
use s80_change::{Change, Changes};
use s80_disk::{Outside, put_output, take_input, time_now};
use s80_keeper::{KeepFault, Keeper, Prepared, StartFault};
use std::alloc::Global;
use std::num::NonZeroU32;

/// Starts a keeper of the list for which the files stand.
pub(crate) fn start_keeper<O: Outside>(alloc: Global, outside: &mut O) -> Result<Keeper, StartFault>
    ensures answer { IsTrue (O.shown outside.old).tells → IsStart (O.shown outside.old).files result }
    ensures started { (changes : List Change) → ReadsFor (O.shown outside.old).tells (O.shown outside.old).files (O.may_leave outside.old) changes
        → Started result (O.shown outside.new).tells (O.shown outside.new).files (O.may_leave outside.new) changes }
    ensures faultless { IfOk result (λ keeper. keeper.fault ≡ None) }
    ensures settled { IfOk result (λ keeper. pending_of keeper ≡ 0) }
    ensures whole { IsTrue (O.shown outside.old).tells → IfOk result (λ keeper. keeper.log.end ≤ length ((O.shown outside.new).files (log_file keeper.log.number))) }
    ensures untouched { IsTrue (O.shown outside.old).tells → 0 < longer_log (O.shown outside.old).files
        → (file : FileId) → (O.shown outside.new).files file ≡ (O.shown outside.old).files file }
    ensures others { (other : FileId) → other ≢ Mark → (O.shown outside.new).files other ≡ (O.shown outside.old).files other }
    ensures shown { O.shown outside.new ≡ record (O.shown outside.old) { files = (O.shown outside.new).files } }
    ensures faults { O.faults outside.new ≡ record (O.faults outside.old) { disk = (O.faults outside.new).disk } }
    ensures any_moment { (changes : List Change) → ShownFor (O.may_leave outside.old) (O.shown outside.old) changes
        → LeavesOnly O.moment O.left_since outside.old outside.new (HasKept changes (O.shown outside.old).told) }
    ensures killed { (changes was : List Change) → ReadsFor (O.shown outside.old).tells (O.shown outside.old).files (O.may_leave outside.old) changes
        → ((c : FileId → List ℕ) → O.may_leave outside.old c → FilesStandFor c changes ⊎ FilesStandFor c was)
        → LeavesOnly O.moment O.left_since outside.old outside.new (LeavesEither (O.shown outside.old).told changes was) }
    ensures leaves { IsTrue (O.shown outside.old).tells → LeavesOnly O.moment O.left_since outside.old outside.new
        (StartLeaves (O.shown outside.old).files (O.may_leave outside.old) (O.shown outside.old).told) }
    ensures later { (O.faults outside.old).disk ≤ (O.faults outside.new).disk }
    ensures cause { IfStartDisk result (λ failed. Rose (O.faults outside.old).disk (O.faults outside.new).disk) }
    ensures faults_stay { UnlessStartDisk result ((O.faults outside.new).disk ≡ (O.faults outside.old).disk) }
{
    Keeper::start(alloc, outside)
}

/// Has a keeper keep a change, to be committed later.
pub(crate) fn keep_later<O: Outside>(
    keeper: &mut Keeper,
    outside: &mut O,
    prepared: Prepared,
) -> Result<u64, KeepFault>
    requires { CanKeep keeper.old prepared }
    ensures after { AfterKeepingLater result prepared keeper.old keeper.new }
    ensures kept { (kept all : List Change)
        → Keeps (O.shown outside.old).tells (O.shown outside.old).files (O.may_leave outside.old) keeper.old kept all → IsLawful prepared.change → IsFor (state_of all) keeper.old.system prepared
        → PlacesFor (placed_of all) keeper.old.system prepared
        → KeptLater result (O.shown outside.new).tells (O.shown outside.new).files (O.may_leave outside.new) keeper.new kept all prepared.change }
    ensures any_moment { (kept all : List Change)
        → Keeps (O.shown outside.old).tells (O.shown outside.old).files (O.may_leave outside.old) keeper.old kept all
        → LeavesOnly O.moment O.left_since outside.old outside.new (HasKept kept (O.shown outside.old).told) }
    // Whatever a crash may leave.
    ensures written { (changes : List Change) → HasWritten (O.shown outside.old).tells (O.shown outside.old).files keeper.old changes → IsLawful prepared.change
        → IsFor (state_of changes) keeper.old.system prepared → PlacesFor (placed_of changes) keeper.old.system prepared
        → OnOk result (HasWritten (O.shown outside.new).tells (O.shown outside.new).files keeper.new (changes ++ prepared.change ∷ [])) }
    // Whatever the disk stands for.
    ensures elsewhere { LeavesOnly O.moment O.left_since outside.old outside.new
        (LeavesBeside (O.may_leave outside.old) (O.shown outside.old).told (log_file keeper.old.log.number) (λ c. ⊤)) }
    ensures others { (other : FileId) → other ≢ log_file keeper.old.log.number → (O.shown outside.new).files other ≡ (O.shown outside.old).files other }
    ensures closed { (failed : Failed) → (result ≡ Err (KeepFault.Closed failed)) ↔ (keeper.old.fault ≡ Some failed) }
    ensures full { (n : ℕ) → (result ≡ Err (KeepFault.Full n))
        ↔ ((keeper.old.fault ≡ None) × (n ≡ keeper.old.log.end) × (log_limit < keeper.old.log.end + length (block prepared.change))) }
    ensures shown { O.shown outside.new ≡ record (O.shown outside.old) { files = (O.shown outside.new).files } }
    ensures faults { O.faults outside.new ≡ record (O.faults outside.old) { disk = (O.faults outside.new).disk } }
    ensures later { (O.faults outside.old).disk ≤ (O.faults outside.new).disk }
    ensures cause { IfKeepDisk result (λ failed. Rose (O.faults outside.old).disk (O.faults outside.new).disk) }
    ensures faults_stay { UnlessKeepDisk result ((O.faults outside.new).disk ≡ (O.faults outside.old).disk) }
{
    keeper.keep_later(outside, prepared)
}

/// Has a keeper commit what is pending.
pub(crate) fn commit<O: Outside>(keeper: &mut Keeper, outside: &mut O) -> Result<(), KeepFault>
    ensures after { AfterCommit result keeper.old keeper.new }
    ensures committed { (kept all : List Change)
        → Keeps (O.shown outside.old).tells (O.shown outside.old).files (O.may_leave outside.old) keeper.old kept all
        → Committed result (O.shown outside.new).tells (O.shown outside.new).files (O.may_leave outside.new) keeper.new kept all }
    ensures any_moment { (kept all : List Change)
        → Keeps (O.shown outside.old).tells (O.shown outside.old).files (O.may_leave outside.old) keeper.old kept all
        → LeavesOnly O.moment O.left_since outside.old outside.new (LeavesEither (O.shown outside.old).told kept all) }
    // Whatever a crash may leave.
    ensures written { (changes : List Change) → HasWritten (O.shown outside.old).tells (O.shown outside.old).files keeper.old changes
        → OnOk result (HasWritten (O.shown outside.new).tells (O.shown outside.new).files keeper.new changes) }
    // Whatever the disk stands for.
    ensures elsewhere { LeavesOnly O.moment O.left_since outside.old outside.new
        (LeavesBeside (O.may_leave outside.old) (O.shown outside.old).told (log_file keeper.old.log.number) (λ c. ⊤)) }
    ensures others { (other : FileId) → other ≢ Mark → (O.shown outside.new).files other ≡ (O.shown outside.old).files other }
    ensures unpending { pending_of keeper.old ≡ 0 → outside.new ≡ outside.old }
    ensures idle { keeper.old.fault ≡ None → pending_of keeper.old ≡ 0 → result ≡ Ok tt }
    ensures closed { (failed : Failed) → (result ≡ Err (KeepFault.Closed failed)) ↔ (keeper.old.fault ≡ Some failed) }
    ensures shown { O.shown outside.new ≡ record (O.shown outside.old) { files = (O.shown outside.new).files } }
    ensures faults { O.faults outside.new ≡ record (O.faults outside.old) { disk = (O.faults outside.new).disk } }
    ensures later { (O.faults outside.old).disk ≤ (O.faults outside.new).disk }
    ensures cause { IfKeepDisk result (λ failed. Rose (O.faults outside.old).disk (O.faults outside.new).disk) }
    ensures faults_stay { UnlessKeepDisk result ((O.faults outside.new).disk ≡ (O.faults outside.old).disk) }
{
    keeper.commit(outside)
}

/// Has a keeper replace its list by one that makes the same state, with so many of the newest versions of each method.
pub(crate) fn condense<O: Outside>(
    keeper: &mut Keeper,
    alloc: Global,
    outside: &mut O,
    keep: NonZeroU32,
) -> Result<(), KeepFault>
    requires { IsSettled keeper.old }
    ensures after { AfterCondensing result keeper.old keeper.new }
    ensures condensed { (changes : List Change)
        → Keeps (O.shown outside.old).tells (O.shown outside.old).files (O.may_leave outside.old) keeper.old changes changes
        → Condensed result (O.shown outside.new).tells (O.shown outside.new).files (O.may_leave outside.new) keeper.new changes (kept changes (non_zero_u32_get keep)) }
    ensures any_moment { (changes : List Change)
        → Keeps (O.shown outside.old).tells (O.shown outside.old).files (O.may_leave outside.old) keeper.old changes changes
        → LeavesOnly O.moment O.left_since outside.old outside.new (LeavesEither (O.shown outside.old).told changes (kept changes (non_zero_u32_get keep))) }
    // Whatever a crash may leave.
    ensures known { IsTrue (O.shown outside.old).tells → (changes : List Change) → IsBuilt changes → Knows (O.shown outside.old).files keeper.old changes
        → IfReplaced result (HasWritten (O.shown outside.new).tells (O.shown outside.new).files keeper.new (kept changes (non_zero_u32_get keep))) }
    // Whatever the disk stands for.
    ensures elsewhere { LeavesOnly O.moment O.left_since outside.old outside.new
        (LeavesBeside (O.may_leave outside.old) (O.shown outside.old).told (log_file (1 - keeper.old.log.number)) (λ c. ⊤)) }
    ensures others { (other : FileId) → other ≢ Mark → other ≢ log_file (1 - keeper.old.log.number)
        → (O.shown outside.new).files other ≡ (O.shown outside.old).files other }
    ensures closed { (failed : Failed) → (result ≡ Err (KeepFault.Closed failed)) ↔ (keeper.old.fault ≡ Some failed) }
    ensures shown { O.shown outside.new ≡ record (O.shown outside.old) { files = (O.shown outside.new).files } }
    ensures faults { O.faults outside.new ≡ record (O.faults outside.old) { disk = (O.faults outside.new).disk } }
    ensures later { (O.faults outside.old).disk ≤ (O.faults outside.new).disk }
    ensures cause { IfKeepDisk result (λ failed. Rose (O.faults outside.old).disk (O.faults outside.new).disk) }
    ensures faults_stay { UnlessKeepDisk result ((O.faults outside.new).disk ≡ (O.faults outside.old).disk) }
{
    keeper.condense(alloc, outside, keep.get())
}

/// Has a keeper write the image of its list with a snapshot's note behind it, and keep the note.
pub(crate) fn snapshot<O: Outside>(
    keeper: &mut Keeper,
    alloc: Global,
    outside: &mut O,
) -> Result<(), KeepFault>
    requires { IsSettled keeper.old }
    ensures after { AfterSnapshot result keeper.old keeper.new }
    ensures log { keeper.new.log.number ≡ keeper.old.log.number }
    ensures kept { (changes : List Change)
        → Keeps (O.shown outside.old).tells (O.shown outside.old).files (O.may_leave outside.old) keeper.old changes changes
        → Snapped result (O.shown outside.new).tells (O.shown outside.new).files (O.may_leave outside.new) keeper.new changes }
    ensures any_moment { (changes : List Change)
        → Keeps (O.shown outside.old).tells (O.shown outside.old).files (O.may_leave outside.old) keeper.old changes changes
        → LeavesOnly O.moment O.left_since outside.old outside.new (LeavesEither (O.shown outside.old).told changes (changes ++ note ∷ [])) }
    // Whatever a crash may leave.
    ensures written { (changes : List Change) → HasWritten (O.shown outside.old).tells (O.shown outside.old).files keeper.old changes
        → OnOk result (HasWritten (O.shown outside.new).tells (O.shown outside.new).files keeper.new (changes ++ note ∷ [])) }
    // Whatever the disk stands for.
    ensures elsewhere { LeavesOnly O.moment O.left_since outside.old outside.new
        (LeavesApart (O.may_leave outside.old) (O.shown outside.old).told (log_file keeper.old.log.number) (image_file (other_image keeper.old.mark.image))) }
    ensures others { (other : FileId) → other ≢ Mark → other ≢ log_file keeper.old.log.number → other ≢ image_file (other_image keeper.old.mark.image)
        → (O.shown outside.new).files other ≡ (O.shown outside.old).files other }
    ensures closed { (failed : Failed) → (result ≡ Err (KeepFault.Closed failed)) ↔ (keeper.old.fault ≡ Some failed) }
    ensures full { (n : ℕ) → (result ≡ Err (KeepFault.Full n))
        ↔ ((keeper.old.fault ≡ None) × (n ≡ keeper.old.log.end) × (log_limit < keeper.old.log.end + length (block note))) }
    ensures unfit { log_limit < keeper.old.log.end + length (block note) → outside.new ≡ outside.old }
    ensures stays { log_limit < keeper.old.log.end + length (block note) → keeper.new ≡ keeper.old }
    ensures shown { O.shown outside.new ≡ record (O.shown outside.old) { files = (O.shown outside.new).files } }
    ensures faults { O.faults outside.new ≡ record (O.faults outside.old) { disk = (O.faults outside.new).disk } }
    ensures later { (O.faults outside.old).disk ≤ (O.faults outside.new).disk }
    ensures cause { IfKeepDisk result (λ failed. Rose (O.faults outside.old).disk (O.faults outside.new).disk) }
    ensures faults_stay { UnlessKeepDisk result ((O.faults outside.new).disk ≡ (O.faults outside.old).disk) }
{
    keeper.snapshot(alloc, outside)
}

/// The source of a method, read by a keeper. It changes no file, and a crash leaves what it might have left before.
pub(crate) fn read_source<O: Outside>(
    keeper: &mut Keeper,
    alloc: Global,
    outside: &mut O,
    class: u32,
    side: Side,
    selector: &Text,
) -> Result<Option<Text>, KeepFault>
    requires class { class < length keeper.old.system.methods.sides }
    requires settled { IsSettled keeper.old }
    ensures source { IsTrue (O.shown outside.old).tells → (changes : List Change) → Knows (O.shown outside.old).files keeper.old changes
        → (name : Name) → IsNumberOf keeper.old.system.table.names class name
        → IsThis (option_map (λ row. row.source) (map.get ((state_of changes).methods name side) selector.now)) result }
    ensures after { keeper.new ≡ after_reading result keeper.old }
    ensures closed { (failed : Failed) → (result ≡ Err (KeepFault.Closed failed)) ↔ (keeper.old.fault ≡ Some failed) }
    ensures images { (c : FileId → List ℕ) → O.may_leave outside.new c → O.may_leave outside.old c }
    ensures any_moment { LeavesOnly O.moment O.left_since outside.old outside.new
        (IsAsBefore (O.may_leave outside.old) (O.shown outside.old).told 0) }
    ensures shown { O.shown outside.new ≡ O.shown outside.old }
    ensures faults { O.faults outside.new ≡ record (O.faults outside.old) { disk = (O.faults outside.new).disk } }
    ensures later { (O.faults outside.old).disk ≤ (O.faults outside.new).disk }
    ensures cause { IfKeepDisk result (λ failed. Rose (O.faults outside.old).disk (O.faults outside.new).disk) }
    ensures faults_stay { UnlessKeepDisk result ((O.faults outside.new).disk ≡ (O.faults outside.old).disk) }
{
    keeper.source_of(alloc, outside, class, side, selector)
}

/// The change whose block begins at a place, and the place behind it, read by a keeper. It changes no file, and a crash leaves what it might have
/// left before.
pub(crate) fn read_block<O: Outside>(
    keeper: &mut Keeper,
    alloc: Global,
    outside: &mut O,
    at: u64,
) -> Result<(Change, u64), KeepFault>
    ensures block { IsTrue (O.shown outside.old).tells → (before behind : List Change) (change : Change)
        → Knows (O.shown outside.old).files keeper.old (before ++ change ∷ behind) → at ≡ length (blocks before)
        → IsThis (change, length (blocks (before ++ change ∷ []))) result }
    ensures next { IfOk result (λ found. (at < found.1) × (found.1 ≤ keeper.old.log.end)) }
    ensures placed { IsPlacedAt at result }
    ensures after { keeper.new ≡ after_reading result keeper.old }
    ensures closed { (failed : Failed) → (result ≡ Err (KeepFault.Closed failed)) ↔ (keeper.old.fault ≡ Some failed) }
    ensures images { (c : FileId → List ℕ) → O.may_leave outside.new c → O.may_leave outside.old c }
    ensures any_moment { LeavesOnly O.moment O.left_since outside.old outside.new
        (IsAsBefore (O.may_leave outside.old) (O.shown outside.old).told 0) }
    ensures shown { O.shown outside.new ≡ O.shown outside.old }
    ensures faults { O.faults outside.new ≡ record (O.faults outside.old) { disk = (O.faults outside.new).disk } }
    ensures later { (O.faults outside.old).disk ≤ (O.faults outside.new).disk }
    ensures cause { IfKeepDisk result (λ failed. Rose (O.faults outside.old).disk (O.faults outside.new).disk) }
    ensures faults_stay { UnlessKeepDisk result ((O.faults outside.new).disk ≡ (O.faults outside.old).disk) }
{
    keeper.block_at(alloc, outside, at)
}

/// The change set, read by a keeper. It changes no file, and a crash leaves what it might have left before.
pub(crate) fn read_set<O: Outside>(
    keeper: &mut Keeper,
    alloc: Global,
    outside: &mut O,
) -> Result<Changes, KeepFault>
    requires { IsSettled keeper.old }
    ensures set { IsTrue (O.shown outside.old).tells → (changes : List Change) → Knows (O.shown outside.old).files keeper.old changes
        → IsThis (list_map (λ p. p.1) (set_of changes)) result }
    ensures unfilled { (length : ℕ) → result ≢ Err (KeepFault.Full length) }
    ensures after { keeper.new ≡ after_reading result keeper.old }
    ensures closed { (failed : Failed) → (result ≡ Err (KeepFault.Closed failed)) ↔ (keeper.old.fault ≡ Some failed) }
    ensures images { (c : FileId → List ℕ) → O.may_leave outside.new c → O.may_leave outside.old c }
    ensures any_moment { LeavesOnly O.moment O.left_since outside.old outside.new
        (IsAsBefore (O.may_leave outside.old) (O.shown outside.old).told 0) }
    ensures shown { O.shown outside.new ≡ O.shown outside.old }
    ensures faults { O.faults outside.new ≡ record (O.faults outside.old) { disk = (O.faults outside.new).disk } }
    ensures later { (O.faults outside.old).disk ≤ (O.faults outside.new).disk }
    ensures cause { IfKeepDisk result (λ failed. Rose (O.faults outside.old).disk (O.faults outside.new).disk) }
    ensures faults_stay { UnlessKeepDisk result ((O.faults outside.new).disk ≡ (O.faults outside.old).disk) }
{
    keeper.set_of(alloc, outside)
}

/// The versions of a method, read by a keeper. It changes no file, and a crash leaves what it might have left before.
pub(crate) fn read_versions<O: Outside>(
    keeper: &mut Keeper,
    alloc: Global,
    outside: &mut O,
    class_name: &Text,
    side: Side,
    selector: &Text,
) -> Result<Changes, KeepFault>
    requires { IsSettled keeper.old }
    ensures versions { IsTrue (O.shown outside.old).tells → (changes : List Change) → Knows (O.shown outside.old).files keeper.old changes
        → IsThis (list_map (λ p. p.1) (versions_of changes (record { class_name = class_name.now; side = side; selector = selector.now }))) result }
    ensures after { keeper.new ≡ after_reading result keeper.old }
    ensures closed { (failed : Failed) → (result ≡ Err (KeepFault.Closed failed)) ↔ (keeper.old.fault ≡ Some failed) }
    ensures images { (c : FileId → List ℕ) → O.may_leave outside.new c → O.may_leave outside.old c }
    ensures any_moment { LeavesOnly O.moment O.left_since outside.old outside.new
        (IsAsBefore (O.may_leave outside.old) (O.shown outside.old).told 0) }
    ensures shown { O.shown outside.new ≡ O.shown outside.old }
    ensures faults { O.faults outside.new ≡ record (O.faults outside.old) { disk = (O.faults outside.new).disk } }
    ensures later { (O.faults outside.old).disk ≤ (O.faults outside.new).disk }
    ensures cause { IfKeepDisk result (λ failed. Rose (O.faults outside.old).disk (O.faults outside.new).disk) }
    ensures faults_stay { UnlessKeepDisk result ((O.faults outside.new).disk ≡ (O.faults outside.old).disk) }
{
    keeper.versions_of(alloc, outside, class_name, side, selector)
}

/// The seconds of the clock. It changes no file, and a crash leaves what it might have left before.
pub(crate) fn read_clock<O: Outside>(outside: &mut O) -> u64
    ensures told { IfSome (O.shown outside.old).seconds (λ told. result ≡ told) }
    ensures images { (c : FileId → List ℕ) → O.may_leave outside.new c → O.may_leave outside.old c }
    ensures any_moment { LeavesOnly O.moment O.left_since outside.old outside.new
        (IsAsBefore (O.may_leave outside.old) (O.shown outside.old).told 0) }
    ensures shown { O.shown outside.new ≡ O.shown outside.old }
    ensures faults { O.faults outside.new ≡ O.faults outside.old }
{
    time_now(outside)
}

/// The next bytes of the input. 0 for a buffer that isn't empty means its end.
pub(crate) fn take_some<O: Outside>(outside: &mut O, buf: &mut [u8]) -> Result<usize, Failed>
    ensures bound { ReadsAtMost result buf.new }
    ensures bytes { ReadConsumes (O.shown outside.old).left (O.shown outside.new).left result buf.new }
    ensures shown { O.shown outside.new ≡ record (O.shown outside.old) { left = (O.shown outside.new).left } }
    ensures faults { O.faults outside.new ≡ record (O.faults outside.old) { read = (O.faults outside.new).read } }
    ensures images { (c : FileId → List ℕ) → O.may_leave outside.new c → O.may_leave outside.old c }
    ensures any_moment { LeavesOnly O.moment O.left_since outside.old outside.new
        (IsAsBefore (O.may_leave outside.old) (O.shown outside.old).told 0) }
    ensures cause { HasCause (O.faults outside.old).read (O.faults outside.new).read result }
{
    take_input(outside, buf)
}

/// Puts a piece whole, or fails with a front of it put.
pub fn put_all<O: Outside>(outside: &mut O, piece: &[u8]) -> Result<(), Failed>
    ensures bytes { PutsFront (O.shown outside.old).taken (O.shown outside.new).taken (O.shown outside.old).told (O.shown outside.new).told piece.now }
    ensures whole { OnOk result ((O.shown outside.new).told ≡ (O.shown outside.old).told + length piece.now) }
    ensures cut { OnErr result ((O.shown outside.new).told < (O.shown outside.old).told + length piece.now) }
    ensures images { (c : FileId → List ℕ) → O.may_leave outside.new c → O.may_leave outside.old c }
    ensures shown { O.shown outside.new ≡ record (O.shown outside.old) { taken = (O.shown outside.new).taken; told = (O.shown outside.new).told } }
    ensures faults { O.faults outside.new ≡ record (O.faults outside.old) { write = (O.faults outside.new).write } }

    // A crash at any moment leaves what it might leave before, with at least as many bytes told.
    ensures any_moment { LeavesOnly O.moment O.left_since outside.old outside.new
        (IsAsBefore (O.may_leave outside.old) (O.shown outside.old).told (length piece.now)) }
    ensures cause { HasCause (O.faults outside.old).write (O.faults outside.new).write result }
{
    let mut rest = piece;
    while !rest.is_empty() {
        let count = put_output(outside, rest)?;
        rest = &rest[count..];
    }
    Ok(())
}
