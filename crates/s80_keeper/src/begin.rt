// What a start begins with: the kernel, or the image that the mark names.
ghost use Rattle.std.specs.Prelude.{◌≡◌, ◌⊎◌, ◌≤◌, [], ◌∷◌, ◌++◌, length, nat_lt, IfOk, IfErr, OnOk, IsTrue};
ghost use Rattle.std.specs.List.{list_all};
ghost use Rattle.s80_base.specs.Causes.{Rose};
ghost use Rattle.s80_base.specs.declared.outside.Call.TheVariants.{Length, Read};
ghost use Rattle.s80_disk.specs.Untouched.{IsUntouched};
ghost use Rattle.s80_history.specs.History.{IsHistoryOf};
ghost use Rattle.s80_image.specs.Classes.{class_of, classes_of};
ghost use Rattle.s80_image.specs.History.{versions_of};
ghost use Rattle.s80_image.specs.Image.{view_of};
ghost use Rattle.s80_image.specs.Methods.{method_of, methods_of};
ghost use Rattle.s80_image.specs.Together.{IsLawfulImage};
ghost use Rattle.s80_log.specs.Log.{held_in, log_file};
ghost use Rattle.s80_keeper.specs.declared.start.StartFault.TheVariants.{Memory};
ghost use Rattle.s80_keeper.specs.Beginning.{kernel_beginning};
ghost use Rattle.s80_keeper.specs.Imaged.{image_file};
ghost use Rattle.s80_keeper.specs.ImageReading.{AddsSources, ArePlacesLawful, AreSources, DecodesTo, IsBegunWith, IsImageFound, IsImageRead, IsRestored, IsSourceAt, are_below, fault_of_image, methods_in, methods_of_class, places_below, unread_fault};
ghost use Rattle.s80_keeper.specs.Reading.{HasBegun, IsBegun};
ghost use Rattle.s80_keeper.specs.Start.{IfStartDisk, UnlessStartDisk};

use crate::source_at::read_source_at;
use crate::start::{Damage, StartFault};
use s80_apply::{SourcePlace, System, boot};
use s80_base::{OutOfMemory, Text};
use s80_disk::{Disk, FileId};
use s80_history::{History, Noted};
use s80_image::{Image, ImageClass, ImageFault, ImageMethod, MethodVersions, decode_image};
use s80_log::{BlockFault, Log};
use s80_mark::{MarkState, NO_IMAGE};
use s80_snapshot::{
    a_resumed_history_is_that_of_its_list, images_of_lists_are_lawful, resume, resume_history,
};
use std::alloc::Global;

/// A state and its history, behind so many changes, and where the log goes on.
#[derive(Debug, Drop)]
pub(crate) struct Begun {
    pub(crate) system: System,
    pub(crate) history: History,
    pub(crate) count: u64,
    pub(crate) at: u64,
}

/// What a start begins with: the kernel's classes, or those of the image that the mark names.
pub(crate) fn begin<D: Disk>(
    alloc: Global,
    disk: &mut D,
    log: &Log,
    mark: &MarkState,
) -> Result<Begun, StartFault>
    requires log { (log.now.number ≡ mark.now.log) × (log.now.end ≡ mark.now.log_length) }
    ensures answer { IsTrue (D.tells disk.old) → log.now.end ≤ length (D.reads disk.old (log_file log.now.number)) → IsBegun (D.reads disk.old) mark.now result }
    ensures counted { IfOk result (λ found. found.count ≤ found.at) }
    ensures untouched { IsUntouched D.tells D.reads D.may_leave D.moment D.left_since D.beside D.disk_faults disk.old disk.new }
    ensures cause { IfStartDisk result (λ failed. Rose (D.disk_faults disk.old) (D.disk_faults disk.new)) }
    ensures faults_stay { UnlessStartDisk result (D.disk_faults disk.new ≡ D.disk_faults disk.old) }
    ensures named { IfStartDisk result (λ failed. (failed.call ≡ Length) ⊎ (failed.call ≡ Read)) }
{
    if mark.image == NO_IMAGE {
        return begin_with_kernel(alloc);
    }
    images_of_lists_are_lawful();
    a_resumed_history_is_that_of_its_list();
    begin_with_image(alloc, disk, log, mark)
}

/// The kernel's classes, before any change.
fn begin_with_kernel(alloc: Global) -> Result<Begun, StartFault>
    ensures begun { IfOk result (λ found. HasBegun kernel_beginning found × IsHistoryOf found.history []) }
    ensures counted { IfOk result (λ found. found.count ≤ found.at) }
    ensures wanting { IfErr result (λ fault. fault ≡ Memory) }
{
    Ok(Begun {
        system: boot(alloc)?,
        history: History::empty(alloc),
        count: 0,
        at: 0,
    })
}

/// The classes, the methods and the history of the image that the mark names.
fn begin_with_image<D: Disk>(
    alloc: Global,
    disk: &mut D,
    log: &Log,
    mark: &MarkState,
) -> Result<Begun, StartFault>
    ensures answer { IsTrue (D.tells disk.old) → log.now.end ≤ length (D.reads disk.old (log_file log.now.number))
        → IsBegunWith (D.reads disk.old) mark.now (held_in (D.reads disk.old) log.now) result }
    ensures counted { IfOk result (λ found. found.count ≤ found.at) }
    ensures untouched { IsUntouched D.tells D.reads D.may_leave D.moment D.left_since D.beside D.disk_faults disk.old disk.new }
    ensures cause { IfStartDisk result (λ failed. Rose (D.disk_faults disk.old) (D.disk_faults disk.new)) }
    ensures faults_stay { UnlessStartDisk result (D.disk_faults disk.new ≡ D.disk_faults disk.old) }
    ensures named { IfStartDisk result (λ failed. (failed.call ≡ Length) ⊎ (failed.call ≡ Read)) }
{
    let (image, size) = find_image(alloc, disk, mark)?;
    check_places(mark.image_position, &image, size)?;
    let sources = sources(alloc, disk, log, &image, size)?;
    let (system, history) = restored(alloc, &image, sources, size)?;
    Ok(Begun {
        system,
        history,
        count: image.count,
        at: mark.image_position,
    })
}

/// The image that the mark names, and how many bytes it has.
fn find_image<D: Disk>(
    alloc: Global,
    disk: &mut D,
    mark: &MarkState,
) -> Result<(Image, u64), StartFault>
    ensures answer { IsTrue (D.tells disk.old) → IsImageFound (D.reads disk.old) mark.now result }
    ensures lawful { IfOk result (λ found. IsLawfulImage (view_of found.0)) }
    ensures untouched { IsUntouched D.tells D.reads D.may_leave D.moment D.left_since D.beside D.disk_faults disk.old disk.new }
    ensures cause { IfStartDisk result (λ failed. Rose (D.disk_faults disk.old) (D.disk_faults disk.new)) }
    ensures faults_stay { UnlessStartDisk result (D.disk_faults disk.new ≡ D.disk_faults disk.old) }
    ensures named { IfStartDisk result (λ failed. (failed.call ≡ Length) ⊎ (failed.call ≡ Read)) }
{
    let bytes = read_image(alloc, disk, mark)?;
    let image = decoded(alloc, bytes.as_slice())?;
    Ok((image, bytes.len() as u64))
}

/// The bytes that the mark takes of the image which it names.
fn read_image<D: Disk>(alloc: Global, disk: &mut D, mark: &MarkState) -> Result<Vec<u8>, StartFault>
    ensures answer { IsTrue (D.tells disk.old) → IsImageRead (λ bytes. bytes.items) (D.reads disk.old) mark.now result }
    ensures untouched { IsUntouched D.tells D.reads D.may_leave D.moment D.left_since D.beside D.disk_faults disk.old disk.new }
    ensures cause { IfStartDisk result (λ failed. Rose (D.disk_faults disk.old) (D.disk_faults disk.new)) }
    ensures faults_stay { UnlessStartDisk result (D.disk_faults disk.new ≡ D.disk_faults disk.old) }
    ensures named { IfStartDisk result (λ failed. (failed.call ≡ Length) ⊎ (failed.call ≡ Read)) }
{
    let file = file_of_image(mark.image);
    let found = disk.length(file)?;
    if found < mark.image_length {
        return Err(StartFault::Damaged(Damage::ImageShort(mark.image_length, found)));
    }
    let mut bytes = room(alloc, mark.image_length)?;
    let count = disk.read_at(file, 0, &mut bytes)?;
    if count < bytes.len() {
        return Err(StartFault::Damaged(Damage::ImageShort(mark.image_length, count as u64)));
    }
    Ok(bytes)
}

/// The file of an image of this number.
pub(crate) fn file_of_image(number: u8) -> FileId
    ensures { result ≡ image_file number }
{
    match number {
        0 => FileId::Image0,
        _ => FileId::Image1,
    }
}

/// Room for so many bytes.
fn room(alloc: Global, size: u64) -> Result<Vec<u8>, OutOfMemory>
    ensures { IfOk result (λ bytes. length bytes.items ≡ size) }
{
    Ok(vec![in alloc; 0; size as usize]?)
}

/// The image that these bytes are; a damage at the field that isn't lawful, and else at their end.
fn decoded(alloc: Global, bytes: &[u8]) -> Result<Image, StartFault>
    ensures answer { DecodesTo bytes.now result }
    ensures lawful { IfOk result (λ image. IsLawfulImage (view_of image)) }
{
    match decode_image(alloc, bytes) {
        Ok(image) => Ok(image),
        Err(fault) => Err(refused(bytes.len() as u64, fault)),
    }
}

/// The damage of an image of so many bytes.
fn refused(size: u64, fault: ImageFault) -> StartFault
    ensures { result ≡ fault_of_image size fault }
{
    match fault {
        ImageFault::Memory => StartFault::Memory,
        ImageFault::Short => StartFault::Damaged(Damage::BadImage(size)),
        ImageFault::Field(place, _) => StartFault::Damaged(Damage::BadImage(place)),
        ImageFault::Unverified(..) => StartFault::Damaged(Damage::BadImage(size)),
    }
}

/// An image of so many bytes tells no more changes than the place where the log goes on, and no place of a block from there on.
fn check_places(position: u64, image: &Image, size: u64) -> Result<(), StartFault>
    ensures { ArePlacesLawful position (view_of image.now) size result }
{
    if image.count > position || !are_below(position, image) {
        return Err(StartFault::Damaged(Damage::BadImage(size)));
    }
    Ok(())
}

/// Whether each place of a block that the image tells is below this one.
fn are_below(position: u64, image: &Image) -> bool
    ensures { result ≡ are_below position (view_of image.now) }
{
    members_are_below(position, &image.change_set) && versions_are_below(position, &image.versions)
}

fn members_are_below(position: u64, members: &[Noted]) -> bool
    ensures { result ≡ list_all (λ m. nat_lt m.at position) members.now }
{
    members.iter().all(|member| member.at < position)
}

fn versions_are_below(position: u64, versions: &[MethodVersions]) -> bool
    ensures { result ≡ list_all (λ v. places_below position (versions_of v)) versions.now }
{
    versions
        .iter()
        .all(|of_method| places_are_below(position, &of_method.places))
}

fn places_are_below(position: u64, places: &[u64]) -> bool
    ensures { result ≡ list_all (λ at. nat_lt at position) places.now }
{
    places.iter().all(|at| *at < position)
}

/// The sources of all methods of an image of so many bytes, in its order.
fn sources<D: Disk>(
    alloc: Global,
    disk: &mut D,
    log: &Log,
    image: &Image,
    size: u64,
) -> Result<Vec<Text>, StartFault>
    ensures answer { IsTrue (D.tells disk.old) → log.now.end ≤ length (D.reads disk.old (log_file log.now.number))
        → AreSources (held_in (D.reads disk.old) log.now) (methods_in (classes_of image.now.classes.items)) size (λ sources. sources.items) result }
    ensures untouched { IsUntouched D.tells D.reads D.may_leave D.moment D.left_since D.beside D.disk_faults disk.old disk.new }
    ensures cause { IfStartDisk result (λ failed. Rose (D.disk_faults disk.old) (D.disk_faults disk.new)) }
    ensures faults_stay { UnlessStartDisk result (D.disk_faults disk.new ≡ D.disk_faults disk.old) }
    ensures named { IfStartDisk result (λ failed. failed.call ≡ Read) }
{
    let mut sources = Vec::new(alloc);
    for class in &image.classes {
        add_sources_of_class(alloc, disk, log, class, size, &mut sources)?;
    }
    Ok(sources)
}

/// Adds the sources of a class's methods on both sides.
fn add_sources_of_class<D: Disk>(
    alloc: Global,
    disk: &mut D,
    log: &Log,
    class: &ImageClass,
    size: u64,
    sources: &mut Vec<Text>,
) -> Result<(), StartFault>
    ensures answer { IsTrue (D.tells disk.old) → log.now.end ≤ length (D.reads disk.old (log_file log.now.number))
        → AddsSources (held_in (D.reads disk.old) log.now) (methods_of_class (class_of class.now)) size sources.old.items sources.new.items result }
    ensures untouched { IsUntouched D.tells D.reads D.may_leave D.moment D.left_since D.beside D.disk_faults disk.old disk.new }
    ensures cause { IfStartDisk result (λ failed. Rose (D.disk_faults disk.old) (D.disk_faults disk.new)) }
    ensures faults_stay { UnlessStartDisk result (D.disk_faults disk.new ≡ D.disk_faults disk.old) }
    ensures named { IfStartDisk result (λ failed. failed.call ≡ Read) }
{
    add_sources(alloc, disk, log, &class.instance_methods, size, sources)?;
    add_sources(alloc, disk, log, &class.class_methods, size, sources)
}

/// Adds the sources of these methods.
fn add_sources<D: Disk>(
    alloc: Global,
    disk: &mut D,
    log: &Log,
    methods: &[ImageMethod],
    size: u64,
    sources: &mut Vec<Text>,
) -> Result<(), StartFault>
    ensures answer { IsTrue (D.tells disk.old) → log.now.end ≤ length (D.reads disk.old (log_file log.now.number))
        → AddsSources (held_in (D.reads disk.old) log.now) (methods_of methods.now) size sources.old.items sources.new.items result }
    ensures untouched { IsUntouched D.tells D.reads D.may_leave D.moment D.left_since D.beside D.disk_faults disk.old disk.new }
    ensures cause { IfStartDisk result (λ failed. Rose (D.disk_faults disk.old) (D.disk_faults disk.new)) }
    ensures faults_stay { UnlessStartDisk result (D.disk_faults disk.new ≡ D.disk_faults disk.old) }
    ensures named { IfStartDisk result (λ failed. failed.call ≡ Read) }
{
    for method in methods {
        let source = source_of(alloc, disk, log, method, size)?;
        push_source(sources, source)?;
    }
    Ok(())
}

fn push_source(sources: &mut Vec<Text>, source: Text) -> Result<(), OutOfMemory>
    ensures { OnOk result (sources.new.items ≡ sources.old.items ++ source ∷ []) }
{
    Ok(sources.push(source)?)
}

/// The source that the place of an image's method holds.
fn source_of<D: Disk>(
    alloc: Global,
    disk: &mut D,
    log: &Log,
    method: &ImageMethod,
    size: u64,
) -> Result<Text, StartFault>
    ensures answer { IsTrue (D.tells disk.old) → log.now.end ≤ length (D.reads disk.old (log_file log.now.number))
        → IsSourceAt (held_in (D.reads disk.old) log.now) (method_of method.now) size result }
    ensures untouched { IsUntouched D.tells D.reads D.may_leave D.moment D.left_since D.beside D.disk_faults disk.old disk.new }
    ensures cause { IfStartDisk result (λ failed. Rose (D.disk_faults disk.old) (D.disk_faults disk.new)) }
    ensures faults_stay { UnlessStartDisk result (D.disk_faults disk.new ≡ D.disk_faults disk.old) }
    ensures named { IfStartDisk result (λ failed. failed.call ≡ Read) }
{
    let place = SourcePlace {
        from_kernel: method.heading.from_kernel,
        position: method.heading.position,
        length: method.heading.length,
    };
    match read_source_at(alloc, disk, log, place) {
        Ok(source) => Ok(source),
        Err(fault) => Err(unread(size, fault)),
    }
}

/// Why a source of an image of so many bytes isn't read: a place that holds none is the image's damage.
fn unread(size: u64, fault: BlockFault) -> StartFault
    ensures { result ≡ unread_fault size fault }
{
    match fault {
        BlockFault::Memory => StartFault::Memory,
        BlockFault::Disk(failed) => StartFault::Disk(failed),
        BlockFault::Bad(_) => StartFault::Damaged(Damage::BadImage(size)),
    }
}

/// The system and the history of an image of so many bytes, whose methods have these sources.
fn restored(
    alloc: Global,
    image: &Image,
    sources: Vec<Text>,
    size: u64,
) -> Result<(System, History), StartFault>
    requires { IsLawfulImage (view_of image.now) }
    ensures { IsRestored (view_of image.now) sources.items size result }
{
    let Some(system) = resume(alloc, image, sources)? else {
        return Err(StartFault::Damaged(Damage::BadImage(size)));
    };
    Ok((system, resume_history(alloc, image)?))
}
