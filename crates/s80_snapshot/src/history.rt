// The history that an image has.
ghost use Rattle.std.specs.Prelude.{◌≡◌, ◌++◌, [], reverse, IfOk, OnOk};
ghost use Rattle.s80_history.specs.History.{version_places};
ghost use Rattle.s80_history.specs.Lists.{MethodName};
ghost use Rattle.s80_image.specs.History.{all_versions_of, versions_of};
ghost use Rattle.s80_image.specs.Image.{view_of};
ghost use Rattle.s80_image.specs.Together.{IsLawfulImage};
ghost use Rattle.s80_snapshot.specs.Restored.{IsHistoryIn, places_of};
ghost use Rattle.s80_snapshot.specs.Restoring.{AreDifferent, with_versions};

use s80_base::OutOfMemory;
use s80_history::{History, Noted};
use s80_image::{Image, MethodVersions};
use std::alloc::Global;

/// The change set and the versions of an image, as a history that is noted on.
pub fn resume_history(alloc: Global, image: &Image) -> Result<History, OutOfMemory>
    requires { IsLawfulImage (view_of image.now) }
    ensures { IfOk result (λ history. IsHistoryIn (view_of image.now) history) }
{
    let mut history = History::empty(alloc);
    restore_members(alloc, &mut history, &image.change_set)?;
    restore_all_versions(alloc, &mut history, &image.versions)?;
    Ok(history)
}

/// Adds members of the change set, the oldest first.
fn restore_members(
    alloc: Global,
    history: &mut History,
    members: &[Noted],
) -> Result<(), OutOfMemory>
    ensures members { OnOk result (history.new.members ≡ history.old.members ++ members.now) }
    ensures versions { (name : MethodName) → version_places history.new name ≡ version_places history.old name }
{
    for member in members {
        history.restore_member(alloc, copied(alloc, member)?)?;
    }
    Ok(())
}

fn copied(alloc: Global, member: &Noted) -> Result<Noted, OutOfMemory>
    ensures { IfOk result (λ copy. copy ≡ member.now) }
{
    let class_name = member.class_name.copy(alloc)?;
    let selector = member.selector.copy(alloc)?;
    Ok(Noted {
        at: member.at,
        kind: member.kind,
        class_name,
        side: member.side,
        selector,
    })
}

/// Adds the versions of all methods, where there are none yet.
fn restore_all_versions(
    alloc: Global,
    history: &mut History,
    all: &[MethodVersions],
) -> Result<(), OutOfMemory>
    requires different { AreDifferent (all_versions_of all.now) }
    requires none { (name : MethodName) → version_places history.old name ≡ [] }
    ensures members { history.new.members ≡ history.old.members }
    ensures versions { OnOk result ((name : MethodName) → version_places history.new name ≡ reverse (places_of (all_versions_of all.now) name)) }
{
    for versions in all {
        restore_versions(alloc, history, versions)?;
    }
    Ok(())
}

/// Adds the versions of one method, the oldest first.
fn restore_versions(
    alloc: Global,
    history: &mut History,
    versions: &MethodVersions,
) -> Result<(), OutOfMemory>
    ensures members { history.new.members ≡ history.old.members }
    ensures versions { OnOk result ((name : MethodName) → version_places history.new name
        ≡ with_versions (versions_of versions.now) name (version_places history.old name)) }
{
    for at in &versions.places {
        history.restore_version(
            alloc,
            &versions.class_name,
            versions.side,
            &versions.selector,
            *at,
        )?;
    }
    Ok(())
}
