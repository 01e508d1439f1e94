// Laws on what is accepted.
ghost use Rattle.std.specs.Prelude.{◌≡◌, All, List, Ok};
ghost use Rattle.s80_form.specs.declared.form.Form.{Form};
ghost use Rattle.s80_form.specs.Form.{IsBriefForm, IsLawfulForm};
ghost use Rattle.s80_change.specs.declared.change.Change.{Change};
ghost use Rattle.s80_change.specs.Block.{blocks, IsLawful};
ghost use Rattle.s80_apply.specs.Accept.{accept};
ghost use Rattle.s80_apply.specs.List.{IsAccepted, classes_of, state_of};
ghost use Rattle.s80_apply.specs.Named.{AreNamed};
ghost use Rattle.s80_apply.specs.Placed.{ArePlacesOf, placed_of};
ghost use Rattle.s80_apply.specs.Source.{AllStand};

use crate::kernel_sources::kernel_sources_fit;
use s80_change::sources_have_selectors;
use s80_kernel::{kernel_sources_are_plain, kernel_sources_stand_in_the_text};

/// The classes of each list have lawful names.
pub fn classes_are_named()
    ensures { (changes : List Change) → AreNamed (classes_of changes) }
{}

/// A brief form that a list of lawful changes accepts is lawful: its classes and methods are there, and have lawful names.
pub fn accepted_forms_are_lawful()
    ensures { (changes : List Change) (form : Form) → All IsLawful changes → IsBriefForm form
        → IsAccepted (accept (Change.Form form) (state_of changes)) → IsLawfulForm form }
{
    sources_have_selectors();
    kernel_sources_fit();
}

/// Beside the methods that a list makes stand the places of their sources.
pub fn places_are_of_the_state()
    ensures { (changes : List Change) → ArePlacesOf (placed_of changes) (state_of changes) }
{}

/// The sources of all methods that a list makes stand at their places: in the kernel's text, or in the log of the list.
pub fn sources_stand()
    ensures { (changes : List Change) → AllStand (blocks changes) (placed_of changes) }
{
    kernel_sources_stand_in_the_text();
    kernel_sources_are_plain();
}
