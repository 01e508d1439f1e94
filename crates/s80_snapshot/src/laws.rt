// Laws of the images of lists.
ghost use Rattle.std.specs.Prelude.{◌≡◌, ◌<◌, ℕ, All, List, length};
ghost use Rattle.s80_change.specs.declared.change.Change.{Change};
ghost use Rattle.s80_change.specs.Block.{IsList};
ghost use Rattle.s80_history.specs.History.{HistoryState, IsHistoryOf};
ghost use Rattle.s80_class.specs.Known.{IsKnown};
ghost use Rattle.s80_apply.specs.Codes.{AreCodes};
ghost use Rattle.s80_apply.specs.List.{IsBuilt, state_of};
ghost use Rattle.s80_apply.specs.Placed.{placed_of};
ghost use Rattle.s80_apply.specs.System.{HasPlaces, IsSystemOf, SystemState};
ghost use Rattle.s80_image.specs.Answers.{AreVerified};
ghost use Rattle.s80_image.specs.Image.{ImageView, image_bytes};
ghost use Rattle.s80_image.specs.Together.{IsLawfulImage};
ghost use Rattle.s80_snapshot.specs.OfList.{IsImageOf};
ghost use Rattle.s80_snapshot.specs.Pictured.{IsCounted, IsPicture, sources_of};
ghost use Rattle.s80_snapshot.specs.Restored.{IsHistoryIn};
ghost use Rattle.s80_snapshot.specs.Sources.{AreSourcesOf, IsResumed};

use s80_apply::{
    classes_are_named, kernel_classes_last, kernel_sources_fit, places_are_of_the_state,
    sources_stand,
};
use s80_change::sources_have_selectors;
use s80_class::lineage_is_the_line;
use s80_compile::{messages_fit_their_selectors, related_code_is_verified, trees_are_well_sent};
use s80_fileout::a_file_of_all_classes_folds_back;
use s80_kernel::{found_methods_are_those_named, kernel_sources_are_plain};
use s80_method::shapes_have_as_many_variables;
use s80_verify::depths_verify;

/// The picture of the system and the history that a list makes is the image of that list.
pub fn a_picture_is_the_image_of_its_list()
    ensures { (changes : List Change) (system : SystemState) (history : HistoryState) (image : ImageView)
        → IsKnown system.table → HasPlaces system (placed_of changes) → AreCodes system.table system.methods → IsHistoryOf history changes
        → IsPicture system history (length changes) image → IsImageOf changes image }
{}

/// The image of a list is lawful where it is spelled in bytes, and its codes are verified.
pub fn images_of_lists_are_lawful()
    ensures lawful { (changes : List Change) (image : ImageView) → IsList changes → IsBuilt changes → IsImageOf changes image → IsCounted image
        → All (λ b. b < 256) (image_bytes image) → IsLawfulImage image }
    ensures verified { (changes : List Change) (image : ImageView) → IsList changes → IsImageOf changes image → AreVerified image }
{
    related_code_is_verified();
    messages_fit_their_selectors();
    trees_are_well_sent();
    depths_verify();
    shapes_have_as_many_variables();
    sources_have_selectors();
    lineage_is_the_line();
    classes_are_named();
    places_are_of_the_state();
    kernel_classes_last();
    sources_stand();
    a_file_of_all_classes_folds_back();
    found_methods_are_those_named();
    kernel_sources_are_plain();
    kernel_sources_fit();
}

/// The sources of the methods that a list makes are those of its image.
pub fn sources_of_a_list_are_those_of_its_image()
    ensures { (changes : List Change) (image : ImageView) → IsList changes → IsBuilt changes → IsImageOf changes image
        → AreSourcesOf image.classes (sources_of (λ m. m.source) (placed_of changes)) }
{
    classes_are_named();
    places_are_of_the_state();
    a_file_of_all_classes_folds_back();
    found_methods_are_those_named();
    kernel_sources_are_plain();
    kernel_sources_fit();
}

/// A system that is resumed with them has the classes and methods that the list makes, with the places of their sources.
pub fn a_resumed_system_is_that_of_its_list()
    ensures places { (changes : List Change) (image : ImageView) (system : SystemState) → IsImageOf changes image
        → IsResumed image.classes (sources_of (λ m. m.source) (placed_of changes)) system → HasPlaces system (placed_of changes) }
    ensures state { (changes : List Change) (image : ImageView) (system : SystemState) → IsImageOf changes image
        → IsResumed image.classes (sources_of (λ m. m.source) (placed_of changes)) system → IsSystemOf system (state_of changes) }
{
    classes_are_named();
    places_are_of_the_state();
}

/// So has a history.
pub fn a_resumed_history_is_that_of_its_list()
    ensures { (changes : List Change) (image : ImageView) (history : HistoryState) → IsImageOf changes image → IsHistoryIn image history → IsHistoryOf history changes }
{}
