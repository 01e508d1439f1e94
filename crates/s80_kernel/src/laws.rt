// Laws of the kernel's methods, for the crates above.
ghost use Rattle.std.specs.Prelude.{◌≡◌, ◌≢◌, ◌↔◌, ℕ, Bool, true, List, Some, map};
ghost use Rattle.std.specs.List.{All, AllPairs, Contains, flat_map};
ghost use Rattle.s80_kernel.specs.Rows.{is_kernel_class};
ghost use Rattle.s80_kernel.specs.Text.{kernel_text, sections};
ghost use Rattle.s80_kernel.specs.Methods.{IsPlainSource, KernelMethodRow, StandsIn, all_filed_in, filed_in, found_method, kernel_methods, key_of};

/// The methods are those of the sections, in their order and each with its class and side.
pub fn kernel_methods_are_those_of_the_sections()
    ensures { map filed_in kernel_methods ≡ flat_map all_filed_in sections }
{}

/// Each source stands in the kernel's text at its place.
pub fn kernel_sources_stand_in_the_text()
    ensures { All (StandsIn kernel_text) kernel_methods }
{}

/// Each source is filed in as it stands: it has no mark, begins with no separator, and is short enough.
pub fn kernel_sources_are_plain()
    ensures { All (λ row. IsPlainSource row.source) kernel_methods }
{}

/// Each method is one of a class of the kernel.
pub fn kernel_methods_are_of_kernel_classes()
    ensures { All (λ row. is_kernel_class row.class ≡ true) kernel_methods }
{}

/// No two methods have one class, side and selector.
pub fn kernel_methods_are_distinct()
    ensures { AllPairs (λ a b. key_of a ≢ key_of b) kernel_methods }
{}

/// What is found by a class, side and selector is the one method that they name.
pub fn found_methods_are_those_named()
    ensures { (class : List ℕ) (on_class_side : Bool) (selector : List ℕ) (row : KernelMethodRow)
        → found_method class on_class_side selector ≡ Some row
        ↔ Contains kernel_methods row × (key_of row ≡ (class, on_class_side, selector)) }
{}
