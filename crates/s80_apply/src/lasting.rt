// What every list of changes leaves as it is.
ghost use Rattle.std.specs.Prelude.{◌≡◌, ◌≢◌, ◌≤◌, List, ℕ, Some, true, codes};
ghost use Rattle.std.specs.FinMap as map;
ghost use Rattle.s80_kernel.specs.Rows.{is_kernel_class};
ghost use Rattle.s80_class.specs.Classes.{Name, ClassRow, inherited_of, is_bits, with_comment};
ghost use Rattle.s80_change.specs.declared.change.Change.{Change};
ghost use Rattle.s80_apply.specs.Kernel.{kernel_classes};
ghost use Rattle.s80_apply.specs.List.{classes_of};

/// The classes of the kernel stay as they are defined, but for their comments.
pub fn kernel_classes_last()
    ensures { (changes : List Change) (name : Name) (row : ClassRow) → map.get kernel_classes name ≡ Some row
        → (comment : List ℕ) × (map.get (classes_of changes) name ≡ Some (with_comment comment row)) }
{}

/// Message has two instance variables, and no other class of the kernel has any; none has class-side variables.
pub fn kernel_classes_have_their_variables()
    ensures instance { (changes : List Change) (name : Name) → is_kernel_class name ≡ true → name ≢ codes "Message"
        → (inherited_of (classes_of changes) name).inst_vars ≡ 0 }
    ensures message { (changes : List Change) → (inherited_of (classes_of changes) (codes "Message")).inst_vars ≡ 2 }
    ensures class { (changes : List Change) (name : Name) → is_kernel_class name ≡ true
        → (inherited_of (classes_of changes) name).class_side_vars ≡ 0 }
{}

/// No class has more than 64 variables on a side, with all that it inherits.
pub fn classes_have_few_variables()
    ensures instance { (changes : List Change) (name : Name) (row : ClassRow) → map.get (classes_of changes) name ≡ Some row
        → (inherited_of (classes_of changes) name).inst_vars ≤ 64 }
    ensures class { (changes : List Change) (name : Name) (row : ClassRow) → map.get (classes_of changes) name ≡ Some row
        → (inherited_of (classes_of changes) name).class_side_vars ≤ 64 }
{}

/// A class of bytes or words has no instance variables.
pub fn classes_of_bits_have_no_variables()
    ensures { (changes : List Change) (name : Name) (row : ClassRow) → map.get (classes_of changes) name ≡ Some row
        → is_bits (inherited_of (classes_of changes) name).kind ≡ true → (inherited_of (classes_of changes) name).inst_vars ≡ 0 }
{}
