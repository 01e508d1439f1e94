// What primitives keep.
ghost use Rattle.std.specs.Prelude.{All, List, ℕ};
ghost use Rattle.s80_class.specs.Table.{Table};
ghost use Rattle.s80_object.specs.declared.value.Value.{Value};
ghost use Rattle.s80_prims.specs.Kept.{HasNumbers, KeepsKnown};
ghost use Rattle.s80_prims.specs.Known.{AreKnown, IsKnown};
ghost use Rattle.s80_prims.specs.Primitives.{World, primitive};

/// Where each class of the kernel has a number, what a primitive answers to known values is known, and all that was known still is.
pub fn primitives_keep_known()
    ensures { (t : Table) (n : ℕ) (r : Value) (arguments : List Value) (w : World) → HasNumbers t → IsKnown t w.objects r
        → All (IsKnown t w.objects) arguments → AreKnown t w.objects → KeepsKnown t w.objects (primitive t n r arguments w) }
{}
