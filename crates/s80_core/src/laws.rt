// A tree that fits has a core tree that fits.
ghost use Rattle.std.specs.Prelude.{◌≡◌, ◌<◌, ◌≤◌, ℕ, length};
ghost use Rattle.s80_tree.specs.Tree.{MethodParts};
ghost use Rattle.s80_scope.specs.declared.shape.Shape.{Shape};
ghost use Rattle.s80_scope.specs.Fit.{fit, measures};
ghost use Rattle.s80_scope.specs.declared.fit.Fit.TheVariants.{Fits};
ghost use Rattle.s80_scope.specs.FitStack.{stack, temporaries};
ghost use Rattle.s80_scope.specs.Names.{AreInOrder, declarations_of, uses_of};
ghost use Rattle.s80_core.specs.Elaborate.{elaborated};
ghost use Rattle.s80_core.specs.Measures.{CoreFits};
ghost use Rattle.s80_core.specs.Arms.{HaveArms};

/// The core tree of a method that fits, in a class with at most 64 instance variables, fits into the same room.
pub fn a_fitting_tree_has_a_fitting_core()
    ensures { (m : MethodParts) (shape : Shape) → fit (measures m) ≡ Fits → AreInOrder (uses_of m) → HaveArms m
        → length shape.inst_vars ≤ 64 → CoreFits (temporaries m) (stack m) (elaborated m shape) }
{}

/// Each temporary is one declaration.
pub fn temporaries_are_declarations()
    ensures { (m : MethodParts) → length (declarations_of m) ≡ temporaries m }
{}
