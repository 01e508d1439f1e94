// Laws of code that agrees with its source.
ghost use Rattle.std.specs.Prelude.{◌≡◌, ◌≤◌, ℕ, List};
ghost use Rattle.s80_base.specs.declared.names.Side.{Side};
ghost use Rattle.s80_code.specs.declared.code.Code.{Code};
ghost use Rattle.s80_verify.specs.Record.{HasDepths};
ghost use Rattle.s80_syntax.specs.Text.{IsDoItOf, IsMethodOf};
ghost use Rattle.s80_tree.specs.Tree.{DoItParts, MethodParts};
ghost use Rattle.s80_scope.specs.declared.shape.Shape.{Shape};
ghost use Rattle.s80_scope.specs.FitStack.{stack, temporaries};
ghost use Rattle.s80_core.specs.Arms.{HaveArms};
ghost use Rattle.s80_core.specs.Core.{CoreTree};
ghost use Rattle.s80_core.specs.Elaborate.{elaborated};
ghost use Rattle.s80_core.specs.Measures.{CoreFits};
ghost use Rattle.s80_compile.specs.Compiles.{AreEqual, Compiles, IsCodeOf};
ghost use Rattle.s80_compile.specs.Sent.{AreWellSent, BodyIsWellSent, IsWellSent};

/// Code of a core tree that fits has a depth for each of its places, and so is verified.
pub fn related_code_is_verified()
    ensures { (m : MethodParts) (core : CoreTree) (class : List ℕ) (side : Side) (code : Code) →
        CoreFits (temporaries m) (stack m) core → stack m ≤ 32 → temporaries m ≤ 31 → IsWellSent core
        → IsCodeOf m core class side code → HasDepths code }
{}

/// Where each message has as many arguments as its selector has parameters, control has its arms, and so has the core tree.
pub fn messages_fit_their_selectors()
    ensures arms { (m : MethodParts) → AreWellSent m → HaveArms m }
    ensures core { (m : MethodParts) (shape : Shape) → AreWellSent m → IsWellSent (elaborated m shape) }
{}

/// In the tree of a text each message has as many arguments as its selector has parameters.
pub fn trees_are_well_sent()
    ensures method { (text : List ℕ) (m : MethodParts) → IsMethodOf text m → AreWellSent m }
    ensures doit { (text : List ℕ) (d : DoItParts) → IsDoItOf text d → BodyIsWellSent d.body }
{}

/// Two codes of one core tree in one class are equal, wherever their literals lie in memory; and so are two of one method.
pub fn one_code()
    ensures core { (m : MethodParts) (core : CoreTree) (class : List ℕ) (side : Side) (one other : Code)
        → IsCodeOf m core class side one → IsCodeOf m core class side other → AreEqual one other }
    ensures method { (m : MethodParts) (shape : Shape) (class : List ℕ) (side : Side) (one other : Code)
        → Compiles m shape class side one → Compiles m shape class side other → AreEqual one other }
{}
