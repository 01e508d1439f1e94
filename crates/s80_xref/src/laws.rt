// That code names what its tree does.
ghost use Rattle.std.specs.Prelude.{◌≡◌, ◌↔◌, List, ℕ};
ghost use Rattle.std.specs.List.{Contains};
ghost use Rattle.s80_base.specs.declared.names.Side.{Side};
ghost use Rattle.s80_code.specs.declared.code.Code.{Code};
ghost use Rattle.s80_code.specs.Entries.{outer};
ghost use Rattle.s80_tree.specs.Tree.{MethodParts};
ghost use Rattle.s80_scope.specs.declared.shape.Shape.{Shape};
ghost use Rattle.s80_core.specs.Elaborate.{elaborated};
ghost use Rattle.s80_core.specs.Measures.{entries};
ghost use Rattle.s80_compile.specs.Compiles.{Compiles};
ghost use Rattle.s80_xref.specs.Named.{messages, outers_in, sent_in};

/// The code of a method sends the messages of its tree, in this order, and its frame has the outer names that the tree reads or assigns.
pub fn code_names_what_its_tree_does()
    ensures sends { (m : MethodParts) (shape : Shape) (class : List ℕ) (side : Side) (code : Code) → Compiles m shape class side code
        → sent_in code ≡ messages (elaborated m shape) }
    ensures outers { (m : MethodParts) (shape : Shape) (class : List ℕ) (side : Side) (code : Code) → Compiles m shape class side code
        → (name : List ℕ) → Contains (outers_in code) name ↔ Contains (entries (elaborated m shape)) (outer name) }
{}
