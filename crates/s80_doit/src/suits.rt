// Laws of code that agrees with its source.
ghost use Rattle.std.specs.Prelude.{◌≡◌, ◌≤◌, ℕ, List, None, Ok, [], codes, length};
ghost use Rattle.s80_base.specs.declared.names.Side.{Side};
ghost use Rattle.s80_base.specs.declared.names.Side.TheVariants.{Instance};
ghost use Rattle.s80_tree.specs.Tree.{DoItParts};
ghost use Rattle.s80_syntax.specs.Text.{IsDoItOf};
ghost use Rattle.s80_code.specs.declared.code.Code.{Code};
ghost use Rattle.s80_compile.specs.Compiles.{Compiles};
ghost use Rattle.s80_change.specs.Check.{IsCheckOf, as_method, size_refusal};
ghost use Rattle.s80_class.specs.Classes.{Name};
ghost use Rattle.s80_class.specs.Table.{Table, IsNumberOf};
ghost use Rattle.s80_method.specs.Code.{IsMethodCode};
ghost use Rattle.s80_method.specs.Shape.{shape_of};
ghost use Rattle.s80_machine.specs.Sound.{Suits, SuitsMethod};

use s80_method::shapes_have_as_many_variables;

/// The code of a source that fits, as a method of a class of at most 64 variables on that side, suits the class and the selector.
pub fn method_code_suits()
    ensures { (t : Table) (c : ℕ) (name : Name) (side : Side) (selector source : List ℕ) (code : Code)
        → IsNumberOf t.names c name → IsCheckOf source (Ok selector) → length (shape_of t.classes name side).inst_vars ≤ 64
        → IsMethodCode t.classes name side selector source code → SuitsMethod t c side selector code }
{
    shapes_have_as_many_variables();
}

/// The code of a doIt that fits names no variable of the receiver, and has neither arguments nor a primitive.
pub fn doit_code_suits()
    ensures suits { (text : List ℕ) (tree : DoItParts) (code : Code) → IsDoItOf text tree → size_refusal (as_method tree) ≡ None
        → Compiles (as_method tree) (record { inst_vars = []; class_vars = [] }) (codes "UndefinedObject") Instance code → Suits 0 code }
    ensures arguments { (tree : DoItParts) (code : Code)
        → Compiles (as_method tree) (record { inst_vars = []; class_vars = [] }) (codes "UndefinedObject") Instance code → code.arguments ≡ 0 }
    ensures primitive { (tree : DoItParts) (code : Code)
        → Compiles (as_method tree) (record { inst_vars = []; class_vars = [] }) (codes "UndefinedObject") Instance code → code.primitive ≡ 0 }
{}
