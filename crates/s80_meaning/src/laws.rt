// Laws of the meaning of trees.
ghost use Rattle.std.specs.Prelude.{◌≡◌, ℕ, pos, Some};
ghost use Rattle.std.specs.Option.{option_map};
ghost use Rattle.s80_class.specs.Table.{Table};
ghost use Rattle.s80_code.specs.declared.code.Code.{Code};
ghost use Rattle.s80_dict.specs.Table.{MethodsValue};
ghost use Rattle.s80_dict.specs.declared.dict.MethodEntry.{MethodEntry};
ghost use Rattle.s80_object.specs.declared.value.Value.TheVariants.{Small};
ghost use Rattle.s80_prims.specs.declared.stop.End.TheVariants.{Answer, Stopped};
ghost use Rattle.s80_prims.specs.declared.stop.Outcome.{Outcome};
ghost use Rattle.s80_prims.specs.declared.stop.Stop.TheVariants.{Budget};
ghost use Rattle.s80_machine.specs.Run.{RunsTo};
ghost use Rattle.s80_meaning.specs.Agreement.{IsOfTrees, MeansItsTrees};
ghost use Rattle.s80_meaning.specs.Tree.{Meant};
ghost use Rattle.s80_meaning.specs.Meaning.{Methods, eval};
ghost use Rattle.s80_meaning.specs.Renamed.{AreOneHouse, AreToldAlike, IsByName};
ghost use Rattle.s80_meaning.specs.Worked.{end_of, endless, sum, twice};

/// Some trees, evaluated: `3 + 4`, a loop without an end under a budget, and a block that is activated twice.
pub fn worked_trees()
    ensures sum { (t : Table) (methods : Methods) (budget : ℕ)
        → option_map end_of (eval t methods sum budget) ≡ Some (Answer (Small (pos 7)), 0) }
    ensures endless { (t : Table) (methods : Methods)
        → option_map end_of (eval t methods endless 5) ≡ Some (Stopped (Budget 5), 5) }
    ensures twice { (t : Table) (methods : Methods)
        → option_map end_of (eval t methods twice 9) ≡ Some (Answer (Small (pos 7)), 2) }
{}

/// What a doIt comes to hangs on the classes and their methods by their names, and not on the numbers that the classes have.
pub fn answers_are_by_name()
    ensures { (t u : Table) (methods others : Methods) (meant : Meant) (budget : ℕ) → AreOneHouse t u methods others
        → IsByName t u methods others meant budget }
{}

/// Code means its trees: what a run of a doIt's code comes to is what its tree comes to among the trees of the methods, whatever trees
/// the codes are compiled from, where each message has as many arguments as its selector has parameters. The end, the transcript, the
/// ticks, the words and the numbers of methods are the same, and so are the objects but for where blocks begin: a tree's block has its
/// number in its method, a code's the place where the block of this number begins.
pub fn code_means_its_trees()
    ensures { (t : Table) (codes : MethodsValue (MethodEntry Code)) (code : Code) (budget : ℕ) (ran : Outcome) → RunsTo t codes code budget ran
        → MeansItsTrees t codes code budget ran }
{}

/// An outcome of trees is told as the run's whose outcome it is: no text says where a block begins.
pub fn trees_are_told_alike()
    ensures { (t : Table) (codes : MethodsValue (MethodEntry Code)) (code : Code) (budget : ℕ) (methods : Methods) (meant : Meant) (ran : Outcome)
        → IsOfTrees t codes code budget methods meant ran
        → (outcome : Outcome) × (eval t methods meant budget ≡ Some outcome) × AreToldAlike t t outcome ran }
{}
