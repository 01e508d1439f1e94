// What the contracts of the parser say together: each law is what its function ensures, for every text.
ghost use Rattle.std.specs.Prelude.{◌≡◌, ◌≢◌, ℕ, List};
ghost use Rattle.s80_syntax.specs.Faults.{IsDoItText, IsMethodText};
ghost use Rattle.s80_syntax.specs.declared.fault.ParseFault.{ParseFault};
ghost use Rattle.s80_syntax.specs.declared.fault.ParseFault.TheVariants.{Memory};
ghost use Rattle.s80_syntax.specs.Text.{IsDoItOf, IsFaultOf, IsMethodOf};
ghost use Rattle.s80_tree.specs.Tree.{DoItParts, MethodParts};

/// A text has at most one tree, read as a method, and at most one, read as a doIt.
pub fn one_tree()
    ensures method { (text : List ℕ) (one other : MethodParts) →
        IsMethodOf text one → IsMethodOf text other → one ≡ other }
    ensures doit { (text : List ℕ) (one other : DoItParts) →
        IsDoItOf text one → IsDoItOf text other → one ≡ other }
{}

/// A text with a tree has no fault but being out of memory.
pub fn no_fault_beside_a_tree()
    ensures method { (text : List ℕ) (tree : MethodParts) (fault : ParseFault) →
        IsMethodOf text tree → IsFaultOf IsMethodText text fault → fault ≡ Memory }
    ensures doit { (text : List ℕ) (tree : DoItParts) (fault : ParseFault) →
        IsDoItOf text tree → IsFaultOf IsDoItText text fault → fault ≡ Memory }
{}

/// A text has at most one fault beside being out of memory, read as a method, and at most one, read as a doIt.
pub fn one_fault()
    ensures method { (text : List ℕ) (one other : ParseFault) → one ≢ Memory → other ≢ Memory →
        IsFaultOf IsMethodText text one → IsFaultOf IsMethodText text other → one ≡ other }
    ensures doit { (text : List ℕ) (one other : ParseFault) → one ≢ Memory → other ≢ Memory →
        IsFaultOf IsDoItText text one → IsFaultOf IsDoItText text other → one ≡ other }
{}
