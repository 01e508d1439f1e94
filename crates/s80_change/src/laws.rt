// What holds of every text.
ghost use Rattle.std.specs.Prelude.{◌≡◌, ◌≤◌, ℕ, List, length};
ghost use Rattle.s80_chunk.specs.Chunks.{IsPlainText};
ghost use Rattle.s80_tree.specs.Tree.{DoItParts, MethodParts};
ghost use Rattle.s80_syntax.specs.Text.{IsDoItOf, IsMethodOf};
ghost use Rattle.s80_scope.specs.Fit.{AreTold, fit, measures};
ghost use Rattle.s80_form.specs.Form.{IsCondensingText};
ghost use Rattle.s80_change.specs.declared.change.Change.{Change};
ghost use Rattle.s80_change.specs.Block.{IsLawful};
ghost use Rattle.s80_change.specs.Check.{as_method, size_refusal, too_large};

/// Each measure of what a text of at most 65,535 bytes means can be told, and where they can, a refusal goes by them.
pub fn measures_are_told()
    ensures methods { (text : List ℕ) (m : MethodParts) → length text ≤ 65535 → IsMethodOf text m → AreTold (measures m) }
    ensures doits { (text : List ℕ) (d : DoItParts) → length text ≤ 65535 → IsDoItOf text d → AreTold (measures (as_method d)) }
    ensures exact { (m : MethodParts) → AreTold (measures m) → size_refusal m ≡ too_large (fit (measures m)) }
{}

/// A log may keep a doIt that asks to condense, and it is read back as that doIt.
pub fn a_condensing_is_a_doit()
    ensures { (text : List ℕ) → IsPlainText text → IsCondensingText text → IsLawful (Change.DoIt text) }
{}
