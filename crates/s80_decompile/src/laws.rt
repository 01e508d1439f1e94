// Which trees texts have.
ghost use Rattle.std.specs.Prelude.{ℕ, List};
ghost use Rattle.s80_tree.specs.Tree.{MethodParts};
ghost use Rattle.s80_decompile.specs.Spellable.{IsSpellable};
ghost use Rattle.s80_decompile.specs.TreeText.{HasTree, method_text};

/// A spellable tree is that of its text, but for places.
pub fn a_spellable_tree_has_a_text()
    ensures { (m : MethodParts) → IsSpellable m → HasTree (method_text m) m }
{}

/// The tree of a text is spellable, whatever its places.
pub fn a_tree_of_a_text_is_spellable()
    ensures { (text : List ℕ) (m : MethodParts) → HasTree text m → IsSpellable m }
{}
