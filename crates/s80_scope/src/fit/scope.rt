// Which names are declared at a place.
ghost use Rattle.std.specs.Prelude.{◌≡◌, false};
ghost use Rattle.s80_syntax.specs.NameSet.{has_word};
ghost use Rattle.s80_scope.specs.Scope.{declared_in, has_either};

use s80_syntax::NameSet;

/// The names that are declared around a place.
#[derive(Clone, Copy)]
pub(crate) enum Scope<'s> {
    Outside,
    Within {
        names: &'s NameSet,
        outer: &'s Scope<'s>,
    },
}

impl<'s> Scope<'s> {
    /// Where nothing is declared.
    pub fn outside() -> Self
        ensures { declared_in result ≡ (λ word. false) }
    {
        Scope::Outside
    }

    /// Where these names are declared too.
    pub fn within(names: &'s NameSet, outer: &'s Scope<'s>) -> Self
        ensures { declared_in result ≡ has_either (has_word names.now) (declared_in outer.now) }
    {
        Scope::Within { names, outer }
    }

    pub fn declares(&self, word: &[u8]) -> bool
        ensures { result ≡ declared_in self.now word.now }
    {
        match self {
            Scope::Outside => false,
            Scope::Within { names, outer } => names.contains(word) || outer.declares(word),
        }
    }
}
