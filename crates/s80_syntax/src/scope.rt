// Which names may be assigned at a place.
ghost use Rattle.std.specs.Prelude.{◌≡◌};
ghost use Rattle.s80_syntax.specs.Word.{is_reserved};
ghost use Rattle.s80_syntax.specs.NameSet.{has_word};
ghost use Rattle.s80_syntax.specs.Scope.{assigns_at_home, assigns_in, assigns_in_block};

use crate::name_set::NameSet;

/// The names that are declared around a place.
#[derive(Clone, Copy)]
pub(crate) enum Scope<'s> {
    Home {
        parameters: &'s NameSet,
        temporaries: &'s NameSet,
    },
    Block {
        parameters: &'s NameSet,
        outer: &'s Scope<'s>,
    },
}

impl<'s> Scope<'s> {
    /// The names around what stands in no block.
    pub fn home(parameters: &'s NameSet, temporaries: &'s NameSet) -> Self
        ensures { assigns_in result ≡ assigns_at_home (has_word parameters.now) (has_word temporaries.now) }
    {
        Scope::Home {
            parameters,
            temporaries,
        }
    }

    /// The names around what stands in a block.
    pub fn within(parameters: &'s NameSet, outer: &'s Scope<'s>) -> Self
        ensures { assigns_in result ≡ assigns_in_block (has_word parameters.now) (assigns_in outer.now) }
    {
        Scope::Block { parameters, outer }
    }

    /// Whether a name may be assigned: it is no reserved word and means no parameter of the method.
    pub fn may_assign(&self, word: &[u8]) -> bool
        ensures { result ≡ assigns_in self.now word.now }
    {
        match self {
            Scope::Home {
                parameters,
                temporaries,
            } => {
                (!parameters.contains(word) || temporaries.contains(word)) && !is_reserved(word)
            }
            Scope::Block { parameters, outer } => {
                parameters.contains(word) || outer.may_assign(word)
            }
        }
    }
}

/// Whether a word is reserved: no variable can be named so.
#[tactic(auto, unfolding(crate::specs::Word::is_reserved))]
pub fn is_reserved(word: &[u8]) -> bool
    ensures { result ≡ is_reserved word.now }
{
    word == b"self".as_slice()
        || word == b"super".as_slice()
        || word == b"true".as_slice()
        || word == b"false".as_slice()
        || word == b"nil".as_slice()
        || word == b"thisContext".as_slice()
}
