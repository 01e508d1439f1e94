// Names of classes and variables.
ghost use Rattle.std.specs.Prelude.{◌≡◌, ◌↔◌, IsTrue};
ghost use Rattle.s80_form.specs.Name.{is_name, begins_with_capital, is_class_name, IsBrief, AreBrief};

use s80_base::{Names, Text};
use s80_lex::is_name as is_identifier;
use s80_syntax::is_reserved;

/// Names and texts are brief that have fewer bytes than this.
const BRIEF_LIMIT: usize = 1 << 32;

/// Whether a word is an identifier that isn't reserved, as names of variables are.
pub fn is_name(word: &[u8]) -> bool
    ensures { result ≡ is_name word.now }
{
    is_identifier(word) && !is_reserved(word)
}

/// Whether a class can be given this name: it is a name that begins with a capital letter, and isn't `Smalltalk` or `Transcript`.
pub fn is_class_name(word: &[u8]) -> bool
    ensures { result ≡ is_class_name word.now }
{
    is_name(word)
        && begins_with_capital(word)
        && !(word == b"Smalltalk".as_slice() || word == b"Transcript".as_slice())
}

fn begins_with_capital(word: &[u8]) -> bool
    ensures { result ≡ begins_with_capital word.now }
{
    match word {
        [] => false,
        [first, ..] => first.is_ascii_uppercase(),
    }
}

/// Whether a name or a text is brief.
pub fn is_brief(text: &Text) -> bool
    ensures { IsTrue result ↔ IsBrief text.now }
{
    text.bytes().len() < BRIEF_LIMIT
}

/// Whether each of these names is brief.
pub(crate) fn are_brief(names: &Names) -> bool
    ensures { IsTrue result ↔ AreBrief names.now }
{
    for i in 0..names.count() {
        if !is_brief(names.at(i)) {
            return false;
        }
    }
    true
}
