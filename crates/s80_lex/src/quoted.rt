// Strings and comments.
ghost use Rattle.std.specs.Prelude.{◌≡◌, true};
ghost use Rattle.s80_lex.specs.Front.{FindsQuoted};
ghost use Rattle.s80_lex.specs.Spelling.{begins_with};

use crate::run::begins_with;

/// How many bytes the quoted text at the front has. Of two quotes in a row neither ends it.
pub(crate) fn quoted_len(bytes: &[u8], quote: u8) -> Option<usize>
    requires { begins_with quote bytes.now ≡ true }
    ensures { FindsQuoted quote result bytes.now }
{
    let mut length = 1;
    while length < bytes.len() {
        if bytes[length] != quote {
            length += 1;
        } else if begins_with(&bytes[length + 1..], quote) {
            length += 2;
        } else {
            return Some(length + 1);
        }
    }
    None
}
