// The pattern of a method: its selector and its parameters.
ghost use Rattle.std.specs.Prelude.{◌≡◌, ◌<◌, ◌∷◌, [], length};
ghost use Rattle.s80_syntax.specs.Grammar.{IsPattern};
ghost use Rattle.s80_syntax.specs.Stack.{after_pattern, binary_parameter, method_start};
ghost use Rattle.s80_lex.specs.Text.{IsSlice};
ghost use Rattle.s80_syntax.specs.Word.{names_in};
ghost use Rattle.s80_syntax.specs.Literal.{KeywordNext};
ghost use Rattle.s80_syntax.specs.Method.{GoesTo, IsBinaryPattern};
ghost use Rattle.s80_syntax.specs.Reads.{AreSlices, bytes_of};
ghost use Rattle.s80_tree.specs.Name.{names_of};

use crate::fault::ParseFault;
use crate::names::declared;
use crate::tokens::{bytes, next, next_of, place_of, spelled};
use s80_base::Text;
use s80_lex::{Token, TokenKind};
use s80_tree::NamesAt;
use std::alloc::Global;

/// A selector and the parameters.
pub(crate) fn pattern<'t>(
    alloc: Global,
    text: &[u8],
    tokens: &'t [Token],
) -> Result<((Text, NamesAt), &'t [Token]), ParseFault>
    requires text { length text.now < 65536 }
    requires slices { AreSlices text.now tokens.now }
    ensures { GoesTo text.now (method_start ∷ []) (λ found. after_pattern (names_in (names_of found.1)) ∷ []) (λ found. IsPattern found.0 (names_of found.1)) tokens.now result }
{
    let Some((token, tail)) = next(tokens) else {
        return Err(ParseFault::Unexpected(place_of(text, tokens)));
    };
    match token.kind {
        TokenKind::Name => {
            let selector = spelled(alloc, text, token)?;
            Ok(((selector, NamesAt::empty(alloc)), tail))
        }
        TokenKind::Binary => binary_pattern(alloc, text, token, tail),
        TokenKind::Keyword => keyword_pattern(alloc, text, tokens),
        _ => Err(ParseFault::Unexpected(place_of(text, tokens))),
    }
}

/// A binary selector's parameter, behind the selector.
fn binary_pattern<'t>(
    alloc: Global,
    text: &[u8],
    selector: Token,
    tokens: &'t [Token],
) -> Result<((Text, NamesAt), &'t [Token]), ParseFault>
    requires text { length text.now < 65536 }
    requires slices { AreSlices text.now tokens.now }
    requires selector { IsSlice text.now selector }
    ensures { GoesTo text.now (binary_parameter ∷ []) (λ found. after_pattern (names_in (names_of found.1)) ∷ []) (λ found. IsBinaryPattern (bytes_of text.now selector) found.0 (names_of found.1)) tokens.now result }
{
    let Some((name, after)) = declared(alloc, text, tokens)? else {
        return Err(ParseFault::Unexpected(place_of(text, tokens)));
    };
    let mut parameters = NamesAt::empty(alloc);
    parameters.push(name)?;
    Ok(((spelled(alloc, text, selector)?, parameters), after))
}

/// Keywords, each with its parameter.
fn keyword_pattern<'t>(
    alloc: Global,
    text: &[u8],
    tokens: &'t [Token],
) -> Result<((Text, NamesAt), &'t [Token]), ParseFault>
    requires text { length text.now < 65536 }
    requires slices { AreSlices text.now tokens.now }
    requires keyword { KeywordNext tokens.now }
    ensures { GoesTo text.now (method_start ∷ []) (λ found. after_pattern (names_in (names_of found.1)) ∷ []) (λ found. IsPattern found.0 (names_of found.1)) tokens.now result }
{
    let mut selector = Text::empty(alloc);
    let mut parameters = NamesAt::empty(alloc);
    let mut rest = tokens;
    while let Some((token, tail)) = next_of(TokenKind::Keyword, rest) {
        let Some((name, after)) = declared(alloc, text, tail)? else {
            return Err(ParseFault::Unexpected(place_of(text, tail)));
        };
        selector.append(bytes(text, token))?;
        parameters.push(name)?;
        rest = after;
    }
    Ok(((selector, parameters), rest))
}
