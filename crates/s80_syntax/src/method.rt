// Whole texts: methods and doIts.
ghost use Rattle.std.specs.Prelude.{◌<◌, ◌∷◌, [], length};
ghost use Rattle.s80_syntax.specs.Grammar.{IsBody};
ghost use Rattle.s80_syntax.specs.Limits.{home_assigns};
ghost use Rattle.s80_syntax.specs.Stack.{body as body_symbol};
ghost use Rattle.s80_syntax.specs.Word.{names_in};
ghost use Rattle.s80_syntax.specs.Method.{MeansDoIt, MeansMethod};
ghost use Rattle.s80_syntax.specs.Reads.{AreSlices, Parses};
ghost use Rattle.s80_tree.specs.Tree.{body_of};

use crate::expr::body;
use crate::fault::ParseFault;
use crate::head::{head, optional_temporaries};
use crate::name_set::NameSet;
use crate::pattern::pattern;
use crate::scope::Scope;
use crate::tokens::place_of;
use s80_lex::Token;
use s80_tree::{Body, DoItTree, MethodTree, NameAt};
use std::alloc::Global;

/// The body of a method or doIt, in which these names are declared.
fn home_body<'t>(
    alloc: Global,
    text: &[u8],
    parameters: &[NameAt],
    temporaries: &[NameAt],
    tokens: &'t [Token],
) -> Result<(Body, &'t [Token]), ParseFault>
    requires text { length text.now < 65536 }
    requires slices { AreSlices text.now tokens.now }
    ensures { Parses text.now 0 (home_assigns (names_in parameters.now) (names_in temporaries.now)) (body_symbol ∷ []) (λ found. IsBody (body_of found)) tokens.now result }
{
    let parameters = NameSet::of(alloc, parameters)?;
    let temporaries = NameSet::of(alloc, temporaries)?;
    let scope = Scope::home(&parameters, &temporaries);
    body(alloc, text, 0, &scope, tokens)
}

/// A method.
pub(crate) fn method(alloc: Global, text: &[u8], tokens: &[Token]) -> Result<MethodTree, ParseFault>
    requires text { length text.now < 65536 }
    requires slices { AreSlices text.now tokens.now }
    ensures { MeansMethod text.now tokens.now result }
{
    let ((selector, parameters), rest) = pattern(alloc, text, tokens)?;
    let ((primitive, temporaries), start) = head(alloc, text, rest)?;
    let (body, end) = home_body(alloc, text, &parameters.items, &temporaries.items, start)?;
    if !end.is_empty() {
        return Err(ParseFault::Unexpected(place_of(text, end)));
    }
    Ok(MethodTree::new(selector, parameters, temporaries, primitive, body))
}

/// A doIt.
pub(crate) fn doit(alloc: Global, text: &[u8], tokens: &[Token]) -> Result<DoItTree, ParseFault>
    requires text { length text.now < 65536 }
    requires slices { AreSlices text.now tokens.now }
    ensures { MeansDoIt text.now tokens.now result }
{
    let (temporaries, start) = optional_temporaries(alloc, text, tokens)?;
    let (body, end) = home_body(alloc, text, &[], &temporaries.items, start)?;
    if !end.is_empty() {
        return Err(ParseFault::Unexpected(place_of(text, end)));
    }
    Ok(DoItTree::new(temporaries, body))
}
