// A list of tokens, and the tokens of a text.
ghost use Rattle.std.specs.Prelude.{◌≡◌, ◌<◌, ◌≤◌, ◌⊎◌, ◌++◌, IfOk, IfErr, OnOk, All, AllPairs, length, slice_get, Some};
ghost use Rattle.s80_lex.specs.declared.fault.LexFault.TheVariants.{Memory};
ghost use Rattle.s80_lex.specs.Text.{AreTokens, IsFirstFault, IsSlice, token_of};

use crate::fault::LexFault;
use crate::front::front;
use crate::part::Part;
use crate::token::Token;
use std::alloc::Global;
use std::marker::Model;

/// The tokens of a text, in their order. Contracts see the list.
#[derive(Debug, Drop)]
pub struct TokenList {
    tokens: Vec<Token>,
}

impl Model for TokenList {
    ghost use Rattle.std.specs.Prelude.{List};
    ghost use Rattle.s80_lex.specs.declared.token.Token.{Token};

    ghost Value = { List Token };

    ghost view = { λ l. l.tokens.items };
}

impl TokenList {
    pub fn count(&self) -> usize
        ensures { result ≡ length self.now }
    {
        self.tokens.len()
    }

    pub fn at(&self, i: usize) -> &Token
        requires { i < length self.now }
        ensures { slice_get self.now i ≡ Some result.now }
    {
        &self.tokens[i]
    }

    pub fn as_slice(&self) -> &[Token]
        ensures { result.now ≡ self.now }
    {
        &self.tokens
    }
}

/// Adds a part where it is a token.
fn add(tokens: &mut Vec<Token>, part: Part, from: usize, to: usize) -> Result<(), LexFault>
    requires ordered { from ≤ to }
    requires fits { to ≤ 65535 }
    ensures ok { OnOk result (tokens.new.items ≡ tokens.old.items ++ token_of part from to) }
    ensures err { IfErr result (λ fault. fault ≡ Memory) }
{
    if let Part::Token(kind) = part {
        tokens.push(Token {
            kind,
            from: from as u32,
            to: to as u32,
        })?;
    }
    Ok(())
}

/// The tokens of a text, or its first fault.
pub fn tokens(alloc: Global, bytes: &[u8]) -> Result<TokenList, LexFault>
    requires { length bytes.now ≤ 65535 }
    ensures found { IfOk result (λ tokens. AreTokens tokens bytes.now) }
    ensures slices { IfOk result (λ tokens. All (IsSlice bytes.now) tokens) }
    ensures ordered { IfOk result (λ tokens. AllPairs (λ a b. a.to ≤ b.from) tokens) }
    ensures fault { IfErr result (λ fault. (fault ≡ Memory) ⊎ IsFirstFault fault bytes.now) }
{
    let mut tokens = Vec::new(alloc);
    let mut place = 0;
    while place < bytes.len() {
        let (part, length) = match front(&bytes[place..]) {
            Ok(found) => found,
            Err(wrong) => return Err(wrong.at(place as u32)),
        };
        let end = place + length;
        add(&mut tokens, part, place, end)?;
        place = end;
    }
    Ok(TokenList { tokens })
}
