// What the definitions say together.
ghost use Rattle.std.specs.Prelude.{◌≡◌, ℕ, List};
ghost use Rattle.s80_lex.specs.declared.fault.LexFault.{LexFault};
ghost use Rattle.s80_lex.specs.declared.token.Token.{Token};
ghost use Rattle.s80_lex.specs.Text.{AreTokens, IsFirstFault};

/// A text has one list of tokens at most, and one first fault at most, and not both.
pub fn one_reading()
    ensures tokens { (text : List ℕ) (some others : List Token) →
        AreTokens some text → AreTokens others text → some ≡ others }
    ensures faults { (text : List ℕ) (one other : LexFault) →
        IsFirstFault one text → IsFirstFault other text → one ≡ other }
    ensures apart { (text : List ℕ) (tokens : List Token) (fault : LexFault) →
        AreTokens tokens text → IsFirstFault fault text → ⊥ }
{}
