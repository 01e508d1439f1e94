// Selectors, keyword by keyword.
ghost use Rattle.std.specs.Prelude.{◌≡◌, ◌∷◌, ◌≤◌, length, OnOk, ◌==◌};
ghost use Rattle.std.specs.List.{position_or_len};
ghost use Rattle.s80_lex.specs.Number.{behind};
ghost use Rattle.s80_decompile.specs.Printed.{Prints};
ghost use Rattle.s80_decompile.specs.TreeTokens.{part_token};

use crate::printer::Printer;
use s80_base::OutOfMemory;
use s80_lex::TokenKind;

/// Where the first colon stands, or the length where there is none.
fn colon(selector: &[u8]) -> usize
    ensures same { result ≡ position_or_len (λ b. b == 58) selector.now }
    ensures within { result ≤ length selector.now }
{
    selector.iter().take_while(|byte| **byte != b':').count()
}

/// The first keyword of a selector, or the binary selector that it is.
pub(crate) fn part(printer: &mut Printer, selector: &[u8]) -> Result<(), OutOfMemory>
    ensures { OnOk result (Prints printer.old printer.new (λ more. part_token selector.now ∷ more)) }
{
    let place = colon(selector);
    if place < selector.len() {
        printer.token(TokenKind::Keyword, &selector[..place + 1])
    } else {
        printer.token(TokenKind::Binary, selector)
    }
}

/// What stands behind the first keyword of a selector.
pub(crate) fn behind(selector: &[u8]) -> &[u8]
    ensures { result.now ≡ behind 58 selector.now }
{
    let place = colon(selector);
    if place < selector.len() {
        &selector[place + 1..]
    } else {
        &[]
    }
}
