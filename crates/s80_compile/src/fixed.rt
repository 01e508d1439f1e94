// The constants that have instructions of their own.
ghost use Rattle.std.specs.Prelude.{◌≡◌, ◌<◌, IfSome};
ghost use Rattle.s80_base.specs.Literal.{literal_of};
ghost use Rattle.s80_core.specs.Measures.{fixed_number};

use s80_base::Literal;

/// The number of the instruction that pushes a constant, where there is one.
pub(crate) fn fixed_number(literal: &Literal) -> Option<u8>
    ensures is { result ≡ fixed_number (literal_of literal.now) }
    ensures low { IfSome result (λ n. n < 8) }
{
    match literal {
        Literal::True => Some(1),
        Literal::False => Some(2),
        Literal::Nil => Some(3),
        Literal::Small(-1) => Some(4),
        Literal::Small(0) => Some(5),
        Literal::Small(1) => Some(6),
        Literal::Small(2) => Some(7),
        _ => None,
    }
}
