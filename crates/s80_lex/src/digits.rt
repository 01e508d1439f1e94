// How far a number reaches.
ghost use Rattle.std.specs.Prelude.{◌≡◌, ◌^◌, ◌<◌, ◌≤◌, length};
ghost use Rattle.s80_lex.specs.declared.digits.Digits.TheVariants.{Decimal};
ghost use Rattle.s80_lex.specs.Front.{passes, run_len, after_mark, with_mark, fraction_len, power_len, exponent_len, scaled_len, number_len};

/// The digits of a number without a radix, and those of one with a radix.
#[derive(Clone, Copy)]
pub(crate) enum Digits {
    Decimal,
    Capital,
}

impl Digits {
    fn takes(self, byte: u8) -> bool
        ensures { result ≡ passes self byte }
    {
        match self {
            Digits::Decimal => byte.is_ascii_digit(),
            Digits::Capital => byte.is_ascii_digit() || byte.is_ascii_uppercase(),
        }
    }
}

/// How many digits stand at the front.
fn run_len(bytes: &[u8], digits: Digits) -> usize
    ensures same { result ≡ run_len digits bytes.now }
    ensures within { result ≤ length bytes.now }
{
    bytes.iter().take_while(|byte| digits.takes(**byte)).count()
}

/// What stands behind a mark at the front, or nothing where the mark isn't there.
fn after_mark(bytes: &[u8], mark: u8) -> &[u8]
    ensures { result.now ≡ after_mark mark bytes.now }
{
    match bytes.split_first() {
        Some((first, after)) if *first == mark => after,
        _ => &[],
    }
}

/// A mark counts only before something.
fn with_mark(length: usize) -> usize
    requires { length < 2 ^ 63 }
    ensures { result ≡ with_mark length }
{
    if length == 0 { 0 } else { length + 1 }
}

fn fraction_len(bytes: &[u8], digits: Digits) -> usize
    ensures same { result ≡ fraction_len digits bytes.now }
    ensures within { result ≤ length bytes.now }
{
    with_mark(run_len(after_mark(bytes, b'.'), digits))
}

/// How many bytes the decimal digits of an exponent have, with their minus.
fn power_len(bytes: &[u8]) -> usize
    ensures same { result ≡ power_len bytes.now }
    ensures within { result ≤ length bytes.now }
{
    match run_len(bytes, Digits::Decimal) {
        0 => with_mark(run_len(after_mark(bytes, b'-'), Digits::Decimal)),
        length => length,
    }
}

fn exponent_len(bytes: &[u8]) -> usize
    ensures same { result ≡ exponent_len bytes.now }
    ensures within { result ≤ length bytes.now }
{
    with_mark(power_len(after_mark(bytes, b'e')))
}

/// How many bytes so many digits have, with the fraction and exponent behind them.
fn scaled_len(bytes: &[u8], run: usize, digits: Digits) -> usize
    requires { run ≤ length bytes.now }
    ensures same { result ≡ scaled_len digits run bytes.now }
    ensures within { result ≤ length bytes.now }
{
    let mantissa = run + fraction_len(&bytes[run..], digits);
    mantissa + exponent_len(&bytes[mantissa..])
}

/// How many bytes the number at the front has, which begins with a digit.
pub(crate) fn number_len(bytes: &[u8]) -> usize
    requires { 0 < run_len Decimal bytes.now }
    ensures same { result ≡ number_len bytes.now }
    ensures within { result ≤ length bytes.now }
{
    let length = run_len(bytes, Digits::Decimal);
    let after = after_mark(&bytes[length..], b'r');
    match run_len(after, Digits::Capital) {
        0 => scaled_len(bytes, length, Digits::Decimal),
        digits => length + 1 + scaled_len(after, digits, Digits::Capital),
    }
}
