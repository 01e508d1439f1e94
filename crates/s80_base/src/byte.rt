// Bytes of texts.
ghost use Rattle.std.specs.Prelude.{◌≡◌};
ghost use Rattle.s80_base.specs.Byte.{is_separator};

/// Whether a byte is a space, a tab, a line feed, a form feed or a carriage return.
pub fn is_separator(byte: u8) -> bool
    ensures { result ≡ is_separator byte }
{
    matches!(byte, b' ' | b'\t' | b'\n' | b'\x0c' | b'\r')
}
