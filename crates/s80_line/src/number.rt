// The number of an option.
ghost use Rattle.std.specs.Prelude.{◌≡◌, ◌<◌, ◌≤◌, ◌-◌, ◌^◌, IfSome, None, Some, if◌then◌else◌, map, max, min};
ghost use Rattle.std.specs.List.{list_all};
ghost use Rattle.s80_line.specs.Line.{is_digit, is_number, number_of, number_or as number_meant};

/// The number that an option's values come to: `without` where it doesn't stand, and where it stands once a number from 1 to `most` of at most so many
/// decimal digits. Answers `None` for any other.
pub fn number_or(values: &[&str], without: u64, digits: usize, most: u64) -> Option<u64>
    requires { most < 2 ^ 64 - 1 }
    ensures meant { result ≡ number_meant without digits most (map (λ s. s.now) values.now) }
    ensures bounded { IfSome result (λ number. number ≤ max without most) }
    ensures some { 1 ≤ without → IfSome result (λ number. 1 ≤ number) }
{
    match values {
        [] => Some(without),
        [value] => number_in(value.as_bytes(), digits, most),
        _ => None,
    }
}

/// The number from 1 to `most` that a word of at most so many decimal digits writes. Answers `None` for any other word.
pub fn number_in(word: &[u8], digits: usize, most: u64) -> Option<u64>
    requires { most < 2 ^ 64 - 1 }
    ensures meant { result ≡ (if is_number digits most word.now then Some (number_of word.now) else None) }
    ensures bounded { IfSome result (λ number. number ≤ most) }
    ensures some { IfSome result (λ number. 1 ≤ number) }
{
    if word.is_empty() || word.len() > digits || !are_digits(word) {
        return None;
    }
    let number = digits_value(word);
    (1..=most).contains(&number).then_some(number)
}

fn are_digits(word: &[u8]) -> bool
    ensures { result ≡ list_all is_digit word.now }
{
    word.iter().all(u8::is_ascii_digit)
}

// What digits write, or the largest number where it is larger.
fn digits_value(word: &[u8]) -> u64
    ensures { result ≡ min (number_of word.now) (2 ^ 64 - 1) }
{
    let mut number: u64 = 0;
    for byte in word {
        number = number
            .saturating_mul(10)
            .saturating_add(u64::from(byte.saturating_sub(b'0')));
    }
    number
}
