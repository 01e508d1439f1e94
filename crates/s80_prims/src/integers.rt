// The primitives of two SmallIntegers.
ghost use Rattle.std.specs.Prelude.{◌≡◌, ◌≢◌, ◌≤◌, ◌<◌, ◌^◌, ◌≤ℤ◌, Bool, Option, pos, neg_ℤ};
ghost use Rattle.s80_prims.specs.Arithmetic.{arithmetic, divided, exact, floor_quotient, floor_rest, ranged, shifted, truth};

use s80_object::Value;

/// The answer of a primitive of this number for two SmallIntegers, where it has one.
pub fn arithmetic(n: u8, a: i32, b: i32) -> Option<Value>
    ensures { result ≡ arithmetic n a b }
{
    match n {
        1 => ranged(i64::from(a) + i64::from(b)),
        2 => ranged(i64::from(a) - i64::from(b)),
        3 => Some(truth(a < b)),
        4 => Some(truth(b < a)),
        5 => Some(truth(a <= b)),
        6 => Some(truth(a >= b)),
        7 => Some(truth(a == b)),
        8 => Some(truth(a != b)),
        9 => ranged(i64::from(a) * i64::from(b)),
        10 => exact(a, b),
        11 => rest(a, b),
        12 => quotient(a, b),
        14 => ranged(i64::from(a & b)),
        15 => ranged(i64::from(a | b)),
        16 => ranged(i64::from(a ^ b)),
        17 => shifted(a, b),
        _ => None,
    }
}

pub fn truth(is: bool) -> Value
    ensures { result ≡ truth is }
{
    if is { Value::True } else { Value::False }
}

fn ranged(n: i64) -> Option<Value>
    ensures { result ≡ ranged n }
{
    if -1_073_741_824 <= n && n < 1_073_741_824 {
        Some(Value::Small(n as i32))
    } else {
        None
    }
}

// The quotient where nothing is left.
fn exact(a: i32, b: i32) -> Option<Value>
    ensures { result ≡ divided exact a b }
{
    if b == 0 || floor_rest(a, b) != 0 {
        return None;
    }
    ranged(floor_quotient(a, b))
}

fn rest(a: i32, b: i32) -> Option<Value>
    ensures { result ≡ divided (λ a b. ranged (floor_rest a b)) a b }
{
    if b == 0 {
        return None;
    }
    ranged(floor_rest(a, b))
}

fn quotient(a: i32, b: i32) -> Option<Value>
    ensures { result ≡ divided (λ a b. ranged (floor_quotient a b)) a b }
{
    if b == 0 {
        return None;
    }
    ranged(floor_quotient(a, b))
}

// The quotient, rounded towards minus infinity.
fn floor_quotient(a: i32, b: i32) -> i64
    requires divisor { b ≢ pos 0 }
    ensures is { result ≡ floor_quotient a b }
    ensures least { neg_ℤ (pos (2 ^ 31)) ≤ℤ result }
    ensures greatest { result ≤ℤ pos (2 ^ 31) }
{
    let (a, b) = (i64::from(a), i64::from(b));
    if b > 0 {
        a.div_euclid(b)
    } else {
        (-a).div_euclid(-b)
    }
}

// What is left of the dividend.
fn floor_rest(a: i32, b: i32) -> i64
    requires divisor { b ≢ pos 0 }
    ensures { result ≡ floor_rest a b }
{
    i64::from(a) - i64::from(b) * floor_quotient(a, b)
}

// Times 2 to a power, or the quotient by it towards minus infinity. A number has 32 bits.
fn shifted(a: i32, by: i32) -> Option<Value>
    ensures { result ≡ shifted a by }
{
    if by < 0 {
        return ranged(i64::from(a >> by.unsigned_abs().min(31)));
    }
    if a == 0 {
        return Some(Value::Small(0));
    }
    if by > 30 {
        return None;
    }
    ranged(i64::from(a) * 2_i64.pow(by as u32))
}
