//! Decimal numbers as a script writes them.
ghost use Rattle.std.specs.Prelude.{◌≡◌};
ghost use Rattle.tokens.specs.Numbers.{number_of, scanned, appended};

/// The number that a field writes: digits without needless leading zeros, up to 65,535.
pub fn number(field: &[u8]) -> Option<u16>
    ensures { result ≡ number_of field.now }
{
    match field {
        [] => None,
        [b'0', _, ..] => None,
        _ => scan(field),
    }
}

// The number that these digits write, up to 65,535.
fn scan(digits: &[u8]) -> Option<u16>
    ensures { result ≡ scanned 0 digits.now }
{
    digits
        .iter()
        .try_fold(0, |value, digit| append(value, *digit))
}

// The number with one digit more.
fn append(value: u16, digit: u8) -> Option<u16>
    ensures { result ≡ appended value digit }
{
    if !digit.is_ascii_digit() {
        return None;
    }
    value.checked_mul(10)?.checked_add(u16::from(digit - b'0'))
}
