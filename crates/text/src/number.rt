// A number in decimal.
ghost use Rattle.std.specs.Prelude.{◌≡◌};
ghost use Rattle.text.specs.Numbers.{value_after, in_32_bits, number_32};

/// The value of digits alone, if it fits 32 bits.
fn digits_value(field: &[u8]) -> Option<u32>
    ensures { result ≡ in_32_bits (value_after 0 field.now) }
{
    let mut value: u32 = 0;
    for byte in field {
        let digit = char::from(*byte).to_digit(10)?;
        value = value.checked_mul(10)?.checked_add(digit)?;
    }
    Some(value)
}

/// A number of at most so many digits, with no leading zero but in 0 itself, if it fits 32 bits.
pub fn parse_number(field: &[u8], digits: usize) -> Option<u32>
    ensures { result ≡ number_32 digits field.now }
{
    match field {
        [] => None,
        _ if field.len() > digits => None,
        [b'0'] => Some(0),
        [b'0', ..] => None,
        _ => digits_value(field),
    }
}
