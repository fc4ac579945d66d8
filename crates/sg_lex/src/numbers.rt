// What digits stand for.
ghost use Rattle.std.specs.Prelude.{◌≡◌, ◌+◌, ◌*◌, ◌-◌};
ghost use Rattle.sg_lex.specs.Numbers.{bounded, number_of_digits};

/// What digits stand for; None where that is above the greatest number of 64 bits.
pub fn number_of_digits(digits: &[u8]) -> Option<u64>
    ensures { result ≡ number_of_digits digits.now }
{
    let mut value = 0;
    'digits: for digit in digits {
        value = with_digit(value, *digit)?;
    }
    Some(value)
}

// A number with one digit more after it; None where that is above the greatest of 64 bits.
fn with_digit(value: u64, digit: u8) -> Option<u64>
    ensures { result ≡ bounded (10 * value + (digit - 48)) }
{
    value
        .checked_mul(10)?
        .checked_add(u64::from(digit.saturating_sub(b'0')))
}
