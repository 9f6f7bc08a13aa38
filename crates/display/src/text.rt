// The data of an order: the word CLCSH and a number in decimal.
ghost use Rattle.std.specs.Prelude.{◌≡◌};
ghost use Rattle.decimal.specs.Decimal.{are_digits, is_numeral};
ghost use Rattle.display.specs.Profile.{most_digits, is_text};

// Whether every byte is a digit.
fn are_digits(digits: &[u8]) -> bool
    ensures { result ≡ are_digits digits.now }
{
    digits.iter().all(u8::is_ascii_digit)
}

// Whether a run is 1 to 8 digits, the first of several not 0.
fn is_numeral(digits: &[u8]) -> bool
    ensures { result ≡ is_numeral most_digits digits.now }
{
    (1..=8).contains(&digits.len())
        && are_digits(digits)
        && (digits.len() == 1 || digits[0] != b'0')
}

// Whether data are those of an order.
pub fn is_text(data: &[u8]) -> bool
    ensures { result ≡ is_text «data».now }
{
    data.starts_with(b"CLCSH") && is_numeral(&data[5..])
}
