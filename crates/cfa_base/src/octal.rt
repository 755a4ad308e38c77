// Octal digits.
ghost use Rattle.std.specs.Prelude.{◌≡◌, ◌<◌};
ghost use Rattle.std.specs.List.{list_all};
ghost use Rattle.cfa_base.specs.Octal.{is_octal_digit, octal_digit};

fn is_octal_digit(byte: u8) -> bool
    ensures { result ≡ is_octal_digit byte }
{
    matches!(byte, b'0'..=b'7')
}

/// Whether each byte is an octal digit.
pub fn are_octal_digits(text: &[u8]) -> bool
    ensures { result ≡ list_all is_octal_digit text.now }
{
    text.iter().all(|byte| is_octal_digit(*byte))
}

/// The last octal digit of a number.
pub fn octal_digit(number: u16) -> u8
    ensures value { result ≡ octal_digit number }
    ensures ascii { result < 128 }
{
    b'0' + (number % 8) as u8
}
