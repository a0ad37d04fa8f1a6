ghost use Rattle.std.specs.Prelude.{◌≡◌, ◌+◌, ◌/◌, ◌%◌, ◌<◌, ◌≤◌, ◌^◌, length, IsTrue};
ghost use Rattle.std.specs.Str.Parse.{AllDigits, digits_value};
ghost use Rattle.cal_units.specs.Digits.{fits, fits_byte};

fn fits_byte(pattern: u8, byte: u8) -> bool
    ensures { result ≡ fits_byte pattern byte }
{
    if pattern == b'd' {
        byte.is_ascii_digit()
    } else {
        pattern == byte
    }
}

/// Tests a text against a pattern of its length, in which `d` stands for any decimal digit.
pub(crate) fn fits(pattern: &[u8], text: &[u8]) -> bool
    ensures value { result ≡ fits pattern.now text.now }
    ensures len { IsTrue result → length text.now ≡ length pattern.now }
{
    if pattern.len() != text.len() {
        return false;
    }
    for (i, byte) in text.iter().enumerate() {
        if !fits_byte(pattern[i], *byte) {
            return false;
        }
    }
    true
}

/// The number that at most nine digits write.
pub(crate) fn number(digits: &[u8]) -> u32
    requires digits { AllDigits 10 digits.now }
    requires short { length digits.now ≤ 9 }
    ensures value { result ≡ digits_value 10 digits.now }
    ensures bound { result < 10 ^ length digits.now }
{
    let mut number: u32 = 0;
    for digit in digits {
        number = number * 10 + (*digit - b'0') as u32;
    }
    number
}

/// The last digit of a number.
pub(crate) fn last_digit(number: u32) -> u8
    ensures { result ≡ 48 + number % 10 }
{
    b'0' + (number % 10) as u8
}
