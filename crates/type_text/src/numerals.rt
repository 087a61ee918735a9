//! Words that are names or numerals.
ghost use Rattle.std.specs.Prelude.{◌≡◌, ◌+◌, ◌-◌, ◌*◌, ◌^◌, ◌<◌};
ghost use Rattle.std.specs.Option.{SomeIff};
ghost use Rattle.std.specs.Char.{IsAsciiDigit};
ghost use Rattle.type_text.specs.TypeText.{is_name, numeral_of};

/// Whether the word begins with a letter or an underscore.
pub fn is_name(word: &[u8]) -> bool
    ensures { result ≡ is_name word.now }
{
    match word.first() {
        Some(first) => !first.is_ascii_digit(),
        None => false,
    }
}

/// The number that a word of decimal digits writes. None where another byte stands in it, or where the number is above
/// 4,294,967,295.
pub fn numeral(word: &[u8]) -> Option<u32>
    ensures { result ≡ numeral_of word.now }
{
    let mut number = 0;
    for digit in word {
        number = with_digit(number, *digit)?;
    }
    Some(number)
}

/// The number with one more digit at its end. None where the byte is no digit, or where the number would be above
/// 4,294,967,295.
fn with_digit(number: u32, digit: u8) -> Option<u32>
    ensures { SomeIff result (IsAsciiDigit digit × (number * 10 + (digit - 48) < 2 ^ 32)) (number * 10 + (digit - 48)) }
{
    if !digit.is_ascii_digit() {
        return None;
    }
    u32::try_from(u64::from(number) * 10 + u64::from(digit - b'0')).ok()
}
