// Bytes as pairs of hexadecimal digits.
ghost use Rattle.std.specs.Prelude.{◌≡◌, ◌<◌, ◌⊎◌, [], IfSome, IfOk, None as Nothing, Ok as Good, Err as Bad, string_bytes, MatchResult};
ghost use Rattle.text.specs.Hex.{digit_of, digit_text, hex_text, hex_read, is_blank};

use crate::problems::{Problem, Slip};
use std::alloc::{AllocError, Global};

// The value of a hexadecimal digit.
fn digit_value(byte: u8) -> Option<u8>
    ensures value { result ≡ digit_of byte }
    ensures small { IfSome result (λ d. d < 16) }
{
    let value = char::from(byte).to_digit(16)?;
    u8::try_from(value).ok()
}

// The digit of a value below 16. By itself, since `{:02x}` of each byte takes four times as long.
fn digit_char(value: u8) -> char
    requires { value < 16 }
    ensures value { result ≡ digit_text value }
    ensures ascii { result < 128 }
{
    char::from_digit(u32::from(value), 16).unwrap_or('0')
}

/// A space or a tab.
pub fn is_blank(byte: u8) -> bool
    ensures { result ≡ is_blank byte }
{
    byte == b' ' || byte == b'\t'
}

/// The bytes that pairs of hexadecimal digits stand for; blanks may stand between pairs.
pub fn read_hex(heap: Global, text: &str) -> Result<Vec<u8>, Slip>
    ensures { MatchResult result (λ v. hex_read [] Nothing 0 text.now ≡ Good v.items) (λ e. (e.problem ≡ Problem.NoMemory) ⊎ (hex_read [] Nothing 0 text.now ≡ Bad e)) }
{
    let mut bytes = Vec::new(heap);
    let mut high: Option<u8> = None;
    let text = text.as_bytes();
    for (place, byte) in text.iter().enumerate() {
        match (digit_value(*byte), high) {
            (Some(low), Some(high_digit)) => {
                bytes
                    .push(16 * high_digit + low)
                    .map_err(|_| Problem::NoMemory.at(place))?;
                high = None;
            }
            (Some(digit), None) => high = Some(digit),
            (None, None) if is_blank(*byte) => {}
            (None, _) => return Err(Problem::ExpectedHexDigit.at(place)),
        }
    }
    match high {
        Some(_) => Err(Problem::ExpectedHexDigit.at(text.len())),
        None => Ok(bytes),
    }
}

/// The bytes as pairs of hexadecimal digits, without blanks. Reading them gives the bytes back.
pub fn write_hex(heap: Global, bytes: &[u8]) -> Result<String, AllocError>
    ensures text { IfOk result (λ s. string_bytes s ≡ hex_text bytes.now) }
    ensures back { IfOk result (λ s. hex_read [] Nothing 0 (string_bytes s) ≡ Good bytes.now) }
{
    let mut out = String::new(heap);
    for byte in bytes {
        out.push(digit_char(*byte / 16))?;
        out.push(digit_char(*byte % 16))?;
    }
    Ok(out)
}
