// Bytes in base sixteen, two digits to a byte.

ghost use Rattle.std.specs.Prelude.{◌≡◌, ◌<◌, true, is_some, IfOk, if◌then◌else◌, Some, None, vec_items, string_bytes, MatchResult, nat_lt};
ghost use Rattle.std.specs.Option.{option_map};
ghost use Rattle.std.specs.Char.{digit_char, digit_value};
ghost use Rattle.session.specs.Sixteen.{byte_of, hex_of, hex_text, HexReadsBack};

use std::alloc::{AllocError, Global};

// The bytes that the text writes, or none where it writes no bytes.
pub fn hex_bytes(heap: Global, text: &[u8]) -> Result<Option<Vec<u8>>, AllocError>
    ensures { MatchResult result (λ o. option_map vec_items o ≡ hex_of text.now) (λ _. is_some (hex_of text.now) ≡ true) }
{
    if !is_hex(text) {
        return Ok(None);
    }
    let mut bytes = Vec::new(heap);
    let (pairs, _) = text.as_chunks::<2>();
    for [high, low] in pairs {
        let Some(byte) = byte_of_digits(*high, *low) else {
            return Ok(None);
        };
        bytes.push(byte)?;
    }
    Ok(Some(bytes))
}

// The text that writes the bytes, which is read as the same bytes.
pub fn hex_text(heap: Global, bytes: &[u8]) -> Result<String, AllocError>
    ensures text { IfOk result (λ t. string_bytes t ≡ hex_text bytes.now) }
    ensures back { HexReadsBack }
{
    let mut text = String::new(heap);
    for b in bytes {
        text.push(digit_char(*b / 16))?;
        text.push(digit_char(*b % 16))?;
    }
    Ok(text)
}

fn is_hex(text: &[u8]) -> bool
    ensures { result ≡ is_some (hex_of text.now) }
{
    let (pairs, rest) = text.as_chunks::<2>();
    rest.is_empty()
        && pairs
            .iter()
            .all(|[high, low]| byte_of_digits(*high, *low).is_some())
}

fn byte_of_digits(high: u8, low: u8) -> Option<u8>
    ensures { result ≡ byte_of high low }
{
    let high = digit_value(high)?;
    let low = digit_value(low)?;
    Some(high * 16 + low)
}

// By cases: `to_digit` takes a char and gives a u32, two conversions more than the table has lines.
fn digit_value(c: u8) -> Option<u8>
    ensures { result ≡ (if nat_lt (digit_value c) 16 then Some (digit_value c) else None) }
{
    match c {
        b'0'..=b'9' => Some(c - b'0'),
        b'a'..=b'f' => Some(c - b'a' + 10),
        b'A'..=b'F' => Some(c - b'A' + 10),
        _ => None,
    }
}

// By cases: `from_digit` takes a u32 and gives an option, though each digit here has a char.
fn digit_char(d: u8) -> char
    requires { d < 16 }
    ensures { result ≡ digit_char d }
{
    char::from(if d < 10 { b'0' + d } else { b'a' + (d - 10) })
}
