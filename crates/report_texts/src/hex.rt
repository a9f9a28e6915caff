//! Hex text, read and written: pairs of digits with blanks between them.

ghost use Rattle.std.specs.Prelude.{◌≡◌, ◌<◌, ◌++◌, Ok, IfOk, IfSome, OnOk, string_bytes};
ghost use Rattle.std.specs.Char.{digit_char};
ghost use Rattle.report_texts.specs.Hex.{digit_of, is_blank, pair_of, hex_of, IsRead, pair_text, hex_text, hex_lines};

use std::alloc::{AllocError, AllocFailed, Global};

/// Why a text is no hex text.
#[derive(Clone, Copy, Debug, PartialEq, Eq)]
pub enum HexFault {
    /// The byte at this place, from 0, begins no pair.
    NotHex(usize),
    /// Memory ran out.
    Memory,
}

impl<T: Drop> From<AllocFailed<T>> for HexFault {
    ghost use Rattle.std.specs.Prelude.{◌≡◌};
    ghost use Rattle.report_texts.specs.declared.hex.HexFault.TheVariants.{Memory};

    ghost from_gives = { λ _ e. e ≡ Memory };

    fn from(_e: AllocFailed<T>) -> HexFault {
        HexFault::Memory
    }
}

fn digit(byte: u8) -> Option<u8>
    ensures value { result ≡ digit_of byte }
    ensures small { IfSome result (λ d. d < 16) }
{
    match byte {
        b'0'..=b'9' => Some(byte - b'0'),
        b'a'..=b'f' => Some(byte - b'a' + 10),
        b'A'..=b'F' => Some(byte - b'A' + 10),
        _ => None,
    }
}

fn is_blank(byte: u8) -> bool
    ensures { result ≡ is_blank byte }
{
    matches!(byte, b' ' | b'\t' | b'\r' | b'\n')
}

// The byte that two digits say.
fn pair(high: u8, low: u8) -> Option<u8>
    ensures { result ≡ pair_of high low }
{
    let high = digit(high)?;
    let low = digit(low)?;
    Some(16 * high + low)
}

/// The bytes that a hex text says: pairs of digits of either case, with space, tab, CR and LF
/// allowed between pairs.
pub fn bytes_of(alloc: Global, text: &[u8]) -> Result<Vec<u8>, HexFault>
    ensures { IsRead (hex_of text.now) result }
{
    let mut bytes = Vec::new(alloc);
    let mut at = 0;
    'text: while at < text.len() {
        if is_blank(text[at]) {
            at += 1;
            continue;
        }
        if at + 1 >= text.len() {
            return Err(HexFault::NotHex(at));
        }
        let Some(byte) = pair(text[at], text[at + 1]) else {
            return Err(HexFault::NotHex(at));
        };
        bytes.push(byte)?;
        at += 2;
    }
    Ok(bytes)
}

fn digit_text(value: u8) -> char
    requires { value < 16 }
    ensures { result ≡ digit_char value }
{
    char::from_digit(u32::from(value), 16).unwrap_or('0')
}

/// Adds the byte's two digits.
pub fn write_pair(text: &mut String, byte: u8) -> Result<(), AllocError>
    ensures { OnOk result (string_bytes text.new ≡ string_bytes text.old ++ pair_text byte) }
{
    text.push(digit_text(byte / 16))?;
    text.push(digit_text(byte % 16))
}

/// The bytes in hex, two digits each.
pub fn hex_text(alloc: Global, bytes: &[u8]) -> Result<String, AllocError>
    ensures { IfOk result (λ s. string_bytes s ≡ hex_text bytes.now) }
{
    let mut text = String::new(alloc);
    for byte in bytes {
        write_pair(&mut text, *byte)?;
    }
    Ok(text)
}

/// The bytes in hex, eight a line: a space behind each pair, LF behind the eighth.
pub fn hex_lines(alloc: Global, bytes: &[u8]) -> Result<String, AllocError>
    ensures { IfOk result (λ s. string_bytes s ≡ hex_lines bytes.now) }
{
    let mut text = String::new(alloc);
    'bytes: for at in 0..bytes.len() {
        write_pair(&mut text, bytes[at])?;
        text.push(if at % 8 == 7 { '\n' } else { ' ' })?;
    }
    Ok(text)
}
