//! Numbers in assembly text.

ghost use Rattle.std.specs.Prelude.{◌≡◌, ◌≤◌, ◌⊎◌, ◌^◌, Ok};
ghost use Rattle.bpf_asm.specs.Numbers.{numeral, magnitude_named, number_named, within, number_said, wide_said, wide_within, offset_named, jump_said};

use crate::line::LineFault;

/// The number that digits write, of radix 10 or 16. What isn't below 2^64 is out of every range.
pub fn numeral(text: &[u8], radix: u32) -> Result<u64, LineFault>
    requires { (radix ≡ 10) ⊎ (radix ≡ 16) }
    ensures { result ≡ numeral radix text.now }
{
    if text.is_empty() {
        return Err(LineFault::BadNumber);
    }
    let mut value = Some(0u64);
    for byte in text {
        let Some(digit) = char::from(*byte).to_digit(radix) else {
            return Err(LineFault::BadNumber);
        };
        value = value
            .and_then(|v| v.checked_mul(u64::from(radix)))
            .and_then(|v| v.checked_add(u64::from(digit)));
    }
    value.ok_or(LineFault::OutOfRange)
}

// Digits, or `0x` and hexadecimal ones.
fn magnitude_named(text: &[u8]) -> Result<u64, LineFault>
    ensures { result ≡ magnitude_named text.now }
{
    match text {
        [b'0', b'x', digits @ ..] => numeral(digits, 16),
        _ => numeral(text, 10),
    }
}

// A magnitude, and whether `-` stands before it.
fn number_named(text: &[u8]) -> Result<(bool, u64), LineFault>
    ensures { result ≡ number_named text.now }
{
    match text {
        [b'-', digits @ ..] => Ok((true, numeral(digits, 10)?)),
        _ => Ok((false, magnitude_named(text)?)),
    }
}

// A magnitude behind its sign.
fn offset_named(text: &[u8]) -> Result<(bool, u64), LineFault>
    ensures { result ≡ offset_named text.now }
{
    match text {
        [b'-', digits @ ..] => Ok((true, numeral(digits, 10)?)),
        [b'+', digits @ ..] => Ok((false, numeral(digits, 10)?)),
        _ => Err(LineFault::BadNumber),
    }
}

// The number, where it lies between -half and half, half itself left out.
fn within(half: u64, number: (bool, u64)) -> Result<i64, LineFault>
    requires { half ≤ 2 ^ 31 }
    ensures { result ≡ within half number }
{
    let (is_negative, magnitude) = number;
    match is_negative {
        true if magnitude <= half => Ok(-(magnitude as i64)),
        false if magnitude < half => Ok(magnitude as i64),
        _ => Err(LineFault::OutOfRange),
    }
}

/// A number of 32 bits with its sign.
pub fn number(text: &[u8]) -> Result<i32, LineFault>
    ensures { result ≡ number_said text.now }
{
    Ok(within(1 << 31, number_named(text)?)? as i32)
}

/// A number of 64 bits without sign.
pub fn wide(text: &[u8]) -> Result<u64, LineFault>
    ensures { result ≡ wide_said text.now }
{
    match number_named(text)? {
        (true, magnitude) if magnitude > 0 => Err(LineFault::OutOfRange),
        (_, magnitude) => Ok(magnitude),
    }
}

/// The offset of a jump or in memory, of 16 bits.
pub fn jump(text: &[u8]) -> Result<i16, LineFault>
    ensures { result ≡ jump_said (2 ^ 15) text.now }
{
    Ok(within(1 << 15, offset_named(text)?)? as i16)
}

/// The offset of a long jump, of 32 bits.
pub fn jump_long(text: &[u8]) -> Result<i32, LineFault>
    ensures { result ≡ jump_said (2 ^ 31) text.now }
{
    Ok(within(1 << 31, offset_named(text)?)? as i32)
}
