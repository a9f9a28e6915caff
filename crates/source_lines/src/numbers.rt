//! Numbers and strings of DWARF: each is read with the bytes behind it.

ghost use Rattle.std.specs.Prelude.{◌≡◌, ◌==◌, ◌≤◌, ◌+◌, ℕ, false, Some, None, IfSome, IfNone, OnSome, length};
ghost use Rattle.std.specs.List.{position};
ghost use Rattle.source_lines.specs.Numbers.{last_bits, leb, leb_within, behind, behind_lebs, text};

// Bytes that hold 64 bits of a LEB128.
const MOST_BYTES: u8 = 10;

// The last byte of a LEB128.
fn last_bits(is_signed: bool, byte: u8) -> u64
    requires { byte ≤ 127 }
    ensures { result ≡ last_bits is_signed byte }
{
    let bits = u64::from(byte);
    if is_signed && byte >= 64 {
        return bits + 0xffff_ffff_ffff_ff80;
    }
    bits
}

// A LEB128 of at most so many bytes.
fn leb_within(left: u8, is_signed: bool, bytes: &[u8]) -> Option<(u64, &[u8])>
    ensures some { IfSome result (λ r. leb_within left is_signed bytes.now ≡ Some (r.0, r.1.now)) }
    ensures none { IfNone result (leb_within left is_signed bytes.now ≡ None) }
{
    if left == 0 {
        return None;
    }
    let (byte, rest) = bytes.split_first()?;
    if *byte < 128 {
        return Some((last_bits(is_signed, *byte), rest));
    }
    let (high, rest) = leb_within(left - 1, is_signed, rest)?;
    let value = high.wrapping_mul(128).wrapping_add(u64::from(*byte - 128));
    Some((value, rest))
}

/// A LEB128, as a number of 64 bits.
#[tactic(auto, unfolding(crate::specs::Numbers::leb))]
pub(crate) fn leb(is_signed: bool, bytes: &[u8]) -> Option<(u64, &[u8])>
    ensures some { IfSome result (λ r. leb is_signed bytes.now ≡ Some (r.0, r.1.now)) }
    ensures none { IfNone result (leb is_signed bytes.now ≡ None) }
{
    leb_within(MOST_BYTES, is_signed, bytes)
}

/// A LEB128 without sign.
pub(crate) fn unsigned(bytes: &[u8]) -> Option<(u64, &[u8])>
    ensures some { IfSome result (λ r. leb false bytes.now ≡ Some (r.0, r.1.now)) }
    ensures none { IfNone result (leb false bytes.now ≡ None) }
{
    leb(false, bytes)
}

/// The bytes behind so many of these numbers.
#[tactic(auto, using(crate::proofs::Counts::lebs_on, crate::proofs::Counts::lebs_cut))]
pub(crate) fn behind_lebs(count: u8, bytes: &[u8]) -> Option<&[u8]>
    ensures some { IfSome result (λ rest. behind_lebs count bytes.now ≡ Some rest.now) }
    ensures none { IfNone result (behind_lebs count bytes.now ≡ None) }
{
    let mut rest = bytes;
    'numbers: for _ in 0..count {
        let (_, after) = unsigned(rest)?;
        rest = after;
    }
    Some(rest)
}

/// The bytes behind so many bytes.
pub(crate) fn behind(count: u64, bytes: &[u8]) -> Option<&[u8]>
    ensures some { IfSome result (λ rest. behind count bytes.now ≡ Some rest.now) }
    ensures none { IfNone result (behind count bytes.now ≡ None) }
    ensures within { IfSome result (λ rest. length rest.now + count ≡ length bytes.now) }
{
    if count > bytes.len() as u64 {
        return None;
    }
    Some(&bytes[count as usize..])
}

fn first_zero(bytes: &[u8]) -> Option<usize>
    ensures value { result ≡ position (λ byte. byte == 0) bytes.now }
    ensures within { IfSome result (λ end. end + 1 ≤ length bytes.now) }
{
    bytes.iter().position(|&byte| byte == 0)
}

/// A string, without the zero that ends it.
pub(crate) fn text(bytes: &[u8]) -> Option<(&[u8], &[u8])>
    ensures some { IfSome result (λ r. text bytes.now ≡ Some (r.0.now, r.1.now)) }
    ensures none { IfNone result (text bytes.now ≡ None) }
{
    let end = first_zero(bytes)?;
    Some((&bytes[..end], &bytes[end + 1..]))
}
