//! Hexadecimal: two digits for a byte, the high half first.
// Not the kit's crate `hex`: what was read before a bad sign is wiped here, and no further crate is trusted.

ghost use Rattle.std.specs.Prelude.{◌≡◌, ◌+◌, ◌*◌, ◌/◌, ◌<◌, ◌≤◌, ◌++◌, length, is_ok, if◌then◌else◌, Some, None, MatchOption, vec_len, vec_capacity};
ghost use Rattle.lines.specs.Hex.{byte, digit, decoded, encoded, following, sign, ReadsBack, WritesBack};
ghost use Rattle.lines.specs.declared.hex.HexError.{HexError};
ghost use Rattle.lines.specs.Outcome.{Decodes};

use std::alloc::{AllocError, Global};
use std::error::Error;
use std::fmt;

/// Why digits give no bytes.
#[derive(Clone, Copy, PartialEq, Eq, Debug)]
pub enum HexError {
    /// There is an odd number of them, or a sign that is no digit.
    NotHex,
    /// There is no memory for the bytes.
    Memory,
}

impl fmt::Display for HexError {
    fn fmt<W: fmt::Write>(&self, f: &mut fmt::Formatter<W>) -> fmt::Result {
        match self {
            HexError::NotHex => write!(f, "not hexadecimal"),
            HexError::Memory => write!(f, "out of memory"),
        }
    }
}

impl Error for HexError {}

impl From<AllocError> for HexError {
    ghost from_gives = { λ _ e. e ≡ HexError.Memory };

    fn from(_error: AllocError) -> HexError {
        HexError::Memory
    }
}

/// The bytes that `digits`, small or capital, stand for.
///
/// They may be a key: room for all is made first, so that growth leaves no copy,
/// and what was read before a bad sign is wiped.
pub fn decode(heap: Global, digits: &[u8]) -> Result<Vec<u8>, HexError>
    ensures { Decodes digits.now result }
{
    let mut bytes = Vec::with_capacity(heap, digits.len() / 2)?;
    if decode_onto(digits, &mut bytes).is_none() {
        bytes.fill(0);
        return Err(HexError::NotHex);
    }
    Ok(bytes)
}

// Adds the bytes of `digits` to `bytes`, which has room for them.
fn decode_onto(digits: &[u8], bytes: &mut Vec<u8>) -> Option<()>
    requires { vec_len bytes.old + length digits.now / 2 ≤ vec_capacity bytes.old }
    ensures { MatchOption result (decoded digits.now ≡ None) (λ _. following bytes.old.items (decoded digits.now) ≡ Some bytes.new.items) }
{
    let (pairs, []) = digits.as_chunks::<2>() else {
        return None;
    };
    for [high, low] in pairs {
        bytes.push_reserved(byte_of(*high, *low)?);
    }
    Some(())
}

// The byte of two digits.
fn byte_of(high: u8, low: u8) -> Option<u8>
    ensures { result ≡ byte (digit high) (digit low) }
{
    let high = char::from(high).to_digit(16)?;
    let low = char::from(low).to_digit(16)?;
    Some((high * 16 + low) as u8)
}

/// Adds the small digits of `bytes` to `text`, or nothing if there is no memory for them.
#[tactic(auto, using(crate::proofs::Digits::theorems))]
pub fn encode_onto(bytes: &[u8], text: &mut Vec<u8>) -> Result<(), AllocError>
    ensures bytes { text.new.items ≡ (if is_ok result then text.old.items ++ encoded bytes.now else text.old.items) }
    ensures reads_back { ReadsBack }
    ensures writes_back { WritesBack }
{
    let count = bytes.len().checked_mul(2).ok_or(AllocError)?;
    text.reserve(count)?;
    for byte in bytes {
        text.push_reserved(digit_sign(*byte / 16));
        text.push_reserved(digit_sign(*byte % 16));
    }
    Ok(())
}

// The small digit of a value below 16.
fn digit_sign(value: u8) -> u8
    requires { value < 16 }
    ensures { result ≡ sign value }
{
    char::from_digit(u32::from(value), 16).unwrap() as u8
}
