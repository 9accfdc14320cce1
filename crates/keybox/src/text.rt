//! What a box seals.

ghost use Rattle.std.specs.Prelude.{◌≡◌, ◌≤◌, ◌<◌, length, MatchResult};
ghost use Rattle.keybox.specs.declared.text.TheConstants.{TEXT_LIMIT};

use std::error::Error;
use std::fmt;
use std::fmt::Display;

/// How many bytes a text has at most.
pub const TEXT_LIMIT: usize = 1024;

/// A text of at most `TEXT_LIMIT` bytes, which any cipher has room to seal.
#[derive(Clone, Copy)]
pub struct Text<'a> {
    bytes: &'a [u8],
    ghost fits: { length bytes.now ≤ TEXT_LIMIT },
}

/// More than `TEXT_LIMIT` bytes.
#[derive(Clone, Copy, Debug, PartialEq, Eq)]
pub struct TextTooLong;

impl Display for TextTooLong {
    fn fmt<W: fmt::Write>(&self, f: &mut fmt::Formatter<W>) -> fmt::Result {
        write!(f, "a text has at most 1,024 bytes")
    }
}

impl Error for TextTooLong {}

impl<'a> TryFrom<&'a [u8]> for Text<'a> {
    type Error = TextTooLong;

    ghost try_from_gives = { λ bytes outcome. MatchResult outcome (λ text. text.bytes.now ≡ bytes.now) (λ _. TEXT_LIMIT < length bytes.now) };

    fn try_from(bytes: &'a [u8]) -> Result<Text<'a>, TextTooLong> {
        if bytes.len() > TEXT_LIMIT {
            return Err(TextTooLong);
        }
        Ok(Text { bytes })
    }
}

impl<'a> Text<'a> {
    /// The bytes.
    pub fn as_slice(self) -> &'a [u8]
        ensures value { result.now ≡ self.entry.bytes.now }
        ensures bound { length result.now ≤ TEXT_LIMIT }
    {
        self.bytes
    }
}
