//! Answers that wait to be written.

ghost use Rattle.std.specs.Prelude.{◌≡◌, ℕ, List, [], ◌++◌, is_ok, if◌then◌else◌, take};
ghost use Rattle.lines.specs.Hex.{encoded};

use crate::BUFFER;
use crate::arguments::LONGEST_OUTPUT;
use crate::secret::Secret;
use std::alloc::{AllocError, Global};
use std::marker::Model;

/// What waits when a line is answered is less than is written at once. To it come an output's
/// digits, which can be more than its line; digits of a text that are too many for `bytes` lie in
/// the line's memory (see `perform`).
const ROOM: usize = BUFFER + 2 * LONGEST_OUTPUT;

/// Bytes that are added to, in memory that grows where it lies and leaves no trace.
#[derive(Drop)]
pub struct Answers {
    bytes: Secret,
    // Where the bytes lie while their own memory grows.
    room: Secret,
}

impl Model for Answers {
    ghost Value = { List ℕ };

    ghost view = { λ a. a.bytes };
}

impl Answers {
    /// No bytes.
    ///
    /// The room is made now, so that it lies apart from what grows later. Where there is no memory
    /// for it, it is made as it is needed.
    pub fn new(heap: Global) -> Answers
        ensures { result ≡ [] }
    {
        Answers {
            bytes: Secret::new(heap),
            room: Secret::with_capacity(heap, ROOM).unwrap_or(Secret::new(heap)),
        }
    }

    /// The bytes.
    pub fn as_slice(&self) -> &[u8]
        ensures { result.now ≡ self.now }
    {
        self.bytes.as_slice()
    }

    /// Whether there is room for `more` bytes behind those that are there.
    pub fn has_room(&self, more: usize) -> bool {
        self.bytes.has_room(more)
    }

    /// Makes room for `more` bytes behind those that are there.
    #[inline(always)]
    pub fn reserve(&mut self, more: usize) -> Result<(), AllocError>
        ensures { self.new ≡ self.old }
    {
        self.bytes.reserve(more, &mut self.room)
    }

    /// Adds `more`, or nothing if there is no memory for it.
    #[inline(always)]
    pub fn extend(&mut self, more: &[u8]) -> Result<(), AllocError>
        ensures { self.new ≡ (if is_ok result then self.old ++ more.now else self.old) }
    {
        self.bytes.extend_beside(more, &mut self.room)
    }

    /// Adds the digits of `more`, or nothing if there is no memory for them.
    pub fn extend_in_digits(&mut self, more: &[u8]) -> Result<(), AllocError>
        ensures { self.new ≡ (if is_ok result then self.old ++ encoded more.now else self.old) }
    {
        self.reserve(more.len().saturating_mul(2))?;
        self.bytes.extend_in_digits(more)
    }

    /// Wipes all but the first `length` bytes, and has only these then.
    pub fn truncate(&mut self, length: usize)
        ensures { self.new ≡ take length self.old }
    {
        self.bytes.truncate(length);
    }

    /// Wipes the bytes, and has none then.
    pub fn clear(&mut self)
        ensures { self.new ≡ [] }
    {
        self.bytes.clear();
    }
}
