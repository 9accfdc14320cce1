//! Memory for a blob or a text.

ghost use Rattle.std.specs.Prelude.{◌≡◌, ◌+◌, ◌≤◌, [], ◌++◌, length};

use crate::text::TEXT_LIMIT;
use keys::key::wipe;
use std::marker::Model;

/// How many bytes a blob has at most: those of a text, 12 of a stamp and 16 of an authentication
/// tag.
pub const BLOB_LIMIT: usize = TEXT_LIMIT + 28;

/// Up to `BLOB_LIMIT` bytes, in fixed memory, since a box has no heap. Noughts stand behind them.
// Not the kit's `ArrayVec`, which says nothing of the bytes behind its end.
#[derive(Drop)]
pub struct Buffer {
    bytes: [u8; BLOB_LIMIT],
    len: usize,
}

impl Model for Buffer {
    ghost use Rattle.std.specs.Prelude.{ℕ, List, take};
    ghost use Rattle.keybox.specs.Buffers.{Kept};

    ghost Value = { List ℕ };

    ghost view = { λ b. take b.len b.bytes };

    ghost invariant = { λ b. Kept b.len b.bytes };
}

impl Buffer {
    /// No bytes.
    #[tactic(auto, unfolding(keys::specs::Padded::padded))]
    pub fn new() -> Buffer
        ensures { result ≡ [] }
    {
        Buffer {
            bytes: [0; BLOB_LIMIT],
            len: 0,
        }
    }

    /// Wipes the bytes.
    pub fn clear(&mut self)
        ensures { self.new ≡ [] }
    {
        wipe(&mut self.bytes);
        self.len = 0;
    }

    /// Copies a part behind the bytes.
    #[tactic(auto, using(std::proofs::lemmas::Grind::common_steps, crate::proofs::BufferLaws::kept_more))]
    pub fn extend(&mut self, part: &[u8])
        requires { length self.old + length part.now ≤ BLOB_LIMIT }
        ensures { self.new ≡ self.old ++ part.now }
    {
        let end = self.len + part.len();
        self.bytes[self.len..end].copy_from_slice(part);
        self.len = end;
    }

    /// The bytes.
    pub fn as_slice(&self) -> &[u8]
        ensures value { result.now ≡ self.now }
        ensures bound { length result.now ≤ BLOB_LIMIT }
    {
        &self.bytes[..self.len]
    }
}
