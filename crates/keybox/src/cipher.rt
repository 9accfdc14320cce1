//! What a box asks of its ciphers.

ghost use Rattle.std.specs.Prelude.{◌≡◌, ◌≤◌, List, ℕ, [], length, OnErr};
ghost use Rattle.keys.specs.Algebra.{Algebra, role_of};
ghost use Rattle.keys.specs.Padded.{blank_key};
ghost use Rattle.keys.specs.Tables.{numbers_of};
ghost use Rattle.keybox.specs.Lent.{opened, tag_for, unwrapped};

use crate::buffer::Buffer;
use crate::text::{TEXT_LIMIT, Text};
use keys::refusal::NotOpened;
use keys::stamp::StampNumbers;
use keys::tag::Tag;

/// A suite of ciphers over keys of 16 bytes. `alg` is what it does with bytes: each method gives
/// just the bytes that `alg` gives. A `Key` owns memory that must be wiped; what is lent of it is
/// its bytes, and keys are written to lent memory, which the box wipes. To a cipher a role is a
/// byte, and any byte is answered: `role_of` says as which role.
// Not a `Role`: a caller that has a byte would have to refuse some of them first.
pub trait Cipher {
    ghost alg: { Self → Algebra (List ℕ) };

    /// A blob of the text.
    fn seal(&self, key: &[u8; 16], stamp: StampNumbers, text: Text<'_>, out: &mut Buffer)
        ensures { out.new ≡ (alg self.now).seal key.now (numbers_of stamp) text.entry.bytes.now };

    /// The text of a blob of `seal`.
    fn unseal(&self, key: &[u8; 16], blob: &[u8], out: &mut Buffer) -> Result<(), NotOpened>
        ensures text { opened result out.new ≡ (alg self.now).unseal key.now blob.now }
        ensures fits { length out.new ≤ TEXT_LIMIT }
        ensures wiped { OnErr result (out.new ≡ []) };

    /// A blob of the key with its role and whether it stays.
    fn wrap(
        &self,
        under: &[u8; 16],
        stamp: StampNumbers,
        role: u8,
        stays: bool,
        key: &[u8; 16],
        out: &mut Buffer,
    )
        ensures { out.new ≡ (alg self.now).wrap under.now (numbers_of stamp) (tag_for role stays) key.now };

    /// Writes the key of a blob of `wrap` to `out`, and gives the tag of that key.
    fn unwrap(&self, under: &[u8; 16], blob: &[u8], out: &mut [u8; 16]) -> Result<Tag, NotOpened>
        ensures slot { unwrapped result out.new ≡ (alg self.now).unwrap under.now blob.now }
        ensures wiped { OnErr result (out.new ≡ blank_key) };

    /// The mark of a text: 16 bytes by which a holder of the key knows the text again.
    fn mark(&self, key: &[u8; 16], text: &[u8]) -> [u8; 16]
        ensures { result ≡ (alg self.now).mark key.now text.now };

    /// The key that is derived from a base for a label and a role: the same each time.
    fn derive(&self, key: &[u8; 16], label: u8, role: u8, out: &mut [u8; 16])
        ensures { out.new ≡ (alg self.now).derive key.now label (role_of role) };

    /// The key that every box holds from the start.
    fn house(&self, out: &mut [u8; 16])
        ensures { out.new ≡ (alg self.now).house };

    /// The next key of box `number`, which drew `drawn` before. Keys are drawn from random bytes
    /// that the suite holds; whoever sends a command sees to it that enough of them are left.
    fn draw(&mut self, number: u32, drawn: u64, out: &mut [u8; 16])
        ensures same { alg self.new ≡ alg self.old }
        ensures bytes { out.new ≡ (alg self.old).draw number drawn };
}
