//! Ascon-Hash256 and Ascon-CXOF128.

ghost use Rattle.std.specs.Prelude.{◌≡◌, ◌≤◌, Some, codes, length, is_ok, if◌then◌else◌, nat_le};
ghost use Rattle.ascon.specs.Hash.{add_word as word_added, absorbed_words, words, output, initial as initial_of, hash256 as hash_of, cxof128 as cxof_of, customized};

use crate::blocks::{PAD, last_block, word};
use crate::state::State;
use std::error::Error;
use std::fmt;

// The parameters of Ascon-Hash256 and of Ascon-CXOF128.
const HASH_IV: u64 = 0x0000_0801_00cc_0002;

const CXOF_IV: u64 = 0x0000_0800_00cc_0004;

/// The longest customization string, in bytes.
pub const STRING_LIMIT: usize = 256;

/// A customization string of more than 256 bytes.
#[derive(Clone, Copy, Debug, PartialEq, Eq)]
pub struct StringTooLong;

impl fmt::Display for StringTooLong {
    ghost output = { λ _. Some (codes "the customization string has more than 256 bytes") };

    fn fmt<W: fmt::Write>(&self, f: &mut fmt::Formatter<W>) -> fmt::Result {
        write!(f, "the customization string has more than 256 bytes")
    }
}

impl Error for StringTooLong {}

impl State {
    #[tactic(auto, unfolding(crate::specs::Hash::add_word))]
    pub(crate) fn add_word(self, w: u64) -> State
        ensures { result ≡ word_added self w }
    {
        State {
            x0: self.x0 ^ w,
            ..self
        }
    }

    // A whole message, padded. Apart from `absorb`, as is said there.
    pub(crate) fn absorb_words(self, message: &[u8]) -> State
        ensures { result ≡ absorbed_words self (words message.now) }
    {
        let (blocks, tail) = message.as_chunks::<8>();
        let s = blocks
            .iter()
            .fold(self, |s, block| s.add_word(word(block)).p12());
        s.add_word(word(&last_block(tail, PAD))).p12()
    }

    pub(crate) fn squeeze(self, out: &mut [u8])
        ensures { out.new ≡ output (length out.old) self }
    {
        // By an index, as in `encrypt`; and the last word is apart, since no p[12] follows it.
        let mut s = self;
        let mut at = 0;
        while out.len() - at > 8 {
            out[at..at + 8].copy_from_slice(&s.x0.to_le_bytes());
            s = s.p12();
            at += 8;
        }
        let n = out.len() - at;
        out[at..].copy_from_slice(&s.x0.to_le_bytes()[..n]);
    }
}

#[tactic(auto, unfolding(crate::specs::Hash::initial))]
fn initial(iv: u64) -> State
    ensures { result ≡ initial_of iv }
{
    State {
        x0: iv,
        x1: 0,
        x2: 0,
        x3: 0,
        x4: 0,
    }
    .p12()
}

/// Ascon-Hash256 of a message.
#[tactic(auto, unfolding(crate::specs::Hash::hash256))]
pub fn hash256(message: &[u8]) -> [u8; 32]
    ensures { result ≡ hash_of message.now }
{
    let mut digest = [0; 32];
    initial(HASH_IV).absorb_words(message).squeeze(&mut digest);
    digest
}

// The state of Ascon-CXOF128 once the customization string is absorbed.
#[tactic(auto, unfolding(crate::specs::Hash::customized, crate::specs::Hash::absorbed_words))]
fn customize(string: &[u8]) -> State
    requires { length string.now ≤ STRING_LIMIT }
    ensures { result ≡ customized string.now }
{
    let bits = 8 * string.len() as u64;
    initial(CXOF_IV).add_word(bits).p12().absorb_words(string)
}

/// Ascon-CXOF128: fills `out`; a string of more than 256 bytes is refused, and `out` is as it was.
#[tactic(auto, using(crate::proofs::HashLaws::cxof_customized))]
pub fn cxof128(string: &[u8], message: &[u8], out: &mut [u8]) -> Result<(), StringTooLong>
    ensures test { is_ok result ≡ nat_le (length string.now) STRING_LIMIT }
    ensures bytes { out.new ≡ (if is_ok result then cxof_of string.now message.now (length out.old) else out.old) }
{
    if string.len() > STRING_LIMIT {
        return Err(StringTooLong);
    }
    customize(string).absorb_words(message).squeeze(out);
    Ok(())
}
