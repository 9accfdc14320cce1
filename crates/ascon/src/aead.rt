//! Ascon-AEAD128. Text is sealed and opened in place, so that lengths always fit and no second
//! copy of a text arises.

ghost use Rattle.std.specs.Prelude.{◌≡◌, ◌/◌, ◌<◌, true, codes, length, replicate, is_ok, is_some, Some};
ghost use Rattle.std.specs.Str.{bytes_eq};
ghost use Rattle.std.specs.Option.{unwrap_or};
ghost use Rattle.ascon.specs.Laws.{IsSealing};
ghost use Rattle.ascon.specs.Blocks.{padded};
ghost use Rattle.ascon.specs.Permutation.{p12 as permuted12};
ghost use Rattle.ascon.specs.Aead.{rate as rate_of, add as added, replace as replaced, add_key_high as key_added_high, add_key_low as key_added_low, initialized, absorbed, with_data, separated, begun, encrypted, after_text, decrypted, after_ciphertext, finalized, ciphertext, tag as tag_of, opened};

use crate::blocks::{PAD, are_bytes, block_of, is_pair, last_block, words};
use crate::state::State;
use std::error::Error;
use std::fmt;

// The parameters of Ascon-AEAD128.
const AEAD_IV: u64 = 0x0000_1000_808c_0001;

// The bit of x4 that parts associated data from text.
const TEXT_BIT: u64 = 1 << 63;

impl State {
    // `add` and `replace` are two steps of the standard; one with a parameter would be no plainer.
    #[tactic(auto, unfolding(crate::specs::Aead::add))]
    fn add(self, block: &[u8; 16]) -> State
        ensures { result ≡ added self block.now }
    {
        let (low, high) = words(block);
        State {
            x0: self.x0 ^ low,
            x1: self.x1 ^ high,
            ..self
        }
    }

    #[tactic(auto, unfolding(crate::specs::Aead::replace))]
    fn replace(self, block: &[u8; 16]) -> State
        ensures { result ≡ replaced self block.now }
    {
        let (x0, x1) = words(block);
        State { x0, x1, ..self }
    }

    #[tactic(auto, unfolding(crate::specs::Aead::rate))]
    fn rate(self) -> [u8; 16]
        ensures { result ≡ rate_of self }
    {
        block_of(self.x0, self.x1)
    }

    // Two steps again; with the words' places as parameters they would be no plainer.
    #[tactic(auto, unfolding(crate::specs::Aead::add_key_high))]
    fn add_key_high(self, key: &[u8; 16]) -> State
        ensures { result ≡ key_added_high key.now self }
    {
        let (low, high) = words(key);
        State {
            x2: self.x2 ^ low,
            x3: self.x3 ^ high,
            ..self
        }
    }

    #[tactic(auto, unfolding(crate::specs::Aead::add_key_low))]
    fn add_key_low(self, key: &[u8; 16]) -> State
        ensures { result ≡ key_added_low key.now self }
    {
        let (low, high) = words(key);
        State {
            x3: self.x3 ^ low,
            x4: self.x4 ^ high,
            ..self
        }
    }

    // Not one form with `absorb_words`: the check covers no closure over `&[u8; N]`, and a trait with
    // a type for each size of block would be longer than both loops.
    #[inline(always)]
    fn absorb(self, message: &[u8]) -> State
        ensures { result ≡ absorbed self (padded 16 message.now) }
    {
        let (blocks, tail) = message.as_chunks::<16>();
        let s = blocks.iter().fold(self, |s, block| s.add(block).p8());
        s.add(&last_block(tail, PAD)).p8()
    }

    #[inline(always)]
    #[tactic(auto, using(crate::proofs::AeadLaws::no_data, crate::proofs::AeadLaws::some_data))]
    fn absorb_data(self, ad: &[u8]) -> State
        ensures { result ≡ with_data self ad.now }
    {
        if ad.is_empty() { self } else { self.absorb(ad) }
    }

    // From associated data to text.
    fn separate(self) -> State
        ensures { result ≡ separated self }
    {
        State {
            x4: self.x4 ^ TEXT_BIT,
            ..self
        }
    }

    // The last block, which has fewer than sixteen bytes. Encryption and decryption, here and of whole
    // blocks, are not one form: it would take both steps and both pairs of definitions as parameters.
    #[tactic(auto, unfolding(crate::specs::Aead::encrypted, crate::specs::Aead::after_text))]
    fn encrypt_last(self, text: &mut [u8]) -> State
        requires { length text.old < 16 }
        ensures bytes { text.new ≡ encrypted 0 self text.old }
        ensures state { result ≡ after_text 0 self text.old }
    {
        // For speed alone: what is below does the same for an empty tail.
        if text.is_empty() {
            return self.add(&last_block(&[], PAD));
        }
        let s = self.add(&last_block(text, PAD));
        let n = text.len();
        text.copy_from_slice(&s.rate()[..n]);
        s
    }

    fn encrypt(self, text: &mut [u8]) -> State
        ensures bytes { text.new ≡ encrypted (length text.old / 16) self text.old }
        ensures state { result ≡ after_text (length text.old / 16) self text.old }
    {
        // By an index: what a loop writes through a `&mut` that moves along is not known after it.
        let mut s = self;
        let mut at = 0;
        while let Some(block) = text[at..].first_chunk::<16>() {
            s = s.add(block);
            text[at..at + 16].copy_from_slice(&s.rate());
            s = s.p8();
            at += 16;
        }
        s.encrypt_last(&mut text[at..])
    }

    // The last block, which has fewer than sixteen bytes.
    #[tactic(auto, using(crate::proofs::AeadLaws::add_noughts), unfolding(crate::specs::Aead::decrypted, crate::specs::Aead::after_ciphertext))]
    fn decrypt_last(self, text: &mut [u8]) -> State
        requires { length text.old < 16 }
        ensures bytes { text.new ≡ decrypted 0 self text.old }
        ensures state { result ≡ after_ciphertext 0 self text.old }
    {
        // For speed alone: what is below does the same for an empty tail.
        if text.is_empty() {
            return self.add(&last_block(&[], PAD));
        }
        let opened = self.add(&last_block(text, 0)).rate();
        let n = text.len();
        text.copy_from_slice(&opened[..n]);
        self.add(&last_block(text, PAD))
    }

    fn decrypt(self, text: &mut [u8]) -> State
        ensures bytes { text.new ≡ decrypted (length text.old / 16) self text.old }
        ensures state { result ≡ after_ciphertext (length text.old / 16) self text.old }
    {
        // By an index, as in `encrypt`.
        let mut s = self;
        let mut at = 0;
        while let Some(block) = text[at..].first_chunk::<16>() {
            let next = s.replace(block);
            let opened = s.add(block).rate();
            text[at..at + 16].copy_from_slice(&opened);
            s = next.p8();
            at += 16;
        }
        s.decrypt_last(&mut text[at..])
    }

    // The state whose x3 and x4 are the tag.
    fn finish(self, key: &[u8; 16]) -> State
        ensures { result ≡ key_added_low key.now (permuted12 (key_added_high key.now self)) }
    {
        self.add_key_high(key).p12().add_key_low(key)
    }

    #[tactic(auto, unfolding(crate::specs::Aead::finalized))]
    fn finalize(self, key: &[u8; 16]) -> [u8; 16]
        ensures { result ≡ finalized key.now self }
    {
        let s = self.finish(key);
        block_of(s.x3, s.x4)
    }

    // Whether `tag` is the tag; the one that would be right is never written to memory.
    #[tactic(auto, unfolding(crate::specs::Aead::finalized))]
    fn has_tag(self, key: &[u8; 16], tag: &[u8; 16]) -> bool
        ensures { result ≡ bytes_eq (finalized key.now self) tag.now }
    {
        let s = self.finish(key);
        is_pair(tag, s.x3, s.x4)
    }
}

/// A ciphertext and a tag that were not sealed under this key and nonce with this associated data.
#[derive(Clone, Copy, Debug, PartialEq, Eq)]
pub struct InvalidTag;

impl fmt::Display for InvalidTag {
    ghost output = { λ _. Some (codes "the tag is not that of this text") };

    fn fmt<W: fmt::Write>(&self, f: &mut fmt::Formatter<W>) -> fmt::Result {
        write!(f, "the tag is not that of this text")
    }
}

impl Error for InvalidTag {}

/// Ascon-AEAD128 with its key, nonce and associated data. A nonce is used once under a key.
#[derive(Clone, Copy)]
pub struct Aead<'a> {
    pub key: &'a [u8; 16],
    pub nonce: &'a [u8; 16],
    pub data: &'a [u8],
}

impl Aead<'_> {
    #[tactic(auto, unfolding(crate::specs::Aead::initialized))]
    fn initialize(self) -> State
        ensures { result ≡ initialized self.entry.key.now self.entry.nonce.now }
    {
        let (x1, x2) = words(self.key);
        let (x3, x4) = words(self.nonce);
        let s = State {
            x0: AEAD_IV,
            x1,
            x2,
            x3,
            x4,
        };
        s.p12().add_key_low(self.key)
    }

    // The state before the text. It and what it calls are compiled into `seal` and `open`, so that
    // the state stays in registers and leaves no copy on the stack.
    #[inline(always)]
    #[tactic(auto, unfolding(crate::specs::Aead::begun))]
    fn begin(self) -> State
        ensures { result ≡ begun self.entry.key.now self.entry.nonce.now self.entry.data.now }
    {
        self.initialize().absorb_data(self.data).separate()
    }

    /// Seals `text` in place and gives the tag.
    pub fn seal(self, text: &mut [u8]) -> [u8; 16]
        ensures bytes { text.new ≡ ciphertext self.entry.key.now self.entry.nonce.now self.entry.data.now text.old }
        ensures tag { result ≡ tag_of self.entry.key.now self.entry.nonce.now self.entry.data.now text.old }
        ensures opens { opened self.entry.key.now self.entry.nonce.now self.entry.data.now text.new result ≡ Some text.old }
    {
        are_bytes(text);
        self.begin().encrypt(text).finalize(self.key)
    }

    /// Opens `text` in place; where the tag is not its tag, noughts are left.
    pub fn open(self, text: &mut [u8], tag: &[u8; 16]) -> Result<(), InvalidTag>
        ensures test { is_ok result ≡ is_some (opened self.entry.key.now self.entry.nonce.now self.entry.data.now text.old tag.now) }
        ensures bytes { text.new ≡ unwrap_or (opened self.entry.key.now self.entry.nonce.now self.entry.data.now text.old tag.now) (replicate (length text.old) 0) }
        ensures only { is_ok result ≡ true → IsSealing self.entry.key.now self.entry.nonce.now self.entry.data.now text.new text.old tag.now }
    {
        are_bytes(text);
        if !self.begin().decrypt(text).has_tag(self.key, tag) {
            text.fill(0);
            return Err(InvalidTag);
        }
        Ok(())
    }
}
