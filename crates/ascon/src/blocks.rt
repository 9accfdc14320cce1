//! Bytes as 64-bit words, lowest byte first, and the padding of a last block.

ghost use Rattle.std.specs.Prelude.{◌≡◌, ◌-◌, ◌<◌, ◌∷◌, ◌++◌, length, drop, replicate, bit_or, bit_xor};
ghost use Rattle.std.specs.Str.{bytes_eq};
ghost use Rattle.ascon.specs.Blocks.{Bytes, word as word_of, bytes};

// Does nothing, and says for the theorems that each byte of a slice is below 256, which the check
// does not know of what a `&mut` slice held before it was written.
pub(crate) fn are_bytes(b: &[u8])
    ensures { Bytes b.now }
{
    let _ = b.is_empty();
}

// The word of a block of eight bytes.
#[tactic(auto, unfolding(crate::specs::Blocks::word))]
pub(crate) fn word(block: &[u8; 8]) -> u64
    ensures { result ≡ word_of block.now }
{
    u64::from_le_bytes(*block)
}

// The two words of a block of sixteen bytes.
#[tactic(auto, using(crate::proofs::BlockLaws::halves))]
pub(crate) fn words(block: &[u8; 16]) -> (u64, u64)
    ensures low { result.0 ≡ word_of block.now }
    ensures high { result.1 ≡ word_of (drop 8 block.now) }
{
    let (halves, _) = block.as_chunks::<8>();
    (word(&halves[0]), word(&halves[1]))
}

// The block of two words.
pub(crate) fn block_of(low: u64, high: u64) -> [u8; 16]
    ensures { result ≡ bytes low ++ bytes high }
{
    let mut block = [0; 16];
    block[..8].copy_from_slice(&low.to_le_bytes());
    block[8..].copy_from_slice(&high.to_le_bytes());
    block
}

// Where sixteen bytes differ from those of two words.
fn difference(block: &[u8; 16], low: u64, high: u64) -> u64
    ensures { result ≡ bit_or (bit_xor low (word_of block.now)) (bit_xor high (word_of (drop 8 block.now))) }
{
    let (first, second) = words(block);
    (low ^ first) | (high ^ second)
}

// Whether sixteen bytes are those of two words: all of them are looked at, whatever they are, with
// no early exit and no branch.
#[tactic(auto, using(crate::proofs::TagLaws::tag_same))]
pub(crate) fn is_pair(block: &[u8; 16], low: u64, high: u64) -> bool
    ensures { result ≡ bytes_eq (bytes low ++ bytes high) block.now }
{
    difference(block, low, high) == 0
}

// The byte that begins the padding of a last block.
pub(crate) const PAD: u8 = 1;

// A last block: what is left of a message, a byte behind it, and noughts.
pub(crate) fn last_block<const N: usize>(tail: &[u8], mark: u8) -> [u8; N]
    requires { length tail.now < N }
    ensures { result ≡ tail.now ++ mark ∷ replicate (N - 1 - length tail.now) 0 }
{
    let n = tail.len();
    let mut block = [0; N];
    // The byte before the tail: the compiler then writes the noughts in one store.
    block[n] = mark;
    block[..n].copy_from_slice(tail);
    block
}
