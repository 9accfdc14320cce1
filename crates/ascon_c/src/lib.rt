//! The ciphers for programs in C: the functions of `ascon` under C names. A slice is a pointer and a
//! length there, an array of sixteen bytes a pointer; bench/bench.c declares them.
#![tactic(auto)]

ghost use Rattle.std.specs.Prelude.{◌≡◌, length, replicate, is_some};
ghost use Rattle.std.specs.Option.{unwrap_or};
ghost use Rattle.ascon.specs.Aead.{ciphertext, tag as tag_of, opened};
ghost use Rattle.ascon.specs.Keyed.{keyed};
ghost use Rattle.ascon.specs.Permutation.{p12};
ghost use Rattle.ascon.specs.declared.purpose.Purpose.TheVariants.{Mark};

use ascon::{Aead, State};

#[unsafe(no_mangle)]
pub extern "C" fn ascon_seal(
    key: &[u8; 16],
    nonce: &[u8; 16],
    data: &[u8],
    text: &mut [u8],
    tag: &mut [u8; 16],
)
    ensures bytes { text.new ≡ ciphertext key.now nonce.now «data».now text.old }
    ensures tag { tag.new ≡ tag_of key.now nonce.now «data».now text.old }
{
    *tag = Aead { key, nonce, data }.seal(text);
}

// The result is a bool, and key, nonce and data are three parameters: C has neither Result nor Aead.
#[unsafe(no_mangle)]
pub extern "C" fn ascon_open(
    key: &[u8; 16],
    nonce: &[u8; 16],
    data: &[u8],
    text: &mut [u8],
    tag: &[u8; 16],
) -> bool
    ensures test { result ≡ is_some (opened key.now nonce.now «data».now text.old tag.now) }
    ensures bytes { text.new ≡ unwrap_or (opened key.now nonce.now «data».now text.old tag.now) (replicate (length text.old) 0) }
{
    Aead { key, nonce, data }.open(text, tag).is_ok()
}

#[unsafe(no_mangle)]
pub extern "C" fn ascon_mark(key: &[u8; 16], text: &[u8], out: &mut [u8; 16])
    ensures { out.new ≡ keyed Mark key.now text.now }
{
    *out = ascon::mark(key, text);
}

#[unsafe(no_mangle)]
pub extern "C" fn ascon_p12(state: &mut State)
    ensures { state.new ≡ p12 state.old }
{
    *state = state.p12();
}
