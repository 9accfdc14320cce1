//! The ciphers of NIST SP 800-232 (Ascon), each equal to its definition in specs/.
#![tactic(auto)]

mod aead;
mod blocks;
mod hash;
mod keyed;
mod permutation;
mod purpose;
mod state;
mod theorems;

pub use aead::{Aead, InvalidTag};
pub use hash::{STRING_LIMIT, StringTooLong, cxof128, hash256};
pub use keyed::{derive, mark};
pub use purpose::Purpose;
pub use state::State;
pub use theorems::laws;
