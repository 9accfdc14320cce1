//! The ten commands of a box, over any suite of ciphers.
#![tactic(auto)]

pub mod blobs;
pub mod buffer;
pub mod cipher;
pub mod device;
pub mod placing;
mod spare;
pub mod text;
