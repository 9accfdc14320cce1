//! Hexadecimal, as programs read and write it in their lines.
#![tactic(auto)]

pub mod hex;
