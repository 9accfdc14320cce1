//! A cipher for tests: no secrecy, exact bookkeeping.
#![tactic(auto)]

mod parts;
pub mod plain;
pub mod theorems;
