//! Bytes and answers in words.

use std::convert::AsSlice;
use std::fmt;

/// Bytes as hexadecimal digits.
#[derive(Clone, Copy)]
pub struct Hex<T>(pub T);

impl<T: AsSlice<u8>> fmt::Display for Hex<T> {
    fn fmt<W: fmt::Write>(&self, f: &mut fmt::Formatter<W>) -> fmt::Result {
        for byte in self.0.as_slice() {
            write!(f, "{byte:02x}")?;
        }
        Ok(())
    }
}

/// What a box gives, behind the word for it.
#[derive(Clone, Copy)]
pub struct Named<T>(pub &'static str, pub T);

impl<T: fmt::Display> fmt::Display for Named<T> {
    fn fmt<W: fmt::Write>(&self, f: &mut fmt::Formatter<W>) -> fmt::Result {
        write!(f, "{} {}", self.0, self.1)
    }
}
