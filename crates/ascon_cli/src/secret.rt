//! Bytes that leave no trace.

ghost use Rattle.std.specs.Prelude.{◌≡◌, ◌⊎◌, [], ◌++◌, is_ok, if◌then◌else◌, length, replicate, take, ◌==◌, IfOk, OnOk};
ghost use Rattle.lines.specs.Hex.{decoded, encoded};
ghost use Rattle.ascon_cli.specs.Errors.{Agrees};
ghost use Rattle.ascon_cli.specs.declared.fault.LineError.TheVariants.{NotHexadecimal};
ghost use Rattle.std.specs.Borrow.{sem};
ghost use Rattle.std.specs.Option.{ok_or};

use crate::fault::Fault;
use lines::hex;
use std::alloc::{AllocError, Global};
use std::marker::Model;

/// Bytes on the heap, wiped before their memory is given back.
pub struct Secret {
    bytes: Vec<u8>,
}

impl Model for Secret {
    ghost use Rattle.std.specs.Prelude.{ℕ, List};

    ghost Value = { List ℕ };

    ghost view = { λ s. s.bytes.items };
}

impl Secret {
    ghost use Rattle.ascon_cli.specs.Lending.{LendsBytes};

    /// No bytes.
    pub fn new(heap: Global) -> Secret
        ensures { result ≡ [] }
    {
        Secret {
            bytes: Vec::new(heap),
        }
    }

    /// The bytes that `digits` stand for.
    pub fn from_digits(heap: Global, digits: &[u8]) -> Result<Secret, Fault>
        ensures { Agrees (λ s. s) (ok_or (decoded digits.now) NotHexadecimal) result }
    {
        Ok(Secret {
            bytes: hex::decode(heap, digits)?,
        })
    }

    /// No bytes, with room for as many as `capacity` says.
    pub fn with_capacity(heap: Global, capacity: usize) -> Result<Secret, AllocError>
        ensures { IfOk result (λ s. s ≡ []) }
    {
        Ok(Secret {
            bytes: Vec::with_capacity(heap, capacity)?,
        })
    }

    /// As many noughts as `length` says.
    pub fn zeros(heap: Global, length: usize) -> Result<Secret, AllocError>
        ensures { IfOk result (λ s. s ≡ replicate length 0) }
    {
        Ok(Secret {
            bytes: vec![in heap; 0; length]?,
        })
    }

    /// Where the memory comes from.
    pub fn heap(&self) -> Global {
        *self.bytes.allocator()
    }

    /// The bytes.
    pub fn as_slice(&self) -> &[u8]
        ensures { result.now ≡ self.now }
    {
        self.bytes.as_slice()
    }

    /// The bytes, to be written over: none is added, so no copy is left behind.
    pub fn as_mut_slice(&mut self) -> &mut [u8]
        ensures* writes_back { sem 𝓛 (LendsBytes self.entry result) }
        ensures value { result.now ≡ self.old }
    {
        self.bytes.as_mut_slice()
    }

    /// How many bytes there are.
    pub fn len(&self) -> usize
        ensures { result ≡ length self.now }
    {
        self.bytes.len()
    }

    /// Whether there is no byte.
    pub fn is_empty(&self) -> bool
        ensures { result ≡ (length self.now == 0) }
    {
        self.bytes.is_empty()
    }

    // A `Vec` that grows would leave its old bytes behind: they are moved here, and wiped.
    fn move_to(&mut self, capacity: usize) -> Result<(), AllocError>
        ensures { self.new ≡ self.old }
    {
        let mut other = Vec::with_capacity(self.heap(), capacity)?;
        other.extend_from_slice(self.bytes.as_slice())?;
        std::mem::swap(&mut self.bytes, &mut other);
        other.fill(0);
        Ok(())
    }

    /// Whether there is room for `more` bytes behind those that are there.
    pub fn has_room(&self, more: usize) -> bool {
        self.bytes.len().saturating_add(more) <= self.bytes.capacity()
    }

    /// Makes room for `more` bytes behind those that are there, in memory that grows where it lies.
    ///
    /// `aside` keeps its bytes where there is room already, and else has none then.
    #[inline(always)]
    pub fn reserve(&mut self, more: usize, aside: &mut Secret) -> Result<(), AllocError>
        ensures aside { (aside.new ≡ aside.old) ⊎ (aside.new ≡ []) }
        ensures same { self.new ≡ self.old }
    {
        if self.has_room(more) {
            return Ok(());
        }
        self.grow(more, aside)
    }

    // The heap may have to move what grows, and would leave its bytes behind: they lie in the
    // memory of `aside` meanwhile, and there are only noughts to move.
    fn grow(&mut self, more: usize, aside: &mut Secret) -> Result<(), AllocError>
        ensures aside { aside.new ≡ [] }
        ensures same { self.new ≡ self.old }
    {
        aside.clear();
        aside.extend(self.bytes.as_slice())?;
        self.bytes.fill(0);
        let result = self.bytes.reserve(more);
        self.bytes.as_mut_slice().copy_from_slice(aside.as_slice());
        aside.clear();
        result
    }

    /// Adds `more`, or nothing if there is no memory for it, in memory that grows as by `reserve`.
    #[inline(always)]
    pub fn extend_beside(&mut self, more: &[u8], aside: &mut Secret) -> Result<(), AllocError>
        ensures { self.new ≡ (if is_ok result then self.old ++ more.now else self.old) }
    {
        self.reserve(more.len(), aside)?;
        self.bytes.extend_from_slice(more)
    }

    /// Adds `more`, or nothing if there is no memory for it.
    pub fn extend(&mut self, more: &[u8]) -> Result<(), AllocError>
        ensures { self.new ≡ (if is_ok result then self.old ++ more.now else self.old) }
    {
        let length = self.bytes.len().saturating_add(more.len());
        if length > self.bytes.capacity() {
            self.move_to(length.saturating_mul(2))?;
        }
        self.bytes.extend_from_slice(more)
    }

    /// Adds the digits of `more`, or nothing if there is no memory for them.
    pub fn extend_in_digits(&mut self, more: &[u8]) -> Result<(), AllocError>
        ensures { self.new ≡ (if is_ok result then self.old ++ encoded more.now else self.old) }
    {
        let length = self
            .bytes
            .len()
            .saturating_add(more.len().saturating_mul(2));
        if length > self.bytes.capacity() {
            self.move_to(length.saturating_mul(2))?;
        }
        hex::encode_onto(more, &mut self.bytes)
    }

    /// Wipes all but the first `length` bytes, and has only these then.
    pub fn truncate(&mut self, length: usize)
        ensures { self.new ≡ take length self.old }
    {
        if length < self.bytes.len() {
            self.bytes[length..].fill(0);
            self.bytes.truncate(length);
        }
    }

    /// Wipes the bytes, and has none then.
    pub fn clear(&mut self)
        ensures { self.new ≡ [] }
    {
        self.truncate(0);
    }
}

impl Drop for Secret {
    fn drop(mut self) {
        self.bytes.fill(0);
        let Secret { bytes: _bytes } = self;
    }
}
