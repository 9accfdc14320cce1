//! The arguments of a line, one by one.

ghost use Rattle.std.specs.Prelude.{◌≡◌};
ghost use Rattle.ascon_cli.specs.Errors.{Agrees};
ghost use Rattle.ascon_cli.specs.Fields.{argument, output_length};

use crate::fault::{Fault, LineError};
use crate::secret::Secret;
use std::alloc::Global;

const LONGEST_NUMBER: usize = 5;

/// The most bytes of an output.
pub const LONGEST_OUTPUT: usize = 65536;

/// The bytes of an argument in hexadecimal.
pub fn bytes(heap: Global, word: &[u8]) -> Result<Secret, Fault>
    ensures { Agrees (λ s. s) (argument word.now) result }
{
    match word {
        b"-" => Ok(Secret::new(heap)),
        [] => Err(LineError::NotHexadecimal.into()),
        _ => Secret::from_digits(heap, word),
    }
}

/// The length that is asked of an output.
// Not by `parse`, which takes a `+`, and text: the tests before it would be as long as the loop.
pub fn output_length(word: &[u8]) -> Result<usize, LineError>
    ensures { result ≡ output_length word.now }
{
    if word.is_empty() || word.len() > LONGEST_NUMBER {
        return Err(LineError::OutputLength);
    }
    let mut value: usize = 0;
    for sign in word {
        let digit = char::from(*sign)
            .to_digit(10)
            .ok_or(LineError::OutputLength)?;
        value = value * 10 + digit as usize;
    }
    if value > LONGEST_OUTPUT {
        return Err(LineError::OutputLength);
    }
    Ok(value)
}
