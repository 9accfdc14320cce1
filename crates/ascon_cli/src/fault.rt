//! Why a line gets no result.

ghost use Rattle.ascon_cli.specs.Errors.{fault_of, message_of};
ghost use Rattle.ascon_cli.specs.declared.fault.Fault.TheVariants.{Line};
ghost use Rattle.std.specs.Prelude.{◌≡◌, Some};

use lines::hex::HexError;
use std::error::Error;
use std::fmt;

/// What is wrong with a line.
#[derive(Clone, Copy, PartialEq, Eq, Debug)]
pub enum LineError {
    UnknownCommand,
    ArgumentCount,
    NotHexadecimal,
    KeyLength,
    StringLength,
    OutputLength,
}

impl LineError {
    /// The answer to such a line.
    pub fn message(self) -> &'static str
        ensures { result.now ≡ message_of self }
    {
        match self {
            LineError::UnknownCommand => "error: unknown command",
            LineError::ArgumentCount => "error: wrong number of arguments",
            LineError::NotHexadecimal => "error: not hexadecimal",
            LineError::KeyLength => "error: key and nonce take 16 bytes",
            LineError::StringLength => "error: the string takes at most 256 bytes",
            LineError::OutputLength => "error: the length is a number from 0 to 65536",
        }
    }
}

impl fmt::Display for LineError {
    ghost output = { λ e. Some (message_of e) };

    fn fmt<W: fmt::Write>(&self, f: &mut fmt::Formatter<W>) -> fmt::Result {
        f.write_str(self.message())
    }
}

impl Error for LineError {}

/// Why no request was read: the line is wrong, or there is no memory.
#[derive(Clone, Copy, PartialEq, Eq, Debug)]
pub enum Fault {
    Line(LineError),
    Memory,
}

impl From<LineError> for Fault {
    ghost from_gives = { λ e f. f ≡ Line e };

    fn from(error: LineError) -> Fault {
        Fault::Line(error)
    }
}

impl From<HexError> for Fault {
    ghost from_gives = { λ e f. f ≡ fault_of e };

    fn from(error: HexError) -> Fault {
        match error {
            HexError::NotHex => Fault::Line(LineError::NotHexadecimal),
            HexError::Memory => Fault::Memory,
        }
    }
}
