//! What a line asks for.

ghost use Rattle.ascon_cli.specs.Commands.{command_of};
ghost use Rattle.ascon_cli.specs.Errors.{Agrees};
ghost use Rattle.ascon_cli.specs.Format.{message, output, parts, request};
ghost use Rattle.ascon_cli.specs.Views.{asked_of, output_of, parts_of};
ghost use Rattle.ascon_cli.specs.Words.{spaced};
ghost use Rattle.ascon_cli.specs.declared.fault.LineError.TheVariants.{UnknownCommand};
ghost use Rattle.std.specs.Option.{ok_or};
ghost use Rattle.std.specs.Prelude.{◌≡◌};

use crate::fault::{Fault, LineError};
use crate::key::{Key, Label};
use crate::secret::Secret;
use crate::{arguments, split};
use ascon::Aead;
use std::alloc::Global;

/// What a text is sealed under.
#[derive(Drop)]
pub struct Context {
    pub associated: Secret,
    pub nonce: Key,
    pub key: Key,
}

impl Context {
    /// The cipher under this key and nonce, with this data.
    pub fn aead(&self) -> Aead<'_>
        ensures key { result.key.now ≡ self.now.key.secret }
        ensures nonce { result.nonce.now ≡ self.now.nonce.secret }
        ensures associated { result.«data».now ≡ self.now.associated }
    {
        Aead {
            key: self.key.as_array(),
            nonce: self.nonce.as_array(),
            data: self.associated.as_slice(),
        }
    }
}

/// The arguments of `seal` and `open`; of `open`, `text` is the sealed text and its tag.
#[derive(Drop)]
pub struct Packet {
    pub context: Context,
    pub text: Secret,
}

/// The arguments of `xof`.
#[derive(Drop)]
pub struct Output {
    pub label: Label,
    pub text: Secret,
    pub length: usize,
}

/// A line that has been read.
#[derive(Drop)]
pub enum Request {
    Seal(Packet),
    Open(Packet),
    Hash(Secret),
    Xof(Output),
}

/// What a line's first word names.
// Apart from `Request`, since the definition `command_of` speaks of it: a command stands before its arguments are read.
#[derive(Clone, Copy, PartialEq, Eq, Debug)]
pub enum Command {
    Seal,
    Open,
    Hash,
    Xof,
}

impl TryFrom<&[u8]> for Command {
    type Error = LineError;

    ghost try_from_gives = { λ w r. r ≡ ok_or (command_of w.now) UnknownCommand };

    fn try_from(word: &[u8]) -> Result<Command, LineError> {
        match word {
            b"seal" => Ok(Command::Seal),
            b"open" => Ok(Command::Open),
            b"hash" => Ok(Command::Hash),
            b"xof" => Ok(Command::Xof),
            _ => Err(LineError::UnknownCommand),
        }
    }
}

/// What `line` asks for.
pub fn read_request(heap: Global, line: &[u8]) -> Result<Request, Fault>
    ensures { Agrees asked_of (request line.now) result }
{
    let (word, rest) = split::split_word(line);
    match Command::try_from(word)? {
        Command::Seal => Ok(Request::Seal(read_packet(heap, rest)?)),
        Command::Open => Ok(Request::Open(read_packet(heap, rest)?)),
        Command::Hash => Ok(Request::Hash(read_message(heap, rest)?)),
        Command::Xof => Ok(Request::Xof(read_output(heap, rest)?)),
    }
}

// All arguments are counted before one is read, and read before their sizes are looked at.
// The heap and the rest stay apart: words are taken without the heap and read without the rest, so a struct of both would be opened at each step.
fn read_packet(heap: Global, rest: &[u8]) -> Result<Packet, Fault>
    ensures { Agrees parts_of (parts (spaced rest.now)) result }
{
    let (key, rest) = split::next_word(rest)?;
    let (nonce, rest) = split::next_word(rest)?;
    let (associated, rest) = split::next_word(rest)?;
    let text = split::only_word(rest)?;
    let key = arguments::bytes(heap, key)?;
    let nonce = arguments::bytes(heap, nonce)?;
    let associated = arguments::bytes(heap, associated)?;
    let text = arguments::bytes(heap, text)?;
    let context = Context {
        key: Key::try_from(key)?,
        nonce: Key::try_from(nonce)?,
        associated,
    };
    Ok(Packet { context, text })
}

fn read_message(heap: Global, rest: &[u8]) -> Result<Secret, Fault>
    ensures { Agrees (λ s. s) (message (spaced rest.now)) result }
{
    arguments::bytes(heap, split::only_word(rest)?)
}

fn read_output(heap: Global, rest: &[u8]) -> Result<Output, Fault>
    ensures { Agrees output_of (output (spaced rest.now)) result }
{
    let (string, rest) = split::next_word(rest)?;
    let (text, rest) = split::next_word(rest)?;
    let length = split::only_word(rest)?;
    let string = arguments::bytes(heap, string)?;
    let text = arguments::bytes(heap, text)?;
    let label = Label::try_from(string)?;
    let length = arguments::output_length(length)?;
    Ok(Output {
        label,
        text,
        length,
    })
}
