//! A box that prints what it is told and what it answers.

ghost use Rattle.std.specs.Prelude.{◌≤◌, length};

use crate::words::{Hex, Named};
use keybox::buffer::Buffer;
use keybox::device::Device;
use keybox::text::{TEXT_LIMIT, Text};
use keys::refusal::Refusal;
use keys::role::Role;
use keys::tag::Tag;
use plain::plain::Plain;
use std::{fmt, io};

/// A box over the plain cipher; each command is printed with its answer.
#[derive(Drop)]
pub struct Session<'a, P> {
    rt: &'a P,
    number: u32,
    cipher: Plain,
    device: Device,
}

impl<'a, P: Print> Session<'a, P> {
    /// A new box of this number, which prints by `rt`.
    pub fn new(rt: &'a P, number: u32) -> Session<'a, P> {
        let cipher = Plain;
        let device = Device::start(&cipher, number);
        Session {
            rt,
            number,
            cipher,
            device,
        }
    }

    /// Draws a key.
    pub fn make(&mut self, tag: Tag) -> io::Result<()> {
        let answer = self.device.make(&mut self.cipher, tag);
        let stays = if tag.stays { " stays" } else { "" };
        println!(self.rt; "{}: make {}{stays}", self.number, tag.role)?;
        self.print_place(answer)
    }

    /// Takes in a key from outside.
    pub fn load(&mut self, role: Role, key: &[u8; 16]) -> io::Result<()> {
        let answer = self.device.load(role, key);
        println!(self.rt; "{}: load {role} {}", self.number, Hex(key))?;
        self.print_place(answer)
    }

    /// Gives a key away; noughts if the box refuses.
    pub fn show(&mut self, at: u8) -> io::Result<[u8; 16]> {
        let mut key = [0; 16];
        let answer = self.device.show(at, &mut key);
        println!(self.rt; "{}: show {at}", self.number)?;
        self.print_value(answer, "key", &key)?;
        Ok(key)
    }

    /// Gives a key away as a blob; no bytes if the box refuses.
    pub fn wrap(&mut self, at: u8, under: u8) -> io::Result<Buffer> {
        let mut blob = Buffer::new();
        let answer = self.device.wrap(&self.cipher, at, under, &mut blob);
        println!(self.rt; "{}: wrap {at} under {under}", self.number)?;
        self.print_value(answer, "blob", blob.as_slice())?;
        Ok(blob)
    }

    /// Takes in the key of a blob.
    pub fn unwrap(&mut self, under: u8, blob: &[u8]) -> io::Result<()> {
        let answer = self.device.unwrap(&self.cipher, under, blob);
        println!(self.rt; "{}: unwrap {} under {under}", self.number, Hex(blob))?;
        self.print_place(answer)
    }

    /// Gives a text as a blob; no bytes if the box refuses.
    pub fn seal(&mut self, at: u8, text: &[u8]) -> io::Result<Buffer>
        requires { length text.now ≤ TEXT_LIMIT }
    {
        let mut blob = Buffer::new();
        let fitting = Text::try_from(text).unwrap();
        let answer = self.device.seal(&self.cipher, at, fitting, &mut blob);
        println!(self.rt; "{}: seal {at} hex {}", self.number, Hex(text))?;
        self.print_value(answer, "blob", blob.as_slice())?;
        Ok(blob)
    }

    /// Opens a sealed blob.
    pub fn open(&mut self, at: u8, blob: &[u8]) -> io::Result<()> {
        let mut text = Buffer::new();
        let answer = self.device.open(&self.cipher, at, blob, &mut text);
        println!(self.rt; "{}: open {at} {}", self.number, Hex(blob))?;
        self.print_value(answer, "text", text.as_slice())
    }

    /// Marks a text.
    pub fn mark(&mut self, at: u8, text: &[u8]) -> io::Result<()> {
        let answer = self.device.mark(&self.cipher, at, text);
        println!(self.rt; "{}: mark {at} hex {}", self.number, Hex(text))?;
        self.print(answer.map(|mark| Named("mark", Hex(mark))))
    }

    /// Derives a key from a base.
    pub fn derive(&mut self, base: u8, label: u8, role: Role) -> io::Result<()> {
        let answer = self.device.derive(&self.cipher, base, label, role);
        println!(self.rt; "{}: derive {base} label {label} as {role}", self.number)?;
        self.print_place(answer)
    }

    /// Empties a place.
    pub fn forget(&mut self, at: u8) -> io::Result<()> {
        let answer = self.device.forget(at);
        println!(self.rt; "{}: forget {at}", self.number)?;
        self.print(answer.map(|()| "done"))
    }

    // Prints in which place a key now lies.
    fn print_place(&self, answer: Result<u8, Refusal>) -> io::Result<()> {
        self.print(answer.map(|at| Named("place", at)))
    }

    // Prints the bytes that the box gave.
    fn print_value(
        &self,
        answer: Result<(), Refusal>,
        word: &'static str,
        value: &[u8],
    ) -> io::Result<()> {
        self.print(answer.map(|()| Named(word, Hex(value))))
    }

    // Prints what the box gave, or why it refused.
    fn print<T: fmt::Display + Drop>(&self, answer: Result<T, Refusal>) -> io::Result<()> {
        match answer {
            Ok(given) => println!(self.rt; "   {given}"),
            Err(refusal) => println!(self.rt; "   refused by {}: {refusal}", u8::from(refusal)),
        }
    }
}
