//! The plain cipher.

ghost use Rattle.plain.specs.Plain.{plain as plain_algebra};

use crate::parts::{put_stamp, role_number, sealed_text, wrapped_slot};
use keybox::buffer::Buffer;
use keybox::cipher::Cipher;
use keybox::text::Text;
use keys::key::wipe;
use keys::refusal::NotOpened;
use keys::slot::Slot;
use keys::stamp::StampNumbers;
use keys::tag::Tag;

// What the house key is made of.
const HOUSE: u8 = b'H';

// What a drawn key ends in.
const DRAWN: u8 = b'D';

/// A cipher that hides nothing: a blob's key stands at its end.
#[derive(Clone, Copy, Debug)]
pub struct Plain;

impl Cipher for Plain {
    ghost alg = { λ _. plain_algebra };

    fn seal(&self, key: &[u8; 16], stamp: StampNumbers, text: Text<'_>, out: &mut Buffer) {
        put_stamp(out, stamp);
        out.extend(text.as_slice());
        out.extend(key);
    }

    fn unseal(&self, key: &[u8; 16], blob: &[u8], out: &mut Buffer) -> Result<(), NotOpened> {
        out.clear();
        let text = sealed_text(key, blob).ok_or(NotOpened)?;
        out.extend(text.as_slice());
        Ok(())
    }

    fn wrap(
        &self,
        under: &[u8; 16],
        stamp: StampNumbers,
        role: u8,
        stays: bool,
        key: &[u8; 16],
        out: &mut Buffer,
    ) {
        put_stamp(out, stamp);
        out.extend(&[role_number(role), u8::from(stays)]);
        out.extend(key);
        out.extend(under);
    }

    fn unwrap(&self, under: &[u8; 16], blob: &[u8], out: &mut [u8; 16]) -> Result<Tag, NotOpened> {
        wipe(out);
        let Slot { key, tag } = wrapped_slot(under, blob).ok_or(NotOpened)?;
        out.copy_from_slice(key);
        Ok(tag)
    }

    #[tactic(auto, using(crate::proofs::Marking::marks))]
    fn mark(&self, key: &[u8; 16], text: &[u8]) -> [u8; 16] {
        let start = &text[..text.len().min(8)];
        let mut mark = [0; 16];
        let (front, rest) = mark.split_at_mut(8);
        front.copy_from_slice(&key[..8]);
        rest[..start.len()].copy_from_slice(start);
        mark
    }

    fn derive(&self, key: &[u8; 16], label: u8, role: u8, out: &mut [u8; 16]) {
        let (front, rest) = out.split_at_mut(2);
        front.copy_from_slice(&[role_number(role), label]);
        rest.copy_from_slice(&key[..14]);
    }

    fn house(&self, out: &mut [u8; 16]) {
        out.fill(HOUSE);
    }

    #[tactic(auto, unfolding(crate::specs::Plain::four_bytes, crate::specs::Plain::eight_bytes))]
    fn draw(&mut self, number: u32, drawn: u64, out: &mut [u8; 16]) {
        let (front, rest) = out.split_at_mut(8);
        let (middle, end) = rest.split_at_mut(4);
        front.copy_from_slice(&drawn.to_le_bytes());
        middle.copy_from_slice(&number.to_le_bytes());
        end.fill(DRAWN);
    }
}
