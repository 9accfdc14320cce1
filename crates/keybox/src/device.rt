//! The box, and the commands that need no blob.

ghost use Rattle.std.specs.Prelude.{◌≡◌, ℕ, List, OnErr};
ghost use Rattle.keys.specs.Algebra.{Algebra};
ghost use Rattle.keys.specs.Machine.{does, fresh, house_slot, put_at, Full as full_place, Make as to_make, Load as to_load, Show as to_show, Forget as to_forget};
ghost use Rattle.keys.specs.Padded.{blank_key};
ghost use Rattle.keys.specs.Replies.{done_answer, place_answer, value_answer};

use crate::cipher::Cipher;
use crate::spare::put_spare;
use keys::key::{Key, wipe};
use keys::refusal::Refusal;
use keys::role::Role;
use keys::slot::Slot;
use keys::table::Table;
use keys::tag::Tag;
use std::marker::Model;

/// A box: its table, and memory for a key on its way to a place. Between commands that memory is
/// noughts. Clauses see the box of the machine that the table stands for.
#[derive(Drop)]
pub struct Device {
    pub(crate) table: Table,
    pub(crate) spare: Key,
}

impl Model for Device {
    ghost use Rattle.std.specs.Prelude.{◌≡◌, ℕ, List};
    ghost use Rattle.keys.specs.Machine.{Box};
    ghost use Rattle.keys.specs.Padded.{blank_key};
    ghost use Rattle.keys.specs.Tables.{state_of};

    ghost Value = { Box (List ℕ) };

    ghost view = { λ d. state_of d.table };

    ghost invariant = { λ d. d.spare.bytes ≡ blank_key };
}

/// The place of the house key.
const HOUSE: u8 = 63;

impl Device {
    /// A new box.
    pub fn start<C: Cipher>(cipher: &C, number: u32) -> Device
        ensures { result ≡ fresh (C.alg cipher.now) number }
    {
        let mut device = Device {
            table: Table::blank(number),
            spare: Key::blank(),
        };
        device.put_house(cipher);
        device
    }

    /// Makes this a new box; what it held is wiped.
    pub fn start_in<C: Cipher>(&mut self, cipher: &C, number: u32)
        ensures { self.new ≡ fresh (C.alg cipher.now) number }
    {
        self.table.clear(number);
        self.put_house(cipher);
    }

    // The house key is a wrapper that stays.
    fn put_house<C: Cipher>(&mut self, cipher: &C)
        ensures { self.new ≡ put_at HOUSE (full_place (house_slot (C.alg cipher.now))) self.old }
    {
        cipher.house(&mut self.spare.bytes);
        let tag = Tag {
            role: Role::Wrapper,
            stays: true,
        };
        put_spare(&mut self.table, &mut self.spare, HOUSE, tag);
    }

    /// Draws a key, if there is a place for it.
    pub fn make<C: Cipher>(&mut self, cipher: &mut C, tag: Tag) -> Result<u8, Refusal>
        ensures does { does (C.alg cipher.old) (to_make tag) self.old ≡ record { box = self.new; answer = place_answer result } }
        ensures same { C.alg cipher.new ≡ C.alg cipher.old }
    {
        let at = self.table.places.first_empty()?;
        let drawn = self.table.counts.next_draw()?;
        cipher.draw(self.table.counts.number(), drawn, &mut self.spare.bytes);
        put_spare(&mut self.table, &mut self.spare, at, tag);
        Ok(at)
    }

    /// Takes in a key from outside, which doesn't stay.
    pub fn load(&mut self, role: Role, key: &[u8; 16]) -> Result<u8, Refusal>
        ensures { (a : Algebra (List ℕ)) → does a (to_load role key.now) self.old ≡ record { box = self.new; answer = place_answer result } }
    {
        self.table.place(Slot {
            key,
            tag: Tag { role, stays: false },
        })
    }

    /// Gives a key away, unless it stays. A key goes to lent memory, which whoever lends it wipes; a
    /// returned one would be a copy that nobody wipes.
    pub fn show(&self, at: u8, out: &mut [u8; 16]) -> Result<(), Refusal>
        ensures does { (a : Algebra (List ℕ)) → does a (to_show at) self.now ≡ record { box = self.now; answer = value_answer result out.new } }
        ensures wiped { OnErr result (out.new ≡ blank_key) }
    {
        wipe(out);
        let Slot { key, tag } = self.table.places.find(at)?;
        tag.may_show()?;
        out.copy_from_slice(key);
        Ok(())
    }

    /// Empties a place, and wipes the key.
    pub fn forget(&mut self, at: u8) -> Result<(), Refusal>
        ensures { (a : Algebra (List ℕ)) → does a (to_forget at) self.old ≡ record { box = self.new; answer = done_answer result } }
    {
        self.table.places.find(at)?;
        self.table.empty(at);
        Ok(())
    }
}
