//! The places of a box.

ghost use Rattle.std.specs.Prelude.{◌≡◌, ◌<◌, slice_set};
ghost use Rattle.keys.specs.Checks.{Finds, FindsInRole, Rooms};
ghost use Rattle.keys.specs.Contents.{key_at};
ghost use Rattle.keys.specs.Machine.{capacity, empties, Empty as empty_place, Full as full_place};
ghost use Rattle.keys.specs.Tables.{slot_of};

use crate::key::Key;
use crate::place::Place;
use crate::refusal::Refusal;
use crate::role::Role;
use crate::slot::Slot;
use std::marker::Model;

/// How many places a box has.
pub const CAPACITY: usize = 64;

// An empty place.
const VACANT: Place = Place {
    tag: None,
    key: Key { bytes: [0; 16] },
};

/// The places of a box.
#[derive(Drop)]
pub struct Places {
    slots: [Place; CAPACITY],
}

impl Model for Places {
    ghost use Rattle.std.specs.Prelude.{◌≡◌, ℕ, List, length, map};
    ghost use Rattle.keys.specs.Machine as machine;
    ghost use Rattle.keys.specs.Contents.{place_of};

    ghost Value = { List (machine.Place (List ℕ)) };

    ghost view = { λ p. map place_of p.slots };

    ghost invariant = { λ p. length p.slots ≡ machine.capacity };
}

impl Places {
    // Empty places.
    #[tactic(auto, unfolding(crate::specs::Padded::padded, crate::specs::Machine::empties))]
    pub(crate) fn blank() -> Places
        ensures { result ≡ empties capacity }
    {
        Places {
            slots: [VACANT; CAPACITY],
        }
    }

    /// The key in a place, with its tag.
    pub fn find(&self, at: u8) -> Result<Slot<'_>, Refusal>
        ensures { Finds self.now at result }
    {
        let place = self.slots.get(at as usize).ok_or(Refusal::NoKey)?;
        let tag = place.tag.ok_or(Refusal::NoKey)?;
        Ok(Slot {
            key: &place.key.bytes,
            tag,
        })
    }

    /// The bytes of the key in a place; noughts if it is empty.
    pub fn key(&self, at: u8) -> &[u8; 16]
        requires { at < capacity }
        ensures { result.now ≡ key_at at self.now }
    {
        &self.slots[at as usize].key.bytes
    }

    /// The key in a place, with its tag, if it serves this role.
    pub fn find_in_role(&self, at: u8, role: Role) -> Result<Slot<'_>, Refusal>
        ensures { FindsInRole self.now at role result }
    {
        let slot = self.find(at)?;
        slot.tag.in_role(role)?;
        Ok(slot)
    }

    /// Where the next key comes to lie.
    pub fn first_empty(&self) -> Result<u8, Refusal>
        ensures { Rooms self.now result }
    {
        let at = self
            .slots
            .iter()
            .position(|place| place.tag.is_none())
            .ok_or(Refusal::NoRoom)?;
        Ok(at as u8)
    }

    // Copies a key into a place. That the number fits stays a clause, of five functions: a type for it
    // would be converted to in each command, and back for each answer.
    #[tactic(auto, using(crate::proofs::PlaceLaws::put_place))]
    pub(crate) fn put(&mut self, at: u8, slot: Slot<'_>)
        requires { at < capacity }
        ensures { self.new ≡ slice_set self.old at (full_place (slot_of slot.entry)) }
    {
        self.slots[at as usize].fill(slot);
    }

    // Empties a place, and wipes what it held.
    #[tactic(auto, using(crate::proofs::PlaceLaws::put_place))]
    pub(crate) fn empty(&mut self, at: u8)
        requires { at < capacity }
        ensures { self.new ≡ slice_set self.old at empty_place }
    {
        self.slots[at as usize].clear();
    }

    // Empties all places, and wipes what they held.
    #[tactic(auto, using(crate::proofs::PlaceLaws::all_empty), unfolding(crate::specs::Machine::empties))]
    pub(crate) fn clear(&mut self)
        ensures { self.new ≡ empties capacity }
    {
        for place in self.slots.iter_mut() {
            place.clear();
        }
    }
}
