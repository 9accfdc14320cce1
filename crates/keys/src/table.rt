//! The places of a box, and what it counts.

ghost use Rattle.std.specs.Prelude.{◌≡◌, ◌<◌};
ghost use Rattle.keys.specs.Machine.{capacity, put_at, put_in, Empty as empty_place, Full as full_place};
ghost use Rattle.keys.specs.Replies.{place_answer};
ghost use Rattle.keys.specs.Tables.{blank_box, slot_of, state_of};

use crate::counts::Counts;
use crate::places::Places;
use crate::refusal::Refusal;
use crate::slot::Slot;

/// What a box counts, and its places. They are open so that a caller can hold a key of the places
/// while it counts.
// No model: a struct with one is closed to others, who borrow its two fields apart.
#[derive(Drop)]
pub struct Table {
    pub counts: Counts,
    pub places: Places,
}

impl Table {
    /// A table of empty places.
    pub fn blank(number: u32) -> Table
        ensures { state_of result ≡ blank_box number }
    {
        Table {
            counts: Counts::new(number),
            places: Places::blank(),
        }
    }

    /// Makes this a table of empty places; what they held is wiped.
    pub fn clear(&mut self, number: u32)
        ensures { state_of self.new ≡ blank_box number }
    {
        // Not `*self = Table::blank(number)`: the keys are wiped where they lie.
        self.places.clear();
        self.counts = Counts::new(number);
    }

    /// Copies a key into a place.
    pub fn put(&mut self, at: u8, slot: Slot<'_>)
        requires { at < capacity }
        ensures { state_of self.new ≡ put_at at (full_place (slot_of slot.entry)) (state_of self.old) }
    {
        self.places.put(at, slot);
    }

    /// Copies a key into the first empty place.
    pub fn place(&mut self, slot: Slot<'_>) -> Result<u8, Refusal>
        ensures { put_in (slot_of slot.entry) (state_of self.old) ≡ record { box = state_of self.new; answer = place_answer result } }
    {
        let free = self.places.first_empty()?;
        self.put(free, slot);
        Ok(free)
    }

    /// Empties a place, and wipes what it held.
    pub fn empty(&mut self, at: u8)
        requires { at < capacity }
        ensures { state_of self.new ≡ put_at at empty_place (state_of self.old) }
    {
        self.places.empty(at);
    }
}
