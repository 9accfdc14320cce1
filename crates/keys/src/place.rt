ghost use Rattle.std.specs.Prelude.{◌≡◌};
ghost use Rattle.keys.specs.Clear.{Clear};

use crate::key::Key;
use crate::slot::Slot;
use crate::tag::Tag;

/// A place for one key, with the tag of the key in it. While it is empty, the key's bytes are
/// noughts.
pub struct Place {
    pub(crate) tag: Option<Tag>,
    pub(crate) key: Key,
    ghost clear: { Clear tag key.bytes },
}

impl Place {
    // Copies a key into the place.
    pub(crate) fn fill(&mut self, slot: Slot<'_>)
        ensures tag { self.new.tag ≡ Some slot.entry.tag }
        ensures bytes { self.new.key.bytes ≡ slot.entry.key.now }
    {
        let Slot { key, tag } = slot;
        self.tag = Some(tag);
        self.key.bytes.copy_from_slice(key);
    }

    // Empties the place, and wipes what it held.
    pub(crate) fn clear(&mut self)
        ensures { self.new.tag ≡ None }
    {
        self.key.wipe();
        self.tag = None;
    }
}

impl Drop for Place {
    fn drop(mut self) {
        self.clear();
        let Place { tag: _, key: _ } = self;
    }
}
