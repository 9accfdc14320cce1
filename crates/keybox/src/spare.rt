//! A key on its way to a place: it lies in spare memory, which is wiped once the key is placed.
//! These are no methods of `Device`: a call of one would ask that the spare memory be noughts.

ghost use Rattle.std.specs.Prelude.{◌≡◌, ◌<◌};
ghost use Rattle.keys.specs.Machine.{capacity, put_at, put_in, Full as full_place};
ghost use Rattle.keys.specs.Padded.{blank_key};
ghost use Rattle.keys.specs.Replies.{place_answer};
ghost use Rattle.keys.specs.Tables.{state_of};

use keys::key::Key;
use keys::refusal::Refusal;
use keys::slot::Slot;
use keys::table::Table;
use keys::tag::Tag;

// Moves the spare key to a place.
pub(crate) fn put_spare(table: &mut Table, spare: &mut Key, at: u8, tag: Tag)
    requires { at < capacity }
    ensures put { state_of table.new ≡ put_at at (full_place (record { key = spare.old.bytes; tag = tag })) (state_of table.old) }
    ensures wiped { spare.new.bytes ≡ blank_key }
{
    let key = &spare.bytes;
    table.put(at, Slot { key, tag });
    spare.wipe();
}

// Moves the spare key to the first empty place; it is wiped also where there is none.
pub(crate) fn place_spare(table: &mut Table, spare: &mut Key, tag: Tag) -> Result<u8, Refusal>
    ensures placed { put_in (record { key = spare.old.bytes; tag = tag }) (state_of table.old) ≡ record { box = state_of table.new; answer = place_answer result } }
    ensures wiped { spare.new.bytes ≡ blank_key }
{
    let key = &spare.bytes;
    let answer = table.place(Slot { key, tag });
    spare.wipe();
    answer
}
