//! The parts that blobs of the plain cipher are written and read by.

ghost use Rattle.std.specs.Prelude.{◌≡◌, length};
ghost use Rattle.keys.specs.Algebra.{role_number, role_of};
ghost use Rattle.keys.specs.Tables.{numbers_of};
ghost use Rattle.plain.specs.Parts.{lent_slot, lent_text};
ghost use Rattle.plain.specs.Plain.{read_tag, stamp_bytes, unsealed, unwrapped};

use keybox::buffer::Buffer;
use keybox::text::Text;
use keys::role::Role;
use keys::slot::Slot;
use keys::stamp::StampNumbers;
use keys::tag::Tag;

// How many bytes a stamp has: four of the box's number, eight of the count.
const STAMP_SIZE: usize = 12;

// The stamp that a blob begins with, in place of what the buffer held.
#[tactic(auto, unfolding(crate::specs::Plain::four_bytes, crate::specs::Plain::eight_bytes))]
pub(crate) fn put_stamp(out: &mut Buffer, stamp: StampNumbers)
    ensures bytes { out.new ≡ stamp_bytes (numbers_of stamp) }
    ensures size { length out.new ≡ STAMP_SIZE }
{
    out.clear();
    out.extend(&stamp.number.to_le_bytes());
    out.extend(&stamp.count.to_le_bytes());
}

// The number of the role that any number stands for.
pub(crate) fn role_number(role: u8) -> u8
    ensures { result ≡ role_number (role_of role) }
{
    match role {
        1..=3 => role,
        _ => 4,
    }
}

// The tag of two bytes, if they are one.
fn read_tag(role: u8, stays: u8) -> Option<Tag>
    ensures { result ≡ read_tag role stays }
{
    match (Role::try_from(role), stays) {
        (Ok(role), 0) => Some(Tag { role, stays: false }),
        (Ok(role), 1) => Some(Tag { role, stays: true }),
        _ => None,
    }
}

// The text of a sealed blob, if it opens under `key`.
#[tactic(auto, using(crate::proofs::Reading::read_sealed))]
pub(crate) fn sealed_text<'a>(key: &[u8; 16], blob: &'a [u8]) -> Option<Text<'a>>
    ensures { lent_text result ≡ unsealed key.now blob.now }
{
    let (_stamp, rest) = blob.split_first_chunk::<STAMP_SIZE>()?;
    let (text, end) = rest.split_last_chunk::<16>()?;
    if key != end {
        return None;
    }
    Text::try_from(text).ok()
}

// The key of a wrapped blob with its tag, if the blob opens under `under`.
#[tactic(auto, using(crate::proofs::Reading::read_wrapped))]
pub(crate) fn wrapped_slot<'a>(under: &[u8; 16], blob: &'a [u8]) -> Option<Slot<'a>>
    ensures { lent_slot result ≡ unwrapped under.now blob.now }
{
    let (_stamp, rest) = blob.split_first_chunk::<STAMP_SIZE>()?;
    let (&[role, stays], rest) = rest.split_first_chunk::<2>()?;
    let (key, end) = rest.split_first_chunk::<16>()?;
    if under.as_slice() != end {
        return None;
    }
    let tag = read_tag(role, stays)?;
    Some(Slot { key, tag })
}
