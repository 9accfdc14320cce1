//! Commands that give blobs, texts and marks. A text goes to the caller's `Buffer`: as a result it
//! would leave a copy in memory that nobody wipes. A blob goes there too, and isn't copied either.

ghost use Rattle.std.specs.Prelude.{◌≡◌, [], OnErr};
ghost use Rattle.keys.specs.Machine.{does, Wrap as to_wrap, Seal as to_seal, Open as to_open, Mark as to_mark};
ghost use Rattle.keys.specs.Replies.{mark_answer, value_answer};

use crate::buffer::Buffer;
use crate::cipher::Cipher;
use crate::device::Device;
use crate::text::Text;
use keys::refusal::Refusal;
use keys::role::Role;
use keys::slot::Slot;

impl Device {
    /// Gives a key away as a blob that only the wrapper opens; a key that stays only under one
    /// that stays.
    #[tactic(auto, using(crate::proofs::TagLaws::tag_read))]
    pub fn wrap<C: Cipher>(
        &mut self,
        cipher: &C,
        at: u8,
        under: u8,
        out: &mut Buffer,
    ) -> Result<(), Refusal>
        ensures does { does (C.alg cipher.now) (to_wrap at under) self.old ≡ record { box = self.new; answer = value_answer result out.new } }
        ensures wiped { OnErr result (out.new ≡ []) }
    {
        out.clear();
        let Slot { key, tag } = self.table.places.find(at)?;
        let wrapper = self.table.places.find_in_role(under, Role::Wrapper)?;
        tag.leaves_under(wrapper.tag)?;
        let stamp = self.table.counts.next_stamp()?;
        let role = u8::from(tag.role);
        cipher.wrap(wrapper.key, stamp.spend(), role, tag.stays, key, out);
        Ok(())
    }

    /// Gives a text as a blob that only the sealer opens.
    pub fn seal<C: Cipher>(
        &mut self,
        cipher: &C,
        at: u8,
        text: Text<'_>,
        out: &mut Buffer,
    ) -> Result<(), Refusal>
        ensures does { does (C.alg cipher.now) (to_seal at text.entry.bytes.now) self.old ≡ record { box = self.new; answer = value_answer result out.new } }
        ensures wiped { OnErr result (out.new ≡ []) }
    {
        out.clear();
        let sealer = self.table.places.find_in_role(at, Role::Sealer)?;
        let stamp = self.table.counts.next_stamp()?;
        cipher.seal(sealer.key, stamp.spend(), text, out);
        Ok(())
    }

    /// Gives the text of a sealed blob.
    pub fn open<C: Cipher>(
        &self,
        cipher: &C,
        at: u8,
        blob: &[u8],
        out: &mut Buffer,
    ) -> Result<(), Refusal>
        ensures does { does (C.alg cipher.now) (to_open at blob.now) self.now ≡ record { box = self.now; answer = value_answer result out.new } }
        ensures wiped { OnErr result (out.new ≡ []) }
    {
        out.clear();
        let opener = self.table.places.find_in_role(at, Role::Sealer)?;
        cipher.unseal(opener.key, blob, out)?;
        Ok(())
    }

    /// Gives the mark of a text.
    pub fn mark<C: Cipher>(&self, cipher: &C, at: u8, text: &[u8]) -> Result<[u8; 16], Refusal>
        ensures { does (C.alg cipher.now) (to_mark at text.now) self.now ≡ record { box = self.now; answer = mark_answer result } }
    {
        let marker = self.table.places.find_in_role(at, Role::Marker)?;
        Ok(cipher.mark(marker.key, text))
    }
}
