//! Commands that put the key of a blob, or a derived key, into a place.

ghost use Rattle.std.specs.Prelude.{◌≡◌};
ghost use Rattle.keys.specs.Machine.{does, Unwrap as to_unwrap, Derive as to_derive};
ghost use Rattle.keys.specs.Replies.{place_answer};

use crate::cipher::Cipher;
use crate::device::Device;
use crate::spare::place_spare;
use keys::refusal::Refusal;
use keys::role::Role;
use keys::tag::Tag;

impl Device {
    /// Takes in the key of a blob, with the tag that the blob says.
    pub fn unwrap<C: Cipher>(&mut self, cipher: &C, under: u8, blob: &[u8]) -> Result<u8, Refusal>
        ensures { does (C.alg cipher.now) (to_unwrap under blob.now) self.old ≡ record { box = self.new; answer = place_answer result } }
    {
        let wrapper = self.table.places.find_in_role(under, Role::Wrapper)?;
        let by = wrapper.tag;
        let tag = cipher.unwrap(wrapper.key, blob, &mut self.spare.bytes)?;
        // A blob that says that its key stays is believed only under a wrapper that stays.
        if let Err(refusal) = tag.leaves_under(by) {
            self.spare.wipe();
            return Err(refusal);
        }
        place_spare(&mut self.table, &mut self.spare, tag)
    }

    /// Derives a key, which stays if the base does.
    #[tactic(auto, using(keys::proofs::RoleLaws::role_number_lem))]
    pub fn derive<C: Cipher>(
        &mut self,
        cipher: &C,
        base: u8,
        label: u8,
        role: Role,
    ) -> Result<u8, Refusal>
        ensures { does (C.alg cipher.now) (to_derive base label role) self.old ≡ record { box = self.new; answer = place_answer result } }
    {
        let from = self.table.places.find_in_role(base, Role::Base)?;
        cipher.derive(from.key, label, role.into(), &mut self.spare.bytes);
        let tag = Tag {
            role,
            stays: from.tag.stays,
        };
        place_spare(&mut self.table, &mut self.spare, tag)
    }
}
