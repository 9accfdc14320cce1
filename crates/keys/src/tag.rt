ghost use Rattle.std.specs.Prelude.{true, false, not, ◌&&◌};
ghost use Rattle.keys.specs.Algebra.{same_role};
ghost use Rattle.keys.specs.Checks.{Checks};
ghost use Rattle.keys.specs.declared.refusal.Refusal.{Refusal};

use crate::refusal::Refusal;
use crate::role::Role;

/// What a box knows of a key besides its bytes. A key that stays never leaves the boxes.
#[derive(Clone, Copy, Debug, PartialEq, Eq)]
pub struct Tag {
    pub role: Role,
    pub stays: bool,
}

impl Tag {
    /// The key serves only its role.
    pub fn in_role(self, role: Role) -> Result<(), Refusal>
        ensures { Checks true (same_role role self.role) Refusal.WrongRole result }
    {
        if role != self.role {
            return Err(Refusal::WrongRole);
        }
        Ok(())
    }

    /// A key that stays leaves the box, or comes into it, only under a wrapper that stays.
    pub fn leaves_under(self, by: Tag) -> Result<(), Refusal>
        ensures { Checks false (self.stays && not by.stays) Refusal.Stays result }
    {
        if self.stays && !by.stays {
            return Err(Refusal::Stays);
        }
        Ok(())
    }

    /// A key that stays is not shown.
    pub fn may_show(self) -> Result<(), Refusal>
        ensures { Checks false self.stays Refusal.Stays result }
    {
        if self.stays {
            return Err(Refusal::Stays);
        }
        Ok(())
    }
}
