ghost use Rattle.std.specs.Prelude.{◌≡◌};
ghost use Rattle.keys.specs.Algebra.{role_number};
ghost use Rattle.keys.specs.Roles.{Names};

use std::error::Error;
use std::fmt;

/// What a key is for. A key serves this and nothing else.
#[derive(Clone, Copy, Debug, PartialEq, Eq)]
pub enum Role {
    /// Wraps keys, and unwraps them.
    Wrapper = 1,
    /// Seals texts, and opens them.
    Sealer = 2,
    /// Marks texts.
    Marker = 3,
    /// Derives keys.
    Base = 4,
}

/// A number that names no role.
#[derive(Clone, Copy, Debug, PartialEq, Eq)]
pub struct UnknownRole(pub u8);

/// The number by which commands and blobs name the role.
impl From<Role> for u8 {
    ghost from_gives = { λ role number. number ≡ role_number role };

    fn from(role: Role) -> u8 {
        role as u8
    }
}

/// The role of a number, if it is one.
impl TryFrom<u8> for Role {
    type Error = UnknownRole;

    ghost try_from_gives = { Names };

    fn try_from(number: u8) -> Result<Role, UnknownRole> {
        match number {
            1 => Ok(Role::Wrapper),
            2 => Ok(Role::Sealer),
            3 => Ok(Role::Marker),
            4 => Ok(Role::Base),
            _ => Err(UnknownRole(number)),
        }
    }
}

impl fmt::Display for Role {
    fn fmt<W: fmt::Write>(&self, f: &mut fmt::Formatter<W>) -> fmt::Result {
        f.write_str(match self {
            Role::Wrapper => "wrapper",
            Role::Sealer => "sealer",
            Role::Marker => "marker",
            Role::Base => "base",
        })
    }
}

impl fmt::Display for UnknownRole {
    fn fmt<W: fmt::Write>(&self, f: &mut fmt::Formatter<W>) -> fmt::Result {
        write!(f, "no role has number {}", self.0)
    }
}

impl Error for UnknownRole {}
