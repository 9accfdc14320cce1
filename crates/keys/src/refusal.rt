ghost use Rattle.std.specs.Prelude.{◌≡◌};
ghost use Rattle.keys.specs.Machine.{refusal_number};
ghost use Rattle.keys.specs.declared.refusal.Refusal.TheVariants.{NotOpened as not_opened};

use std::error::Error;
use std::fmt;

/// Why a command is refused.
#[derive(Clone, Copy, Debug, PartialEq, Eq)]
pub enum Refusal {
    /// The bytes are no command.
    Malformed = 1,
    /// The place is empty, or there is none of that number.
    NoKey = 2,
    /// No place is empty.
    NoRoom = 3,
    /// The key has another role.
    WrongRole = 4,
    /// A key that stays is to be shown, or to be wrapped under one that doesn't stay; or a blob
    /// says that its key stays, under a wrapper that doesn't.
    Stays = 5,
    /// The blob doesn't open.
    NotOpened = 6,
    /// All stamps are used, or all keys drawn.
    UsedUp = 7,
}

/// A blob that doesn't open under this key.
#[derive(Clone, Copy, Debug, PartialEq, Eq)]
pub struct NotOpened;

/// The first byte of the answer: the numbers stand in the enum, and in no other code.
impl From<Refusal> for u8 {
    ghost from_gives = { λ refusal number. number ≡ refusal_number refusal };

    fn from(refusal: Refusal) -> u8 {
        refusal as u8
    }
}

impl From<NotOpened> for Refusal {
    ghost from_gives = { λ _ refusal. refusal ≡ not_opened };

    fn from(_blob: NotOpened) -> Refusal {
        Refusal::NotOpened
    }
}

impl fmt::Display for Refusal {
    fn fmt<W: fmt::Write>(&self, f: &mut fmt::Formatter<W>) -> fmt::Result {
        f.write_str(match self {
            Refusal::Malformed => "the bytes are no command",
            Refusal::NoKey => "no key lies there",
            Refusal::NoRoom => "no place is empty",
            Refusal::WrongRole => "the key has another role",
            Refusal::Stays => "a key stays",
            Refusal::NotOpened => "the blob doesn't open",
            Refusal::UsedUp => "all stamps or keys are used up",
        })
    }
}

impl fmt::Display for NotOpened {
    fn fmt<W: fmt::Write>(&self, f: &mut fmt::Formatter<W>) -> fmt::Result {
        write!(f, "{}", Refusal::NotOpened)
    }
}

impl Error for Refusal {}

impl Error for NotOpened {}
