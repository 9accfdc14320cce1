//! Arguments of a bounded size.
// Two types: a key is lent as an array and a label as a slice, and each has an error of its own.

ghost use Rattle.std.specs.Prelude.{◌≡◌, ◌≤◌, length};
ghost use Rattle.ascon_cli.specs.Errors.{Gives};
ghost use Rattle.ascon_cli.specs.Fields.{short, sized};
ghost use Rattle.ascon_cli.specs.declared.key.TheConstants.{LONGEST_LABEL};

use crate::fault::LineError;
use crate::secret::Secret;

/// The most bytes that a label has: the format of lines says so for itself, and `ascon` the same.
pub const LONGEST_LABEL: usize = 256;

/// A key or a nonce: sixteen bytes.
#[derive(Drop)]
pub struct Key {
    secret: Secret,
    ghost fits: { length secret ≡ 16 },
}

impl TryFrom<Secret> for Key {
    type Error = LineError;

    ghost try_from_gives = { λ s r. Gives (λ k. k.secret) (sized s) r };

    fn try_from(secret: Secret) -> Result<Key, LineError> {
        if secret.len() == 16 {
            return Ok(Key { secret });
        }
        Err(LineError::KeyLength)
    }
}

impl Key {
    /// The sixteen bytes.
    pub fn as_array(&self) -> &[u8; 16]
        ensures { result.now ≡ self.now.secret }
    {
        self.secret.as_slice().first_chunk().unwrap()
    }
}

/// The string that sets outputs of one use apart from those of another: at most 256 bytes.
#[derive(Drop)]
pub struct Label {
    secret: Secret,
    ghost fits: { length secret ≤ LONGEST_LABEL },
}

impl TryFrom<Secret> for Label {
    type Error = LineError;

    ghost try_from_gives = { λ s r. Gives (λ l. l.secret) (short s) r };

    fn try_from(secret: Secret) -> Result<Label, LineError> {
        if secret.len() <= LONGEST_LABEL {
            return Ok(Label { secret });
        }
        Err(LineError::StringLength)
    }
}

impl Label {
    /// The bytes of the string.
    pub fn as_slice(&self) -> &[u8]
        ensures value { result.now ≡ self.now.secret }
        ensures bound { length result.now ≤ LONGEST_LABEL }
    {
        self.secret.as_slice()
    }
}
