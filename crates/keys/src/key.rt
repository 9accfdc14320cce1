ghost use Rattle.std.specs.Prelude.{◌≡◌, [], length};
ghost use Rattle.keys.specs.Padded.{blank_key, padded};

/// Overwrites lent memory with noughts.
#[tactic(auto, using(crate::proofs::PaddedLaws::padded_none))]
pub fn wipe(bytes: &mut [u8])
    ensures { bytes.new ≡ padded (length bytes.old) [] }
{
    bytes.fill(0);
}

/// The bytes of a key. They are wiped before their memory is let go: `drop` asks for that.
pub struct Key {
    pub bytes: [u8; 16],
}

impl Key {
    /// A key of noughts, to be written over.
    #[tactic(auto, unfolding(crate::specs::Padded::padded))]
    pub fn blank() -> Key
        ensures { result.bytes ≡ blank_key }
    {
        Key { bytes: [0; 16] }
    }

    /// Overwrites the key with noughts: `wipe`, with what `drop` asks for.
    pub fn wipe(&mut self)
        ensures { self.new.bytes ≡ blank_key }
    {
        wipe(&mut self.bytes);
    }
}

impl Drop for Key {
    fn drop(self)
        requires { self.bytes ≡ blank_key }
    {
        let Key { bytes: _ } = self;
    }
}
