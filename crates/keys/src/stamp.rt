ghost use Rattle.std.specs.Prelude.{◌≡◌};

/// What a blob carries: the number of the box that makes it, and how many blobs it made before.
#[derive(Clone, Copy, Debug, PartialEq, Eq)]
pub struct StampNumbers {
    pub number: u32,
    pub count: u64,
}

/// The right to make one blob. It is neither copied nor let go, so each that a box counts is spent
/// once.
pub struct Stamp {
    pub(crate) numbers: StampNumbers,
}

impl Stamp {
    /// The numbers for the blob.
    pub fn spend(self) -> StampNumbers
        ensures { result ≡ self.numbers }
    {
        let Stamp { numbers } = self;
        numbers
    }
}
