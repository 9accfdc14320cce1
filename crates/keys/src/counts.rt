//! What a box counts.

ghost use Rattle.std.specs.Prelude.{◌≡◌};
ghost use Rattle.keys.specs.Checks.{Counted, Draws, Stamps};

use crate::refusal::Refusal;
use crate::stamp::{Stamp, StampNumbers};

/// How many keys a box draws, and how many blobs it makes, before it is used up.
const LIMIT: u64 = 1 << 48;

/// The number of a box, how many keys it drew and how many blobs it made.
#[derive(Drop)]
pub struct Counts {
    pub(crate) number: u32,
    pub(crate) drawn: u64,
    pub(crate) count: u64,
}

// The next number of a count, which is counted with it.
fn next(count: &mut u64) -> Result<u64, Refusal>
    ensures { Counted count.old result count.new }
{
    let now = *count;
    if now >= LIMIT {
        return Err(Refusal::UsedUp);
    }
    *count = now + 1;
    Ok(now)
}

impl Counts {
    // The counts of a new box.
    pub(crate) fn new(number: u32) -> Counts
        ensures number { result.number ≡ number }
        ensures drawn { result.drawn ≡ 0 }
        ensures count { result.count ≡ 0 }
    {
        Counts {
            number,
            drawn: 0,
            count: 0,
        }
    }

    /// The number of the box.
    pub fn number(&self) -> u32
        ensures { result ≡ self.now.number }
    {
        self.number
    }

    /// The stamp of the next blob, which is counted with it.
    pub fn next_stamp(&mut self) -> Result<Stamp, Refusal>
        ensures { Stamps self.old result self.new }
    {
        let count = next(&mut self.count)?;
        Ok(Stamp {
            numbers: StampNumbers {
                number: self.number,
                count,
            },
        })
    }

    /// The number of the next key to be drawn, which is counted with it.
    pub fn next_draw(&mut self) -> Result<u64, Refusal>
        ensures { Draws self.old result self.new }
    {
        next(&mut self.drawn)
    }
}
