//! The box's uses of Ascon-CXOF128 with a key. Key and text are never put into one buffer: a key is
//! two whole words, so they are absorbed one after the other.

ghost use Rattle.std.specs.Prelude.{◌≡◌, [], ◌∷◌};
ghost use Rattle.ascon.specs.Hash.{customized};
ghost use Rattle.ascon.specs.Keyed.{string_of, keyed as keyed_of};
ghost use Rattle.ascon.specs.declared.purpose.Purpose.TheVariants.{Mark, Key};

use crate::blocks::words;
use crate::purpose::Purpose;
use crate::state::State;

// The states after the customization strings: worked out once, and proved equal to the definition.
const AFTER_MARK_STRING: State = State {
    x0: 0xde8e_4ddd_b1dd_3aa8,
    x1: 0xf20f_b512_6602_f3d5,
    x2: 0x8058_dceb_3bcd_c6b8,
    x3: 0x36ec_904e_0872_b8be,
    x4: 0x3306_3abd_876d_3ddb,
};

const AFTER_KEY_STRING: State = State {
    x0: 0xdd07_06d7_e908_c5f3,
    x1: 0x5bba_c448_491d_8483,
    x2: 0x9d75_d590_1c91_7c3e,
    x3: 0xc118_cf7c_01da_5374,
    x4: 0x564f_0461_e6e9_8b46,
};

impl Purpose {
    /// The customization string.
    // No code here calls it: it says after which strings the constants in `start` are the states.
    pub fn string(self) -> &'static [u8]
        ensures { result.now ≡ string_of self }
    {
        match self {
            Purpose::Mark => b"box mark",
            Purpose::Key => b"box key",
        }
    }

    // The state of Ascon-CXOF128 once that string is absorbed.
    #[tactic(auto, using(crate::proofs::Customized::after_mark_string, crate::proofs::Customized::after_key_string))]
    fn start(self) -> State
        ensures { result ≡ customized (string_of self) }
    {
        match self {
            Purpose::Mark => AFTER_MARK_STRING,
            Purpose::Key => AFTER_KEY_STRING,
        }
    }
}

#[tactic(auto, using(crate::proofs::HashLaws::keyed_absorbed))]
fn keyed(purpose: Purpose, key: &[u8; 16], text: &[u8], out: &mut [u8; 16])
    ensures { out.new ≡ keyed_of purpose key.now text.now }
{
    let (low, high) = words(key);
    purpose
        .start()
        .add_word(low)
        .p12()
        .add_word(high)
        .p12()
        .absorb_words(text)
        .squeeze(out)
}

// `mark` and `derive` name the two uses: they take other arguments, and C calls one of them.
/// The mark of a text under a key.
pub fn mark(key: &[u8; 16], text: &[u8]) -> [u8; 16]
    ensures { result ≡ keyed_of Mark key.now text.now }
{
    let mut mark = [0; 16];
    keyed(Purpose::Mark, key, text, &mut mark);
    mark
}

// To this crate a role is a byte, as a label is: which roles there are is for the crates above.
// Into lent memory: a returned key would be a copy on the stack that nobody wipes.
/// The key derived from a key with a label and a role.
pub fn derive(key: &[u8; 16], label: u8, role: u8, out: &mut [u8; 16])
    ensures { out.new ≡ keyed_of Key key.now (label ∷ role ∷ []) }
{
    keyed(Purpose::Key, key, &[label, role], out)
}
