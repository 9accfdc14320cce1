//! The permutations p[12] and p[8]: thin layers by value, each equal to its definition.

ghost use Rattle.std.specs.Prelude.{◌≡◌, ◌<◌, ◌≤◌, drop};
ghost use Rattle.ascon.specs.Permutation.{add_constant as constant_added, mix_in as mixed_in, chi_word as chi_of, chi as chi_applied, mix_out as mixed_out, spread as spread_of, diffuse as diffused, round as rounded, rounds as rounds_of, constants, p12 as permuted12, p8 as permuted8};

use crate::state::State;

// The constants of the twelve rounds; p[8] takes the last eight.
const ROUND_CONSTANTS: [u64; 12] = [
    0xf0, 0xe1, 0xd2, 0xc3, 0xb4, 0xa5, 0x96, 0x87, 0x78, 0x69, 0x5a, 0x4b,
];

// One word of the nonlinear part of the substitution layer.
fn chi_word(x: u64, y: u64, z: u64) -> u64
    ensures { result ≡ chi_of x y z }
{
    x ^ (!y & z)
}

// One word of the linear layer.
fn spread(x: u64, a: u32, b: u32) -> u64
    requires some_a { 0 < a }
    requires a_below_64 { a < 64 }
    requires some_b { 0 < b }
    requires b_below_64 { b < 64 }
    ensures { result ≡ spread_of x a b }
{
    x ^ x.rotate_right(a) ^ x.rotate_right(b)
}

impl State {
    fn add_constant(self, c: u64) -> State
        ensures { result ≡ constant_added c self }
    {
        State {
            x2: self.x2 ^ c,
            ..self
        }
    }

    fn mix_in(self) -> State
        ensures { result ≡ mixed_in self }
    {
        State {
            x0: self.x0 ^ self.x4,
            x2: self.x2 ^ self.x1,
            x4: self.x4 ^ self.x3,
            ..self
        }
    }

    fn chi(self) -> State
        ensures { result ≡ chi_applied self }
    {
        State {
            x0: chi_word(self.x0, self.x1, self.x2),
            x1: chi_word(self.x1, self.x2, self.x3),
            x2: chi_word(self.x2, self.x3, self.x4),
            x3: chi_word(self.x3, self.x4, self.x0),
            x4: chi_word(self.x4, self.x0, self.x1),
        }
    }

    fn mix_out(self) -> State
        ensures { result ≡ mixed_out self }
    {
        State {
            x0: self.x0 ^ self.x4,
            x1: self.x1 ^ self.x0,
            x2: !self.x2,
            x3: self.x3 ^ self.x2,
            ..self
        }
    }

    fn diffuse(self) -> State
        ensures { result ≡ diffused self }
    {
        State {
            x0: spread(self.x0, 19, 28),
            x1: spread(self.x1, 61, 39),
            x2: spread(self.x2, 1, 6),
            x3: spread(self.x3, 10, 17),
            x4: spread(self.x4, 7, 41),
        }
    }

    #[tactic(auto, unfolding(crate::specs::Permutation::round))]
    fn round(self, c: u64) -> State
        ensures { result ≡ rounded c self }
    {
        self.add_constant(c).mix_in().chi().mix_out().diffuse()
    }

    // The rounds from the one with the given number on: one after another over the table, so that
    // it is small enough to be compiled into its callers, where the state stays in registers.
    fn rounds_from(self, first: usize) -> State
        requires { first ≤ 12 }
        ensures { result ≡ rounds_of (drop first constants) self }
    {
        ROUND_CONSTANTS[first..]
            .iter()
            .fold(self, |s, c| s.round(*c))
    }

    // `p8` and `p12` are the standard's names, so that no caller counts rounds.
    #[tactic(auto, unfolding(crate::specs::Permutation::p8))]
    pub(crate) fn p8(self) -> State
        ensures { result ≡ permuted8 self }
    {
        self.rounds_from(4)
    }

    /// The permutation p[12].
    #[tactic(auto, unfolding(crate::specs::Permutation::p12))]
    pub fn p12(self) -> State
        ensures { result ≡ permuted12 self }
    {
        self.rounds_from(0)
    }
}
