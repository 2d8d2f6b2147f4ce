// Random numbers: SplitMix64, and its draws as numbers from 0 to 1.
//
// Every function here is proved, and the crate assumes nothing of its own. No public function has a
// `requires`. The definitions that the contracts cite stand in specs/.
#![tactic(auto)]

ghost use Rattle.std.specs.Prelude.{◌≡◌};
ghost use Rattle.rng.specs.Rules.SplitMix.{product64, at_state, seeded, draw_of};
ghost use Rattle.rng.specs.Rules.Unit.{unit_of, between, unit_draw_of, uniform_draw_of};

// The generator. Its state is private: another crate makes one by `new` or `from_seed`, and moves it on by draws alone.
#[derive(Clone, Copy)]
pub struct SplitMix64 {
    state: u64,
}

// The low 64 bits of a * b, by halves of 32 bits: of the four products of halves the highest adds
// nothing below 2^64, and of the two middle ones only the low half of their sum counts.
// Kept beside `u64::wrapping_mul`: document 01 names an own wrapping multiply, proved modulo 2^64.
pub fn wrapping_mul64(a: u64, b: u64) -> u64
    ensures { result ≡ product64 a b }
{
    let a0 = a % 0x1_0000_0000;
    let a1 = a / 0x1_0000_0000;
    let b0 = b % 0x1_0000_0000;
    let b1 = b / 0x1_0000_0000;
    let middle = (a1 * b0).wrapping_add(a0 * b1);
    let high = (middle % 0x1_0000_0000) * 0x1_0000_0000;
    (a0 * b0).wrapping_add(high)
}

// The draw shifted right 11, over 2^53: times 2^-53, which is the same number and takes no division.
pub fn unit_of(draw: u64) -> f64
    ensures { result ≡ unit_of draw }
{
    (draw >> 11) as f64 * 1.1102230246251565e-16
}

// From lo to hi by u, a number from 0 to 1.
fn scaled(lo: f64, hi: f64, u: f64) -> f64
    ensures { result ≡ between lo hi u }
{
    lo + (hi - lo) * u
}

impl SplitMix64 {
    // The generator whose state is `seed`.
    pub fn new(seed: u64) -> Self
        ensures { result ≡ at_state seed }
    {
        SplitMix64 { state: seed }
    }

    // The generator of a course's seed.
    pub fn from_seed(seed: u64) -> Self
        ensures { result ≡ seeded seed }
    {
        SplitMix64::new(0xCA75_EED0 ^ seed)
    }

    // The state, by which `new` makes the same generator again.
    pub fn state(self) -> u64
        ensures { result ≡ self.state }
    {
        self.state
    }

    // The next draw: 64 bits.
    #[tactic(auto, unfolding(crate::specs::Rules::SplitMix::draw_of, crate::specs::Rules::SplitMix::next_state, crate::specs::Rules::SplitMix::mix64, crate::specs::Rules::SplitMix::xor_shift))]
    pub fn next_u64(&mut self) -> u64
        ensures value { result ≡ (draw_of self.old).value }
        ensures state { self.new ≡ (draw_of self.old).rng }
    {
        self.state = self.state.wrapping_add(0x9E37_79B9_7F4A_7C15);
        let s = self.state;
        let y = wrapping_mul64(s ^ (s >> 30), 0xBF58_476D_1CE4_E5B9);
        let z = wrapping_mul64(y ^ (y >> 27), 0x94D0_49BB_1331_11EB);
        z ^ (z >> 31)
    }

    // The next draw as a number from 0 to below 1.
    #[tactic(auto, unfolding(crate::specs::Rules::Unit::unit_draw_of))]
    pub fn unit(&mut self) -> f64
        ensures value { result ≡ (unit_draw_of self.old).value }
        ensures state { self.new ≡ (unit_draw_of self.old).rng }
    {
        unit_of(self.next_u64())
    }

    // The next draw as a number from lo to hi.
    #[tactic(auto, unfolding(crate::specs::Rules::Unit::uniform_draw_of))]
    pub fn uniform(&mut self, lo: f64, hi: f64) -> f64
        ensures value { result ≡ (uniform_draw_of self.old lo hi).value }
        ensures state { self.new ≡ (uniform_draw_of self.old lo hi).rng }
    {
        scaled(lo, hi, self.unit())
    }
}
