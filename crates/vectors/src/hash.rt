// Hashes of columns: 64 bits that depend on each entry and its place.

ghost use Rattle.std.specs.Prelude.{◌≡◌, ℕ};
ghost use Rattle.std.specs.Float.{binary64};
ghost use Rattle.std.specs.Float.Ieee.{to_bits};
ghost use Rattle.std.specs.Int.{from_bool};

use form::eight::Eight;

// What goes into a hash as a word.
// Kept with an impl for each type, of a line each: a generic one over `Into<u64>` would take in types that have none here. And beside form's `Eight`, whose
// values are eight bytes wide, as flags, marks and ids are not.
pub trait Hashed: Copy {
    ghost word: { Self → ℕ };

    fn word(self) -> u64
        ensures { result ≡ word self };
}

// A float goes by its bits.
impl Hashed for f64 {
    ghost word = { to_bits binary64 };

    fn word(self) -> u64 {
        self.number_of()
    }
}

impl Hashed for u64 {
    ghost word = { λ w. w };

    fn word(self) -> u64 {
        self
    }
}

impl Hashed for u32 {
    ghost word = { λ w. w };

    fn word(self) -> u64 {
        u64::from(self)
    }
}

impl Hashed for u8 {
    ghost word = { λ w. w };

    fn word(self) -> u64 {
        u64::from(self)
    }
}

impl Hashed for bool {
    ghost word = { from_bool };

    fn word(self) -> u64 {
        u64::from(self)
    }
}

// h with one more entry.
pub fn mix<T: Hashed>(h: u64, x: T) -> u64 {
    (h ^ x.word()).wrapping_mul(0x100_0000_01B3) ^ (h >> 29)
}

// h with all entries of a column.
// Kept as a loop: by `fold` the checked build of `rt try`, in which host/compare/mutants runs the programs, takes four times as long.
pub fn mix_all<T: Hashed>(start: u64, col: &[T]) -> u64 {
    let mut h = start;
    for x in col {
        h = mix(h, *x);
    }
    h
}

// Of a whole column.
pub fn column<T: Hashed>(col: &[T]) -> u64 {
    mix_all(1, col)
}
