// Words and floats, eight bytes each: by their bits, the low byte first.
ghost use Rattle.std.specs.Prelude.{◌≡◌, ◌*◌, ◌≤◌, ℕ, length, Ok};
ghost use Rattle.std.specs.Float.{binary64};
ghost use Rattle.std.specs.Float.Ieee.{to_bits, of_bits};
ghost use Rattle.form.specs.Rules.Bytes.{each_bytes, leaves, store, fill_each};

use crate::short::TooShort;
use std::num::{f64_from_bits_with_nan, f64_to_bits_with_nan};

// A value that is eight bytes in a saved form.
pub trait Eight: Copy {
    ghost number_of: { Self → ℕ };

    ghost of_number: { ℕ → Self };

    fn number_of(self) -> u64
        ensures { result ≡ number_of self };

    fn of_number(n: u64) -> Self
        ensures { result ≡ of_number n };
}

impl Eight for u64 {
    ghost number_of = { λ w. w };

    ghost of_number = { λ w. w };

    fn number_of(self) -> u64 {
        self
    }

    fn of_number(n: u64) -> u64 {
        n
    }
}

// By its IEEE bits, with one pattern for every NaN.
impl Eight for f64 {
    ghost number_of = { to_bits binary64 };

    ghost of_number = { of_bits binary64 };

    fn number_of(self) -> u64 {
        f64_to_bits_with_nan(self)
    }

    fn of_number(n: u64) -> f64 {
        f64_from_bits_with_nan(n)
    }
}

// Values go to the front of the output, eight bytes each, if they have room.
// Kept by index, here and in `read`: after a loop over `chunks_exact_mut(8).zip(values)`, or over `iter_mut().zip(eights)`, no proof
// knows what the lent list holds (tried).
pub fn put<E: Eight>(values: &[E], out: &mut [u8]) -> Result<(), TooShort>
    ensures value { leaves result out.new ≡ store (each_bytes E.number_of values.now) out.old }
    ensures room { 8 * length values.now ≤ length out.old → result ≡ Ok tt }
{
    if out.len() / 8 < values.len() {
        return Err(TooShort);
    }
    for (i, value) in values.iter().enumerate() {
        out[i * 8..i * 8 + 8].copy_from_slice(&value.number_of().to_le_bytes());
    }
    Ok(())
}

// Values are read from the front of the bytes, if these are enough.
pub fn read<E: Eight>(bytes: &[u8], values: &mut [E]) -> Result<(), TooShort>
    ensures value { leaves result values.new ≡ fill_each E.of_number bytes.now values.old }
    ensures room { 8 * length values.old ≤ length bytes.now → result ≡ Ok tt }
{
    let (eights, _) = bytes.as_chunks::<8>();
    if eights.len() < values.len() {
        return Err(TooShort);
    }
    for (i, value) in values.iter_mut().enumerate() {
        *value = E::of_number(u64::from_le_bytes(eights[i]));
    }
    Ok(())
}
