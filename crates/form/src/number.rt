// Numbers as bytes, the low byte first.
ghost use Rattle.std.specs.Prelude.{◌≡◌, ◌^◌, ◌≤◌, ◌<◌, min, length, take, drop, Ok};
ghost use Rattle.form.specs.Rules.Bytes.{low, number, all_zero, leaves, store};

use crate::short::TooShort;

// Whether every byte is 0. Kept as a fold that reads them all, many at a time: `all`, which reads byte by byte and stops, was tried, and took
// 40 % more instructions and time in a save of a run just started.
pub fn all_zero(bytes: &[u8]) -> bool
    ensures { result ≡ all_zero bytes.now }
{
    bytes.iter().fold(0, |any, byte| any | *byte) == 0
}

// The k low bytes of v go to the front of the output, if they have room.
pub fn put_number(v: u64, k: usize, out: &mut [u8]) -> Result<(), TooShort>
    ensures value { leaves result out.new ≡ store (low k v) out.old }
    ensures room { k ≤ length out.old → result ≡ Ok tt }
{
    if out.len() < k {
        return Err(TooShort);
    }
    let n = k.min(8);
    out[..n].copy_from_slice(&v.to_le_bytes()[..n]);
    out[n..k].fill(0);
    Ok(())
}

// The number of up to eight bytes.
fn number_of(bytes: &[u8]) -> u64
    requires { length bytes.now ≤ 8 }
    ensures { (result ≡ number bytes.now) × (result < 256 ^ length bytes.now) }
{
    let mut eight = [0u8; 8];
    eight[..bytes.len()].copy_from_slice(bytes);
    u64::from_le_bytes(eight)
}

// The number of the k bytes from `at` on, or of eight where k is more; a byte past the end counts as
// 0. That the number is as small as its bytes says that a caller may cast it.
pub fn number_at(bytes: &[u8], at: usize, k: usize) -> u64
    ensures { (result ≡ number (take (min k 8) (drop at bytes.now))) × (result < 256 ^ min k 8) }
{
    let rest = &bytes[at.min(bytes.len())..];
    let n = k.min(8).min(rest.len());
    number_of(&rest[..n])
}
