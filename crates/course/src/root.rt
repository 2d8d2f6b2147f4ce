// The square root of every f64, correctly rounded (document 01, "Stand-ins"), in whole numbers alone: from the bits to a whole
// significand and a power of two, from those to the significand's whole root with a digit to spare, and that digit rounds it. A digit is
// a binary one here, a bit.
// Kept beside the library's `f64::sqrt`: document 01 names this form, a root from the bits by an integer root.
ghost use Rattle.std.specs.Prelude.{◌≡◌, ◌+◌, ◌*◌, ◌/◌, ◌%◌, ◌^◌, ◌<◌, ◌≤◌, IfSome, from_bits};
ghost use Rattle.course.specs.Rules.Root.{nearest_root, sqrt_of};
ghost use Rattle.std.specs.Float.{binary64};
ghost use Rattle.course.specs.Steps.Root.{units_of, significand, power, Scaled, IsRoot};

// The weight of a significand's leading digit, and so of the exponent's field; and that of the sign.
const LEAD: u64 = 1 << 52;

const SIGN: u64 = 1 << 63;

// The bits of the infinity: those of a finite number are below it, and those of a negative one above.
const INFINITY: u64 = f64::to_bits(f64::INFINITY);

// 2^32, which a number of 32 digits is below.
const WORD: u64 = 1 << 32;

// What the start of a guess is taken from: a little less than 2^54.
const START: u64 = 4 * LEAD - 0x400_0000_0000;

// The root of n * 4^27, by the library. No root was found to take it, and it is kept out of the way of those that don't.
#[cold]
#[inline(never)]
fn library_root(n: u64) -> u64
    ensures { IsRoot (n * 18014398509481984) result }
{
    (u128::from(n) * 0x40_0000_0000_0000).isqrt() as u64
}

// The product of two numbers of 32 digits.
fn product(a: u32, b: u32) -> u64
    ensures { result ≡ a * b }
{
    u64::from(a) * u64::from(b)
}

// 32 digits of a product, from digit CUT on. It promises nothing, as `guess` that it stands under: both are free to miss the root.
fn from_digit<const CUT: u32>(a: u32, b: u32) -> u32
    requires { CUT < 64 }
{
    ((product(a, b) >> CUT) % WORD) as u32
}

// A root and its inverse, in units of 2^-31.
#[derive(Clone, Copy)]
struct Estimate {
    root: u32,
    inverse: u32,
}

// A guess at the root of a, which is from 1 to 4 in units of 2^-30, from a y near the inverse of the root, in units of 2^-32.
// Nothing is promised: `tested` decides. In units of 2^-31, q is a * y * y, near 1, and t is f * g * h / 2, a polynomial
// of degree 6 near the inverse root of q. It is worked out in factors, since none of them waits for another, and its highest
// coefficient is 1/8, which needs no product. The 8 makes up for the digits that were cut off. The root is told less by 2: w * t is up to 2
// above it, and what a guess above the root leaves would wrap. All of it is modulo 2^32.
fn guess(a: u32, y: u32) -> Estimate {
    let w = from_digit::<31>(a, y);
    let q = from_digit::<32>(w, y);
    let f = 0x87b9_d99d_u32.wrapping_sub(from_digit::<31>(0x319b_78ab_u32.wrapping_sub(q / 2), q));
    let g = 0x7d7b_7ebe_u32.wrapping_add(from_digit::<31>(q.wrapping_sub(0x29c7_620b), q));
    let h = 0xef5e_28d9_u32.wrapping_sub(from_digit::<32>(0x56c8_48b2_u32.wrapping_sub(q), q));
    let t = from_digit::<32>(g, from_digit::<31>(f, h));
    Estimate {
        root: from_digit::<31>(w, t).wrapping_sub(2),
        inverse: from_digit::<32>(y.wrapping_add(8), t),
    }
}

// s * 2^22 + d where it is the whole root of a * 2^44, for an a that is the square of s and e more. What it leaves is
// (e * 2^21 - s * d) * 2^23 - d^2. A difference below zero wraps to one that is far too large.
fn tested(s: u32, e: u64, d: u32) -> Option<u64>
    requires { (e < 137438953472) × (d ≤ 268435456) }
    ensures { IfSome result (λ w. IsRoot ((s * s + e) * 17592186044416) w) }
{
    let t = (e * 0x20_0000).wrapping_sub(product(s, d));
    if 0x100_0000_0000 <= t {
        return None;
    }
    let left = (t * 0x80_0000).wrapping_sub(product(d, d));
    if left <= u64::from(s) * 0x80_0000 + u64::from(d) * 2 {
        Some(u64::from(s) * 0x40_0000 + u64::from(d))
    } else {
        None
    }
}

// The root of n * 4^27 where s * 2^22 + d is not it: one of the neighbours, or else the library's.
fn mended(n: u64, s: u32, e: u64, d: u32) -> u64
    requires { (s * s + e ≡ n * 1024) × (e < 137438953472) × (d < 268435456) }
    ensures { IsRoot (n * 18014398509481984) result }
{
    if let Some(w) = tested(s, e, d.wrapping_sub(1) % 0x1000_0000) {
        return w;
    }
    if let Some(w) = tested(s, e, d + 1) {
        return w;
    }
    library_root(n)
}

// The root of n * 4^27. s is a guess at its upper digits, e is what s leaves, and d are the digits that follow from that. They are
// taken if they or a neighbour are tested, and else the root is looked for without the guess.
// l is to be such that 1 - l / 2^54 is near the inverse root of n / 2^52; any other costs only time.
fn whole_root(n: u64, l: u64) -> u64
    requires { (4503599627370496 ≤ n) × (n < 18014398509481984) × (l < 9007199254740992) }
    ensures { IsRoot (n * 18014398509481984) result }
{
    let a = n * 1024;
    let g = guess((a / WORD) as u32, ((START - l) / 0x40_0000) as u32);
    let s = g.root;
    let e = a.wrapping_sub(product(s, s));
    if 0x20_0000_0000 <= e {
        return library_root(n);
    }
    let d = (product((e / 32) as u32, g.inverse) / 0x10_0000_0000) as u32;
    if let Some(w) = tested(s, e, d) {
        return w;
    }
    mended(n, s, e, d)
}

// The bits of a normal number, and how many times it was multiplied by four.
// Kept apart from what is true of the two: `root_bits` alone asks it, of the one that `scaled` makes, so that ghost fields would say it again.
#[derive(Clone, Copy)]
struct Normal {
    bits: u64,
    fours: u64,
}

// The bits of a positive finite number, b, brought to those of a normal one.
fn scaled(b: u64) -> Normal
    requires { (0 < b) × (b < 9218868437227405312) }
    ensures { Scaled (units_of (b / 4503599627370496) (b % 4503599627370496)) result.bits result.fours }
{
    if LEAD <= b {
        return Normal { bits: b, fours: 0 };
    }
    let up = b.leading_zeros() - 11;
    Normal {
        bits: (54 - u64::from(up)) * LEAD + (b << up),
        fours: 27,
    }
}

// The bits of the f64 nearest to the root of 4^-k times the normal number with the bits b. l is the digits below the leading one,
// and before them the parity of the power: with an odd one, n is twice the significand. The whole root of n * 4^27 has 54 digits, of
// which the last rounds the others.
fn root_bits(b: u64, k: u64) -> u64
    requires { (4503599627370496 ≤ b) × (b < 9218868437227405312) × (k ≤ 27) × (2 * k ≤ 51 + b / 4503599627370496) }
    ensures { (from_bits binary64 result ≡ nearest_root (significand b * 2 ^ power b k))
        × (result < 9218868437227405312) }
{
    let l = (b + LEAD) % (2 * LEAD);
    let n = (LEAD + b % LEAD) << (l / LEAD);
    let w = whole_root(n, l);
    ((b / LEAD + 1021) / 2 - k) * LEAD + (w + 1) / 2
}

// The square root, as IEEE 754 has it. The infinity and the zeros are their own roots, and there is none below zero.
pub fn sqrt(x: f64) -> f64
    ensures { result ≡ sqrt_of x }
{
    if x.is_nan() {
        return x;
    }
    let b = x.to_bits();
    if INFINITY <= b {
        if b <= SIGN {
            return x;
        }
        return f64::NAN;
    }
    if b == 0 {
        return x;
    }
    let p = scaled(b);
    f64::from_bits(root_bits(p.bits, p.fours))
}
