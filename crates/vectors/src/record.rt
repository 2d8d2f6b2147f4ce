// A stored list and its records. A list is 64-bit words, the low byte first; a float stands there by its bits. A record
// is the code of its kind and its arguments, a word each.
ghost use Rattle.std.specs.Prelude.{◌≡◌, ◌+◌, ◌*◌, ◌/◌, ◌<◌, ◌≤◌, ◌%◌, ◌^◌, ℕ, [], length, take, drop, slice_get, MatchOption, false, nat_eq};
ghost use Rattle.std.specs.Int.{w64, from_le_bytes};
ghost use Rattle.std.specs.Iterator.{at_most};
ghost use Rattle.std.specs.Float.{binary64};
ghost use Rattle.std.specs.Float.Ieee.{of_bits};
ghost use Rattle.std.specs.Simd.{first_chunks};

use crate::columns::front_mut;
use form::eight::Eight;
use std::marker::PhantomData;

// The length of a block of a long list, in bytes. An unknown code ends a block, as the zeros do that fill one up.
pub const BLOCK: usize = 262144;

// The most blocks of a list: what follows them is not read.
pub const BLOCKS: usize = 16;

// A code that is no kind of record: it ends the list.
#[derive(Clone, Copy, Debug, PartialEq, Eq)]
pub struct UnknownCode(pub u64);

// A kind of record, by its code.
// Kept without a promise of `arguments`: how many they are is a table, and a ghost would be the same table again.
pub trait Kind: Copy + TryFrom<u64, Error = UnknownCode> {
    // How many words such a record has after its code.
    fn arguments(self, record: Record<'_>) -> usize;
}

// What a word stands for.
pub trait Value: Copy {
    ghost of_word: { ℕ → Self };

    fn of_word(word: u64) -> Self
        ensures { result ≡ of_word word };
}

impl Value for u64 {
    ghost of_word = { λ w. w };

    fn of_word(word: u64) -> u64 {
        word
    }
}

// The float whose bits it is.
impl Value for f64 {
    ghost of_word = { of_bits binary64 };

    fn of_word(word: u64) -> f64 {
        f64::of_number(word)
    }
}

// Its low half. Kept beside form's `Eight`, whose values are eight bytes wide.
impl Value for u32 {
    ghost of_word = { λ w. w % 2 ^ 32 };

    fn of_word(word: u64) -> u32 {
        (word % (1 << 32)) as u32
    }
}

// A list from one of its records on.
#[derive(Clone, Copy)]
pub struct Record<'a> {
    list: &'a [u8],
}

impl<'a> Record<'a> {
    // All of a list.
    pub fn new(list: &'a [u8]) -> Self
        ensures { result.list.now ≡ list.entry.now }
    {
        Record { list }
    }

    // The list's whole words.
    fn words(self) -> &'a [[u8; 8]]
        ensures { result.now ≡ first_chunks 8 (length self.entry.list.now / 8) self.entry.list.now }
    {
        let (words, _) = self.list.as_chunks();
        words
    }

    // Word number `at`, from 0; 0 past the list's end.
    pub fn word(self, at: usize) -> u64
        ensures { MatchOption (slice_get (first_chunks 8 (length self.entry.list.now / 8) self.entry.list.now) at)
            (result ≡ 0) (λ w. result ≡ from_le_bytes w64 w) }
    {
        self.words()
            .get(at)
            .map_or(0, |word| u64::from_le_bytes(*word))
    }

    // The float whose bits are the word.
    pub fn float(self, at: usize) -> f64
        ensures { MatchOption (slice_get (first_chunks 8 (length self.entry.list.now / 8) self.entry.list.now) at)
            (result ≡ of_bits binary64 0) (λ w. result ≡ of_bits binary64 (from_le_bytes w64 w)) }
    {
        f64::of_word(self.word(at))
    }

    // The low half of the word.
    pub fn low(self, at: usize) -> u32
        ensures { MatchOption (slice_get (first_chunks 8 (length self.entry.list.now / 8) self.entry.list.now) at)
            (result ≡ 0) (λ w. result ≡ from_le_bytes w64 w % 2 ^ 32) }
    {
        u32::of_word(self.word(at))
    }

    // The low bit of the word.
    // Kept as a remainder: the language has no `bool` of a number.
    pub fn flag(self, at: usize) -> bool
        ensures { MatchOption (slice_get (first_chunks 8 (length self.entry.list.now / 8) self.entry.list.now) at)
            (result ≡ false) (λ w. result ≡ nat_eq (from_le_bytes w64 w % 2) 1) }
    {
        self.word(at) % 2 == 1
    }

    // The four low bits of the word, the lowest first.
    pub fn flags(self, at: usize) -> [bool; 4] {
        let word = self.word(at);
        [1, 2, 4, 8].map(|bit| word & bit != 0)
    }

    // The word as a number, but at most `most`.
    pub fn upto(self, at: usize, most: usize) -> usize
        ensures { result ≤ most }
    {
        (self.word(at) as usize).min(most)
    }

    // What every `step`-th word from word `from` on stands for, into the column.
    // Kept with a word's place worked out: zipped with a range of places, which ends, a column longer than the record would stay as it was behind it.
    fn fill_by<V: Value>(self, from: usize, step: usize, col: &mut [V]) {
        for (i, place) in col.iter_mut().enumerate() {
            let at = i.saturating_mul(step).saturating_add(from);
            *place = V::of_word(self.word(at));
        }
    }

    // What the words from word `from` on stand for, into the column.
    pub fn fill<V: Value>(self, from: usize, col: &mut [V]) {
        self.fill_by(from, 1, col);
    }

    // One number of each of so many points, three words to a point, into the front of the column.
    pub fn fill_points(self, from: usize, count: usize, col: &mut [f64]) {
        self.fill_by(from, 3, front_mut(col, count as u64));
    }

    // What the N words from word `from` on stand for.
    pub fn values<V: Value, const N: usize>(self, from: usize) -> [V; N] {
        let mut values = [V::of_word(0); N];
        self.fill(from, &mut values);
        values
    }

    // The n bytes from word `at` on, which need not end with a word; none where the list ends before them.
    pub fn bytes(self, at: usize, n: usize) -> &'a [u8]
        ensures bound { length result.now ≤ n }
        ensures there { at * 8 + n ≤ length self.entry.list.now
            → result.now ≡ take n (drop (at * 8) self.entry.list.now) }
        ensures none { length self.entry.list.now < at * 8 + n → result.now ≡ [] }
    {
        let rest = self.list.get(at.saturating_mul(8)..).unwrap_or(&[]);
        rest.get(..n).unwrap_or(&[])
    }
}

// The records of a list in turn, each with its kind, up to the list's end or an unknown code.
#[derive(Drop)]
pub struct Records<'a, K> {
    list: &'a [u8],
    kind: PhantomData<K>,
}

impl<'a, K: Kind> Records<'a, K> {
    pub fn new(list: &'a [u8]) -> Self {
        Records {
            list,
            kind: PhantomData,
        }
    }
}

impl<'a, K: Kind> Iterator for Records<'a, K> {
    type Item = (K, Record<'a>);

    ghost remaining = { λ s. at_most (length s.list.now / 8) };

    fn next(&mut self) -> Option<(K, Record<'a>)> {
        let record = Record { list: self.list };
        let (first, _) = record.words().split_first()?;
        let kind = K::try_from(u64::from_le_bytes(*first)).ok()?;
        let length = kind.arguments(record).saturating_add(1).saturating_mul(8);
        self.list = self.list.get(length..).unwrap_or(&[]);
        Some((kind, record))
    }
}
