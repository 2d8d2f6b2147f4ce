// Sets of tiles kept as words of 64 bits: tile t is bit t % 64 of word t / 64. A set is lent as a slice.
// Kept as functions of a slice: document 01 names one [u64; 160] array for the four wheels' sets, so that a wheel's set is a part of an
// array, no value of a type of its own, which could have methods.
ghost use Rattle.std.specs.Prelude.{◌≡◌, false, not, ◌&&◌, ◌||◌, ◌*◌, ◌^◌, ◌<◌, eqb, length};
ghost use Rattle.run.specs.Rules.Below.{how_many};
ghost use Rattle.std.specs.List.{list_all};
ghost use Rattle.run.specs.Grader.Words.{member, set_of};
ghost use Rattle.run.specs.Grader.Saved.{all_below};
ghost use Rattle.run.specs.Steps.Touch.{Creditable};

// Whether the set has a tile.
#[tactic(auto, unfolding(crate::specs::Grader::Words::member, crate::specs::Grader::Words::bit_of))]
pub(crate) fn has(set: &[u64], id: usize) -> bool
    requires { id < 64 * length set.now }
    ensures { result ≡ member set.now id }
{
    (set[id / 64] >> (id % 64)) % 2 == 1
}

// The set with a tile more.
pub(crate) fn put(set: &mut [u64], id: usize)
    requires { id < 64 * length set.old }
    ensures { set.new ≡ set_of (length set.old) (λ t. member set.old t || eqb t id) }
{
    set[id / 64] |= 1u64 << (id % 64);
}

// The empty set.
#[tactic(auto, using(crate::proofs::CreditLaws::zeros_empty))]
pub(crate) fn clear(set: &mut [u64])
    ensures { set.new ≡ set_of (length set.old) (λ t. false) }
{
    set.fill(0);
}

// What is in `wheel` and not in `before` is credited; how many of these tiles were not credited before. A
// course has few tiles for the words at hand: those after the word of tile n - 1 are not gone through.
// Kept by index where it credits: tried with `credited.iter_mut()` zipped to the two, and while it is lent the loop's invariant has no word for
// what it holds, so that nothing is known of the set after the loop.
pub(crate) fn credit(credited: &mut [u64], before: &[u64], wheel: &[u64], n: usize) -> u32
    requires { Creditable (length credited.old) n before.now wheel.now }
    ensures credited_after { credited.new
        ≡ set_of (length credited.old)
        (λ t. member credited.old t || (member wheel.now t && not (member before.now t))) }
    ensures value { result
        ≡ how_many (64 * length credited.old)
        (λ t. (member wheel.now t && not (member before.now t))
        && not (member credited.old t)) }
{
    let mut fresh: u32 = 0;
    for (i, (now, last)) in wheel[..n.div_ceil(64)].iter().zip(before).enumerate() {
        let entered = now & !last;
        // Mostly nothing was entered, and the count is dear where the processor has no instruction for it.
        if entered != 0 {
            fresh += (entered & !credited[i]).count_ones();
            credited[i] |= entered;
        }
    }
    fresh
}

// How many tiles the set has.
pub(crate) fn count(set: &[u64]) -> u32
    requires { 64 * length set.now < 2 ^ 32 }
    ensures { result ≡ how_many (64 * length set.now) (member set.now) }
{
    set.iter().map(|word| word.count_ones()).sum()
}

// No word has a tile.
fn is_empty(words: &[u64]) -> bool
    ensures { result ≡ list_all (λ w. eqb w 0) words.now }
{
    words.iter().all(|word| *word == 0)
}

// No tile of the set is n or more. The words of lesser tiles are not gone through; n % 64 is how many of the next word's tiles are below n.
pub(crate) fn all_below(set: &[u64], n: usize) -> bool
    ensures { result ≡ all_below n set.now }
{
    let first = n / 64;
    if set.len() <= first {
        return true;
    }
    set[first] >> (n % 64) == 0 && is_empty(&set[first + 1..])
}
