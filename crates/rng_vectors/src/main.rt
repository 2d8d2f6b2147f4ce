// Replays SplitMix64: the published draws of the seeds 1234567 and 0, units of four courses' seeds and of chosen
// draws as bit patterns, and the first draws of courses' seeds below 2^32 and above. The expected lines stand in
// ../stdout; `host/compare/write rng` makes them from the Rust.
#![tactic(auto)]

use rng::SplitMix64;
use std::io;
use vectors::line::Bits;

// Five draws of a generator.
fn draws(rt: &impl Print, mut rng: SplitMix64) -> io::Result<()> {
    for _ in 0..5 {
        println!(rt; "{}", rng.next_u64())?;
    }
    Ok(())
}

// The 48 units that two attempts at a course take.
fn units(rt: &impl Print, seed: u64) -> io::Result<()> {
    let mut rng = SplitMix64::from_seed(seed);
    for _ in 0..48 {
        println!(rt; "{}", Bits(rng.unit()))?;
    }
    Ok(())
}

// A draw from lo to hi of a course's seed.
fn uniform(rt: &impl Print, seed: u64, lo: f64, hi: f64) -> io::Result<()> {
    println!(rt; "{}", Bits(SplitMix64::from_seed(seed).uniform(lo, hi)))
}

// Two wrapping products.
fn products(rt: &impl Print) -> io::Result<()> {
    println!(rt;
        "{}",
        rng::wrapping_mul64(18446744073709551615, 18446744073709551615)
    )?;
    println!(rt;
        "{}",
        rng::wrapping_mul64(0x9E37_79B9_7F4A_7C15, 0xBF58_476D_1CE4_E5B9)
    )
}

// The units of chosen draws: about the bits that a unit leaves out, and the greatest.
fn chosen(rt: &impl Print) -> io::Result<()> {
    let draws = [
        0,
        2047,
        2048,
        4095,
        4096,
        0xCA75_EED0,
        0x8000_0000_0000_0000,
        0xFFFF_FFFF_FFFF_F800,
        0xFFFF_FFFF_FFFF_FFFF,
    ];
    for draw in draws {
        println!(rt; "{}", Bits(rng::unit_of(draw)))?;
    }
    Ok(())
}

// The first draws of courses' seeds.
fn firsts(rt: &impl Print) -> io::Result<()> {
    let seeds = [
        0,
        7,
        0xFFFF_FFFF,
        0x1_0000_0000,
        0x1_0000_0007,
        0xFFFF_FFFF_FFFF_FFFF,
    ];
    for seed in seeds {
        println!(rt; "{}", SplitMix64::from_seed(seed).next_u64())?;
    }
    Ok(())
}

fn main(rt: HostRuntime) -> io::Result<()> {
    draws(&rt, SplitMix64::new(1234567))?;
    draws(&rt, SplitMix64::new(0))?;
    for seed in [0, 42, 0xCA75_EED0, 4294967295] {
        units(&rt, seed)?;
    }
    uniform(&rt, 7, 50.0, 150.0)?;
    uniform(&rt, 7, 0.0, 0.5235987755982988)?;
    products(&rt)?;
    chosen(&rt)?;
    firsts(&rt)
}
