// Hashes of forces and of a state, field by field. A float goes by its bits.
use run::dynamics::Force;
use run::numbers::{CAR_NUMBERS, FORCE_NUMBERS, put_car, put_forces};
use run::state::{Car, Progress, Run, Setup};
use vectors::hash;
use vectors::hash::{mix, mix_all};

// Of four forces.
pub fn forces(forces: [Force; 4]) -> u64 {
    let mut list = [0.0; FORCE_NUMBERS];
    put_forces(forces, &mut list);
    hash::column(&list)
}

fn mix_counts(h: u64, setup: Setup, progress: Progress) -> u64 {
    let counts = [
        setup.n,
        progress.visited_count,
        progress.tick,
        setup.tick_limit,
    ];
    mix(mix_all(h, &counts), setup.lap_share)
}

fn mix_flags(h: u64, setup: Setup, progress: Progress) -> u64 {
    mix_all(
        h,
        &[
            progress.lap,
            progress.ended,
            setup.fallback,
            progress.driven,
        ],
    )
}

fn mix_car(h: u64, car: Car) -> u64 {
    let mut list = [0.0; CAR_NUMBERS];
    put_car(car, &mut list);
    mix_all(h, &list)
}

// Of a state but for its last poses and seed, field by field, in the order of the list's records.
pub fn state(run: &Run) -> u64 {
    let counts = mix_counts(1, run.setup, run.progress);
    let h = mix_car(mix_flags(counts, run.setup, run.progress), run.car);
    mix_all(mix_all(h, &run.credited), &run.wheels)
}

// Of a whole state.
pub fn whole(run: &Run) -> u64 {
    mix(mix(mix(1, state(run)), hash::column(&run.poses)), run.seed)
}
