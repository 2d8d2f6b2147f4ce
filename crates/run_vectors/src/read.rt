// What a record says, from its words.
use course::tiles;
use run::dynamics::Motion;
use run::numbers;
use run::start::Settings;
use run::state::{Car, Pose, Progress, Setup};
use vectors::record::Record;

// The pose from word k on.
pub fn pose(record: Record<'_>, k: usize) -> Pose {
    let [x, y, cos, sin]: [f64; 4] = record.values(k);
    Pose { x, y, cos, sin }
}

// The four poses from word k on.
pub fn poses(record: Record<'_>, k: usize) -> [Pose; 4] {
    numbers::poses_from(&record.values(k))
}

// The four motions from word 2 on.
pub fn motions(record: Record<'_>) -> [Motion; 4] {
    numbers::motions_from(&record.values(2))
}

// What start is told, from word 4 on.
pub fn settings(record: Record<'_>) -> Settings {
    Settings {
        n: record.low(4),
        fallback: record.flag(5),
        seed: record.word(6),
        share: record.float(7),
        limit: record.low(8),
        poses: poses(record, 9),
    }
}

// The quad from word k on.
pub fn quad(record: Record<'_>, k: usize) -> [[f64; 2]; 4] {
    tiles::read_quad(&record.values(k))
}

// A state but for its sets is n, count, tick, tick limit, lap share, the four flags (lap, ended, fallback, driven) as bits of
// a word, controls, fuel. Of these, what start fixes.
pub fn setup(record: Record<'_>) -> Setup {
    let [_, _, fallback, _] = record.flags(6);
    Setup {
        n: record.low(1),
        tick_limit: record.low(4),
        lap_share: record.float(5),
        fallback,
    }
}

// What settle changes.
pub fn progress(record: Record<'_>) -> Progress {
    let [lap, ended, _, driven] = record.flags(6);
    Progress {
        visited_count: record.low(2),
        tick: record.low(3),
        lap,
        ended,
        driven,
    }
}

// What drive changes.
pub fn car(record: Record<'_>) -> Car {
    numbers::car_from(&record.values(7))
}
