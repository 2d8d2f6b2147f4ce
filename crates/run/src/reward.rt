// The reward of a settle (document 01, "Beside the run"; the Rust's `step_reward`).
ghost use Rattle.std.specs.Prelude.{◌≡◌};
ghost use Rattle.run.specs.Rules.Reward.{reward_of, default_weights};

// The Rust's `CarRacingReward`.
#[repr(C)]
#[derive(Clone, Copy)]
pub struct Weights {
    pub tile: f64,
    pub step: f64,
    pub off_playfield: f64,
}

// The Rust's default weights.
impl Default for Weights {
    ghost is_default = { λ w. w ≡ default_weights };

    fn default() -> Weights {
        Weights {
            tile: 1000.0,
            step: -0.1,
            off_playfield: -100.0,
        }
    }
}

// tile * new / max(n, 1) + step, or the off value alone.
pub fn reward(w: Weights, new: u32, n: u32, off: bool) -> f64
    ensures { result ≡ reward_of w new n off }
{
    if off {
        return w.off_playfield;
    }
    w.tile * f64::from(new) / f64::from(n.max(1)) + w.step
}
