// The lap flag, off and the end of a run (document 01, "Lap" and "Settle").
ghost use Rattle.std.specs.Prelude.{◌≡◌};
ghost use Rattle.run.specs.Rules.Lap.{lap_of, off_field, end_of};

use course::constants::PLAYFIELD;
use course::numeric;

// The lap flag after a contact, by the credit of this contact.
#[tactic(auto, unfolding(crate::specs::Rules::Lap::lap_of, course::specs::Rules::Arithmetic::natural))]
pub(crate) fn update_lap(lap: bool, zero: bool, credited: u32, n: u32, share: f64) -> bool
    ensures { result ≡ lap_of lap zero credited n share }
{
    lap | (zero & (f64::from(credited) / f64::from(n) > share))
}

// The hull is off the playfield.
pub(crate) fn is_off(x: f64, y: f64) -> bool
    ensures { result ≡ off_field x y }
{
    (numeric::abs(x) > PLAYFIELD) | (numeric::abs(y) > PLAYFIELD)
}

// The run ends: all credited, lap or off.
#[tactic(auto, unfolding(crate::specs::Rules::Lap::end_of))]
pub(crate) fn is_end(credited: u32, n: u32, lap: bool, off: bool) -> bool
    ensures { result ≡ end_of credited n lap off }
{
    (credited == n) | (lap | off)
}
