// One contact of four wheels over the lent course (document 01, "Touch"; the Rust's `contact_pass`), in place over sets
// of any number of words: first what each wheel touches now, then the credit of what it entered.
ghost use Rattle.std.specs.Prelude.{◌≡◌, true, not, ◌&&◌, length};
ghost use Rattle.run.specs.Grader.Words.{member};
ghost use Rattle.run.specs.Rules.Wheel.{quad_of};
ghost use Rattle.run.specs.Steps.Touch.{Room, Creditable, AllCreditable, credits, credits_of, entered_since};
ghost use Rattle.run.specs.Grader.Touch.{touched_by, sound_poses};
ghost use Rattle.run.specs.Grader.Contact.{wheel_sets, contacted, contact_of};
ghost use Rattle.run.specs.Grader.Widths.{full_words};

use crate::quad::Stance;
use crate::touch::{Columns, Course};
use crate::widths::{FULL_WORDS, WHEEL_WORDS};
use crate::{quad, touch, words};

// How many tiles are new, and whether a wheel entered tile 0.
#[derive(Clone, Copy)]
pub(crate) struct Contact {
    pub fresh: u32,
    pub zero: bool,
}

// The sets of the four wheels become what each touches now, every one made anew; `tested` is scratch.
// Kept by numbers: what the parts that `chunks_exact_mut` lends hold after the loop no proof knows (tried, side by side with poses and cells).
fn touch_sets(
    stance: &Stance,
    columns: Columns<'_>,
    n: usize,
    tested: &mut [u64],
    wheels: &mut [u64],
)
    requires sound { sound_poses columns.offsets.now columns.list.now n stance.now.poses ≡ true }
    requires room { Room 4 n columns.tiles.now tested.old wheels.old }
    ensures { wheels.new
        ≡ wheel_sets (length tested.old)
        (λ w. touched_by columns.entry.tiles.now columns.entry.offsets.now columns.entry.list.now
        (quad_of stance.now.poses w)) 4 }
{
    let m = tested.len();
    for wheel in 0..4 {
        let from = wheel * m;
        touch::touch_quad(
            quad::wheel_quad(stance.poses[wheel]),
            &stance.cells[wheel],
            columns,
            n,
            tested,
            &mut wheels[from..from + m],
        );
    }
}

// What one wheel entered is credited: what is in its set now and was not in that before.
fn credit_set(credited: &mut [u64], before: &[u64], wheel: &[u64], n: usize) -> Contact
    requires { Creditable (length credited.old) n before.now wheel.now }
    ensures { credits credited.new result.fresh result.zero
        ≡ credits_of credited.old
        (λ t. member wheel.now t && not (member before.now t)) }
{
    let zero = words::has(wheel, 0) & !words::has(before, 0);
    let fresh = words::credit(credited, before, wheel, n);
    Contact { fresh, zero }
}

// What the four wheels entered is credited.
fn credit_sets(credited: &mut [u64], before: &[u64], wheels: &[u64], n: usize) -> Contact
    requires { AllCreditable (length credited.old) n before.now wheels.now }
    ensures { credits credited.new result.fresh result.zero
        ≡ credits_of credited.old
        (entered_since (length credited.old) before.now wheels.now) }
{
    let m = credited.len();
    let mut fresh: u32 = 0;
    let mut zero = false;
    for (last, now) in before.chunks_exact(m).zip(wheels.chunks_exact(m)) {
        let k = credit_set(credited, last, now, n);
        fresh += k.fresh;
        zero |= k.zero;
    }
    Contact { fresh, zero }
}

// The contact of four wheels on the full state's sets, by the cells of the wheels' boxes.
pub(crate) fn full_contact(
    stance: &Stance,
    course: Course,
    credited: &mut [u64; FULL_WORDS],
    wheels: &mut [u64; WHEEL_WORDS],
) -> Contact
    requires { sound_poses course.columns.offsets.now course.columns.list.now course.n stance.now.poses ≡ true }
    ensures { contacted credited.new wheels.new result.fresh result.zero
        ≡ contact_of full_words credited.old wheels.old
        (λ w. touched_by course.entry.columns.tiles.now course.entry.columns.offsets.now
        course.entry.columns.list.now (quad_of stance.now.poses w)) }
{
    let mut tested = [0; FULL_WORDS];
    let before = *wheels;
    touch_sets(stance, course.columns, course.n, &mut tested, wheels);
    credit_sets(credited, &before, wheels, course.n)
}
