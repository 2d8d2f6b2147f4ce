// Why a call is refused (document 01, "Refusals by cause"; document 02, order 1, adds the last two). Cause 3, a short index list, is told with a
// length: see points.rt.
ghost use Rattle.std.specs.Prelude.{◌≡◌, ℕ};
ghost use Rattle.course.specs.Grader.Cause.{number_of, number_by};

// What a call is refused by: an error that has the number of its cause, for a host to read.
// Kept as a trait of its own beside `Into<u32>`, which is no plainer: `From` tells what it gives by a relation, `from_gives`, and names no
// number, where `cause_number` over any error, and each call above it, promise an equation with one: the ghost `number`.
pub trait Numbered: Copy {
    ghost number: { Self → ℕ };

    fn number(self) -> u32
        ensures { result ≡ number self };
}

#[derive(Clone, Copy, Debug, PartialEq, Eq)]
pub enum Cause {
    // lap share or tick limit out of range
    Settings = 1,
    // a lent column or output that is too short, or a start's n outside its range
    Length = 2,
    // counts of no run, or a run that has ended
    State = 4,
    // out of turn
    Turn = 5,
    // the tick limit is met
    Limit = 6,
    // no such action
    Action = 7,
    // a number that is not finite or out of range
    Range = 8,
    // given points: none, or too many
    Count = 9,
    // a cell that cannot be looked up
    Index = 10,
    // bytes that are no saved form
    Form = 11,
    // a saved run of another course
    Course = 12,
}

impl Numbered for Cause {
    ghost number = { number_of };

    #[tactic(auto, unfolding(crate::specs::Grader::Cause::number_of))]
    fn number(self) -> u32 {
        self as u32
    }
}

// The number of an answer's cause, 0 where it was not refused.
// Kept as a number with 0 for none: the C interface needs it, where a host is told a cause as a number, and 0 of a call that passed.
pub fn cause_number<T, E: Numbered>(answer: &Result<T, E>) -> u32
    ensures { result ≡ number_by E.number answer.now }
{
    match answer {
        Ok(_) => 0,
        Err(error) => error.number(),
    }
}
