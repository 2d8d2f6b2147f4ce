// The four columns that a walk writes, lent together (document 01, "Lay": Lent).
// Kept as `&mut` columns of the caller's, each with its room as a ghost field: the grader has no memory of its own.
ghost use Rattle.std.specs.Prelude.{◌≤◌, length};
ghost use Rattle.course.specs.Rules.Lengths.{laid_length};

// The columns of angles, headings and places, each with at least the length that lay asks for.
#[derive(Drop)]
pub(crate) struct WalkColumns<'a> {
    pub alpha: &'a mut [f64],
    pub beta: &'a mut [f64],
    pub x: &'a mut [f64],
    pub y: &'a mut [f64],
    ghost room_alpha: { laid_length ≤ length alpha.now },
    ghost room_beta: { laid_length ≤ length beta.now },
    ghost room_x: { laid_length ≤ length x.now },
    ghost room_y: { laid_length ≤ length y.now },
}
