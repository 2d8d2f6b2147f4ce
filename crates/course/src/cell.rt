// The cells of the grid (document 01, "Tiles and index").
ghost use Rattle.std.specs.Prelude.{◌≡◌};
ghost use Rattle.course.specs.Rules.Cell.{cell_of, cell_at};

use crate::constants::{GRID_CELL, GRID_DIM, PLAYFIELD};

// The grid cell of a coordinate: 0 to 66.
pub fn cell_of(v: f64) -> usize
    ensures { result ≡ cell_of v }
{
    let w = (v + PLAYFIELD) / GRID_CELL;
    std::num::saturating_f64_to_usize(w).min(GRID_DIM - 1)
}

// The number of a point's cell: row times 67 plus column.
pub fn cell_at(x: f64, y: f64) -> usize
    ensures { result ≡ cell_at x y }
{
    cell_of(y) * GRID_DIM + cell_of(x)
}
