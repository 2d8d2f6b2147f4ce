// A quad's rectangle of cells (document 01, "Tiles and index").
ghost use Rattle.std.specs.Prelude.{◌≤◌};

use crate::cell::cell_of;
use crate::numeric::{greatest, least};
use crate::tiles;

// A rectangle of the grid's 67 rows and columns: its first and last column and row.
#[derive(Clone, Copy)]
pub struct Rect {
    pub x0: usize,
    pub x1: usize,
    pub y0: usize,
    pub y1: usize,
    ghost left: { x0 ≤ 66 },
    ghost bottom: { y0 ≤ 66 },
    ghost right: { x1 ≤ 66 },
    ghost top: { y1 ≤ 66 },
}

impl Rect {
    ghost use Rattle.std.specs.Prelude.{◌≡◌, ◌+◌, ◌-◌, ◌*◌, ◌<◌, length};
    ghost use Rattle.course.specs.Rules.Lengths.{most_points};
    ghost use Rattle.course.specs.Rules.Rect.{rect_around, rect_of, area_of};
    ghost use Rattle.course.specs.Grader.Rect.{rect_as};
    ghost use Rattle.course.specs.Steps.Index.{Packs, Packed, rect_in};

    // The cells from the least to the greatest coordinates of a quad.
    pub fn of_quad(q: &[[f64; 2]; 4]) -> Rect
        ensures { rect_as result ≡ rect_around q.now }
    {
        let [[xa, ya], [xb, yb], [xc, yc], [xd, yd]] = *q;
        let x0 = cell_of(least(xa, xb, xc, xd));
        let x1 = cell_of(greatest(xa, xb, xc, xd));
        let y0 = cell_of(least(ya, yb, yc, yd));
        let y1 = cell_of(greatest(ya, yb, yc, yd));
        Rect { x0, x1, y0, y1 }
    }

    // The same of tile i.
    pub(crate) fn of_tile(tiles: &[f64], i: usize) -> Rect
        requires { (i < most_points) × (i * 8 + 8 ≤ length tiles.now) }
        ensures { rect_as result ≡ rect_of tiles.now i }
    {
        let numbers = tiles[i * 8..i * 8 + 8].first_chunk().unwrap();
        Rect::of_quad(&tiles::read_quad(numbers))
    }

    // The number of its columns.
    pub(crate) fn width(self) -> usize
        ensures { result ≡ self.x1 + 1 - self.x0 }
    {
        (self.x1 + 1).saturating_sub(self.x0)
    }

    // The number of its cells.
    #[tactic(auto, unfolding(crate::specs::Rules::Rect::area_of))]
    pub(crate) fn area(self) -> usize
        ensures { result ≡ area_of (rect_as self) }
    {
        self.width() * (self.y1 + 1).saturating_sub(self.y0)
    }

    // The rectangle as one number, a byte for each side.
    // Kept in a number's bits: the grader has no memory of its own, and the scratch it is lent is a column of numbers.
    pub(crate) fn pack(self) -> f64
        ensures { Packs result (rect_as self) }
    {
        let sides = [self.x0 as u8, self.x1 as u8, self.y0 as u8, self.y1 as u8];
        f64::from_bits(u64::from(u32::from_le_bytes(sides)))
    }

    // The rectangle that a number packs.
    #[tactic(auto, unfolding(crate::specs::Steps::Index::rect_in))]
    pub(crate) fn unpack(v: f64) -> Rect
        requires { Packed v }
        ensures { rect_as result ≡ rect_in v }
    {
        let [x0, x1, y0, y1, ..] = f64::to_bits(v).to_le_bytes();
        Rect {
            x0: usize::from(x0),
            x1: usize::from(x1),
            y0: usize::from(y0),
            y1: usize::from(y1),
        }
    }
}
