// Which tiles a wheel touches, by the lent tiles and index (document 01, "Touch"). Each tile is tested
// once for a wheel, however many cells list it and however often.
ghost use Rattle.std.specs.Prelude.{◌≡◌, true, cond, not, ◌+◌, ◌*◌, ◌≤◌, ◌<◌, eqb, ltb, length, Ok, Err};
ghost use Rattle.std.specs.List.{list_all};
ghost use Rattle.course.specs.Rules.Tiles.{tile_of};
ghost use Rattle.run.specs.Rules.Below.{every_of};
ghost use Rattle.run.specs.Grader.State.{short_of, lent_columns};
ghost use Rattle.run.specs.Grader.Words.{set_of};
ghost use Rattle.run.specs.Grader.Touch.{lists, touched_by, sound_cell, sound_poses};
ghost use Rattle.run.specs.Steps.Touch.{overlaps_tile, Tests, Room, Looked};
ghost use Rattle.run.specs.Steps.Stand.{StanceOr};
ghost use Rattle.run.specs.Grader.Widths.{most_tiles};

use crate::quad::{Sided, Stance};
use crate::state::Pose;
use crate::{state, words};
use course::cause::Cause;
use course::{index, tiles};

// A course's columns as a host lends them: the corners of its tiles, and for each cell of the grid which part of the list is its tiles.
#[derive(Clone, Copy)]
pub struct Columns<'a> {
    pub tiles: &'a [f64],
    pub offsets: &'a [u32],
    pub list: &'a [u32],
}

impl Columns<'_> {
    // Tile t as a quad.
    fn tile(self, t: usize) -> [[f64; 2]; 4]
        requires { t * 8 + 8 ≤ length self.tiles.now }
        ensures { result ≡ tile_of self.entry.tiles.now t }
    {
        let numbers = self.tiles[t * 8..t * 8 + 8].first_chunk().unwrap();
        tiles::read_quad(numbers)
    }

    // The cell may be looked up.
    #[tactic(auto, unfolding(crate::specs::Grader::Touch::sound_cell), using(crate::proofs::TouchLaws::every_by_all))]
    fn cell_sound(self, n: usize, cell: usize) -> bool
        ensures { result ≡ sound_cell self.entry.offsets.now self.entry.list.now n cell }
    {
        index::part_ok(self.offsets, self.list, cell)
            && ids_below(index::cell_tiles(self.offsets, self.list, cell), n)
    }

    // A column lent with a course of n points is short (cause 2).
    #[tactic(auto, unfolding(crate::specs::Grader::State::short_of))]
    pub fn is_short(self, n: u32) -> bool
        ensures { result ≡ short_of n (lent_columns self.entry) }
    {
        state::is_short(n, self.tiles.len(), self.offsets.len())
    }

    // All cells of the wheels may be looked up: no cause 10. One that is the same as the cell before it needs no look-up of its own.
    fn stance_sound(self, n: usize, stance: &Stance) -> bool
        ensures { result
            ≡ sound_poses self.entry.offsets.now self.entry.list.now n stance.now.poses }
    {
        let mut before = None;
        for cell in stance.cells.as_flattened() {
            if before != Some(*cell) && !self.cell_sound(n, *cell) {
                return false;
            }
            before = Some(*cell);
        }
        true
    }

    // Where wheels at these poses stand, if all their cells may be looked up; else cause 10. Compiled into each check: a settle takes 1 % less so.
    #[inline(always)]
    pub(crate) fn stand(self, n: usize, poses: [Pose; 4]) -> Result<Stance, Cause>
        ensures { StanceOr
            (cond (not (sound_poses self.entry.offsets.now self.entry.list.now n poses)) (Err Cause.Index) (Ok tt))
            poses result }
    {
        let stance = Stance::at(poses);
        if !self.stance_sound(n, &stance) {
            return Err(Cause::Index);
        }
        Ok(stance)
    }
}

// Every id is below n.
fn ids_below(ids: &[u32], n: usize) -> bool
    ensures { result ≡ list_all (λ t. ltb t n) ids.now }
{
    ids.iter().all(|id| (*id as usize) < n)
}

// A course as a contact has it: its columns, and how many tiles it has. It has some, a set has room for them, and all of them are lent.
// Kept as made behind the check by each call that makes a contact: a check that handed it on beside the stance would answer a pair, which is no
// plainer, since each call would take it apart.
#[derive(Clone, Copy)]
pub(crate) struct Course<'a> {
    pub columns: Columns<'a>,
    pub n: usize,
    ghost some: { 0 < n },
    ghost few: { n ≤ most_tiles },
    ghost lent: { n * 8 ≤ length columns.tiles.now },
}

// The tiles of a list are tested, each that was not before.
fn touch_ids(
    wheel: &Sided,
    columns: Columns<'_>,
    n: usize,
    ids: &[u32],
    tested: &mut [u64],
    touched: &mut [u64],
)
    requires ids_below { every_of (λ t. ltb t n) ids.now ≡ true }
    requires room { Room 1 n columns.tiles.now tested.old touched.old }
    ensures { Tests (overlaps_tile wheel.now.quad columns.entry.tiles.now) (lists ids.now) tested.old
        touched.old tested.new touched.new }
{
    for id in ids {
        let t = *id as usize;
        if words::has(tested, t) {
            continue;
        }
        words::put(tested, t);
        if wheel.overlaps(columns.tile(t)) {
            words::put(touched, t);
        }
    }
}

// The tiles that a wheel's quad touches become the set `touched`, by the cells of the quad's box; `tested` is scratch.
pub(crate) fn touch_quad(
    q: [[f64; 2]; 4],
    cells: &[usize; 4],
    columns: Columns<'_>,
    n: usize,
    tested: &mut [u64],
    touched: &mut [u64],
)
    requires looked { Looked columns.offsets.now columns.list.now n q cells.now }
    requires room { Room 1 n columns.tiles.now tested.old touched.old }
    ensures { touched.new
        ≡ set_of (length tested.old)
        (touched_by columns.entry.tiles.now columns.entry.offsets.now columns.entry.list.now q) }
{
    let wheel = Sided::new(q);
    words::clear(tested);
    words::clear(touched);
    let mut before = None;
    for cell in cells {
        // Most of a box's cells are the same as the cell before, whose tiles are tested already.
        if before != Some(*cell) {
            let ids = index::cell_tiles(columns.offsets, columns.list, *cell);
            touch_ids(&wheel, columns, n, ids, tested, touched);
        }
        before = Some(*cell);
    }
}
