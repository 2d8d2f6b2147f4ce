// The index of a course's tiles (document 01, "Tiles and index"): which tiles each cell of the grid lists.
// Built in two passes over the rectangles, count and then fill by ascending id, in the lent columns alone.
// While it is filled, place c + 1 of the offsets is the cursor of cell c: it starts where the part of cell c starts, and ends where the
// part of cell c + 1 does. So cell c is counted at place c + 2, and the last cell, which no part follows, is not counted.
ghost use Rattle.std.specs.Prelude.{◌≡◌, ℕ, ◌+◌, ◌*◌, ◌<◌, ◌≤◌, true, false, nat_lt, length, drop, slice_index, MatchOption};
ghost use Rattle.course.specs.Rules.Lengths.{cell_count, most_points, offset_count};
ghost use Rattle.course.specs.Rules.Cell.{cell_at};
ghost use Rattle.course.specs.Rules.Rect.{holds, needed};
ghost use Rattle.course.specs.Grader.Index.{start, index_of, offsets_of, part_ok, lookup};
ghost use Rattle.course.specs.Grader.Rect.{rect_as};
ghost use Rattle.course.specs.Steps.Index.{Built, index_answer, RunCounted, RectCounted, Counts, Summed, RunPlaced, RectPlaced, Placed, held_in, RectsPacked, RectsIn};

use crate::cell::cell_at;
use crate::constants::{GRID_DIM, OFFSET_COUNT};
use crate::points::LayError;
use crate::rect::Rect;

// Rectangles within the grid, packed one to a number.
#[derive(Clone, Copy)]
struct PackedRects<'a> {
    numbers: &'a [f64],
    ghost rects_in: { RectsIn numbers.now },
}

// The rectangles, packed, and their cells summed.
// Kept with a tile's number beside its rectangle: zipped with the tiles in eights, by `as_chunks`, the proof did not close, since after the
// loop it tells what was written to the pairs, and not what the column of rectangles holds.
fn pack_and_sum(tiles: &[f64], rects: &mut [f64]) -> usize
    requires { (length rects.old ≤ most_points) × (length rects.old * 8 ≤ length tiles.now) }
    ensures value { result ≡ needed tiles.now (length rects.old) }
    ensures rects_packed { RectsPacked tiles.now (length rects.old) rects.new }
{
    let mut sum: usize = 0;
    for (i, rect) in rects.iter_mut().enumerate() {
        let r = Rect::of_tile(tiles, i);
        *rect = r.pack();
        sum += r.area();
    }
    sum
}

// One more at each place of a run.
fn count_run(run: &mut [u32])
    requires { (k : ℕ) → k < length run.old → slice_index run.old k < most_points }
    ensures { RunCounted run.old run.new 0 (length run.old) }
{
    for count in run.iter_mut() {
        *count += 1;
    }
}

// One more, two places after its own, for each cell of a rectangle but the grid's last.
fn count_rect(o: &mut [u32; OFFSET_COUNT], r: Rect)
    requires { (k : ℕ) → k < offset_count → slice_index o.old k < most_points }
    ensures { RectCounted 2 o.old o.new (rect_as r) }
{
    let width = r.width();
    for y in r.y0..=r.y1 {
        let from = y * GRID_DIM + r.x0 + 2;
        let end = usize::min(from + width, OFFSET_COUNT);
        count_run(&mut o[from..end]);
    }
}

// How many tiles each cell but the last lists.
fn count_all(rects: &PackedRects, o: &mut [u32; OFFSET_COUNT])
    requires { Counts (held_in rects.now.numbers.now) 0 o.old }
    ensures { Counts (held_in rects.now.numbers.now) (length rects.now.numbers.now) o.new }
{
    for v in rects.numbers {
        count_rect(o, Rect::unpack(*v));
    }
}

// Each offset becomes the sum of all up to and with it.
fn sum_up(o: &mut [u32; OFFSET_COUNT])
    requires { (k : ℕ) → k < offset_count → slice_index o.old k ≤ most_points }
    ensures { Summed o.old o.new }
{
    let mut sum: u32 = 0;
    for offset in o.iter_mut() {
        sum += *offset;
        *offset = sum;
    }
}

// The id goes where each cursor of a run points, and the cursor one further.
fn place_run(run: &mut [u32], l: &mut [u32], id: u32)
    requires l_len_bound { length l.old ≤ most_points * cell_count }
    requires by_index { (k : ℕ) → k < length run.old → slice_index run.old k < length l.old }
    ensures { RunPlaced run.old l.old run.new l.new id 0 (length run.old) }
{
    for cursor in run.iter_mut() {
        l[*cursor as usize] = id;
        *cursor += 1;
    }
}

// The id goes where the cursor of each cell of a rectangle points.
fn place_rect(o: &mut [u32; OFFSET_COUNT], l: &mut [u32], id: u32, r: Rect)
    requires l_len_bound { length l.old ≤ most_points * cell_count }
    requires by_index { (c : ℕ) → c < cell_count → holds (rect_as r) c ≡ true
        → slice_index o.old (c + 1) < length l.old }
    ensures { RectPlaced o.old l.old o.new l.new id (rect_as r) }
{
    let width = r.width();
    for y in r.y0..=r.y1 {
        let from = y * GRID_DIM + r.x0 + 1;
        place_run(&mut o[from..from + width], l, id);
    }
}

// All ids, ascending: each cursor ends where the next cell's part starts.
fn place_all(rects: &PackedRects, o: &mut [u32; OFFSET_COUNT], l: &mut [u32])
    requires { Placed (held_in rects.now.numbers.now) (length rects.now.numbers.now) 0 o.old l.old }
    ensures { Placed (held_in rects.now.numbers.now) (length rects.now.numbers.now) (length rects.now.numbers.now) o.new l.new }
{
    for (i, v) in rects.numbers.iter().enumerate() {
        place_rect(o, l, i as u32, Rect::unpack(*v));
    }
}

// The index of the rectangles, in columns of just the lengths that it has.
fn lay_index(rects: &PackedRects, o: &mut [u32; OFFSET_COUNT], l: &mut [u32])
    requires { length l.old ≡ start (held_in rects.now.numbers.now) (length rects.now.numbers.now) cell_count }
    ensures o_after { o.new ≡ offsets_of (held_in rects.now.numbers.now) (length rects.now.numbers.now) cell_count }
    ensures l_after { l.new ≡ index_of (held_in rects.now.numbers.now) (length rects.now.numbers.now) cell_count }
{
    o.fill(0);
    count_all(rects, o);
    sum_up(o);
    place_all(rects, o, l);
}

// The index of the tiles below n, in the lent columns, and its length. Where the list is shorter than the cells summed
// (cause 3), offsets and list stay as they are.
// `rects` is scratch: its first n entries change.
pub(crate) fn build_index(
    tiles: &[f64],
    n: usize,
    rects: &mut [f64],
    offsets: &mut [u32],
    list: &mut [u32],
) -> Result<u32, LayError>
    requires n_le_most_points { (n ≤ most_points) × (n * 8 ≤ length tiles.now) }
    requires n_in_bounds { (n ≤ length rects.old) × (offset_count ≤ length offsets.old) }
    ensures value { result ≡ index_answer (nat_lt (length list.old) (needed tiles.now n)) (needed tiles.now n) }
    ensures built { Built tiles.now n offsets.old list.old offsets.new list.new }
    ensures rects_unchanged { drop n rects.new ≡ drop n rects.old }
{
    let numbers = &mut rects[..n];
    let need = pack_and_sum(tiles, numbers);
    if list.len() < need {
        return Err(LayError::Short(need as u32));
    }
    let o = offsets.first_chunk_mut::<OFFSET_COUNT>().unwrap();
    lay_index(&PackedRects { numbers }, o, &mut list[..need]);
    Ok(need as u32)
}

// The part of the lent list for a cell; none where the offsets do not have the cell, fall there or pass the list.
fn part<'a>(offsets: &[u32], list: &'a [u32], cell: usize) -> Option<&'a [u32]>
    ensures { MatchOption result (part_ok offsets.now list.now cell ≡ false)
        (λ p. (part_ok offsets.now list.now cell ≡ true) × (p.now ≡ lookup offsets.now list.now cell)) }
{
    let from = *offsets.get(cell)? as usize;
    let to = *offsets.get(cell + 1)? as usize;
    list.get(from..to)
}

// Whether the offsets have the cell, do not fall there and do not pass the list.
pub fn part_ok(offsets: &[u32], list: &[u32], cell: usize) -> bool
    ensures { result ≡ part_ok offsets.now list.now cell }
{
    part(offsets, list, cell).is_some()
}

// The part of the lent list for a cell: its empty part where there is none.
pub fn cell_tiles<'a>(offsets: &[u32], list: &'a [u32], cell: usize) -> &'a [u32]
    ensures { result.now ≡ lookup offsets.now list.now cell }
{
    part(offsets, list, cell).unwrap_or(&list[..0])
}

// The part of the lent list for the point's cell.
pub fn candidate_tiles<'a>(offsets: &[u32], list: &'a [u32], x: f64, y: f64) -> &'a [u32]
    ensures { result.now ≡ lookup offsets.now list.now (cell_at x y) }
{
    cell_tiles(offsets, list, cell_at(x, y))
}
