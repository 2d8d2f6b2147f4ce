// The columns that a test program lends: of its own length each, of which a call is lent a part.
ghost use Rattle.std.specs.Prelude.{◌≡◌, ◌≤◌, length, take};

use crate::line;
use crate::record::Record;
use course::lent::LentColumns;
use std::alloc::{AllocError, Global};
use std::io;
use std::io::Write;

// What stands in each place of a lent column before a call.
pub const UNTOUCHED: f64 = 1e7;

pub const UNTOUCHED_ID: u32 = 4000000000;

pub const UNTOUCHED_MARK: u8 = 7;

// The front of a column, of a length that a record asks for; the whole column where it has no more.
pub fn front<T>(col: &[T], length: u64) -> &[T]
    ensures { result.now ≡ take length col.now }
{
    let n = (length as usize).min(col.len());
    &col[..n]
}

pub fn front_mut<T>(col: &mut [T], length: u64) -> &mut [T]
    ensures { result.now ≡ take length col.old }
{
    let n = (length as usize).min(col.len());
    &mut col[..n]
}

// What stands at a place of a column becomes the number; nothing does where there is no such place.
pub fn put<T: Copy>(col: &mut [T], place: u64, number: T)
    ensures { length col.new ≡ length col.old }
{
    if let Some(at) = col.get_mut(place as usize) {
        *at = number;
    }
}

// The columns of a course.
// Kept beside course's `LentColumns`, which is the seven as a call is lent them: these own what those are parts of.
#[derive(Drop)]
pub struct Columns {
    pub alpha: Vec<f64>,
    pub beta: Vec<f64>,
    pub x: Vec<f64>,
    pub y: Vec<f64>,
    pub tiles: Vec<f64>,
    pub offsets: Vec<u32>,
    pub list: Vec<u32>,
}

impl Columns {
    // Columns of zeros, longer than a call may write; the list of a length of the program's own.
    pub fn new(alloc: Global, list: usize) -> Result<Self, AllocError> {
        Ok(Columns {
            alpha: vec![in alloc; 0.0; 2600]?,
            beta: vec![in alloc; 0.0; 2600]?,
            x: vec![in alloc; 0.0; 2600]?,
            y: vec![in alloc; 0.0; 2600]?,
            tiles: vec![in alloc; 0.0; 20100]?,
            offsets: vec![in alloc; 0; 4600]?,
            list: vec![in alloc; 0; list]?,
        })
    }

    // Every place as before a call.
    pub fn reset(&mut self) {
        self.alpha.fill(UNTOUCHED);
        self.beta.fill(UNTOUCHED);
        self.x.fill(UNTOUCHED);
        self.y.fill(UNTOUCHED);
        self.tiles.fill(UNTOUCHED);
        self.offsets.fill(UNTOUCHED_ID);
        self.list.fill(UNTOUCHED_ID);
    }

    // Their fronts of these lengths, as `front_mut` has them.
    fn fronts(&mut self, lengths: [u64; 7]) -> LentColumns<'_>
        ensures points { (length result.alpha.now ≤ length self.old.alpha.items)
            × (length result.beta.now ≤ length self.old.beta.items) × (length result.x.now ≤ length self.old.x.items)
            × (length result.y.now ≤ length self.old.y.items) }
        ensures tiles { (length result.tiles.now ≤ length self.old.tiles.items)
            × (length result.offsets.now ≤ length self.old.offsets.items)
            × (length result.list.now ≤ length self.old.list.items) }
    {
        let [alpha, beta, x, y, tiles, offsets, list] = lengths;
        LentColumns {
            alpha: front_mut(&mut self.alpha, alpha),
            beta: front_mut(&mut self.beta, beta),
            x: front_mut(&mut self.x, x),
            y: front_mut(&mut self.y, y),
            tiles: front_mut(&mut self.tiles, tiles),
            offsets: front_mut(&mut self.offsets, offsets),
            list: front_mut(&mut self.list, list),
        }
    }

    // Their parts, of the lengths that stand in the record from word `at` on.
    pub fn lend(&mut self, record: Record<'_>, at: usize) -> LentColumns<'_>
        ensures points { (length result.alpha.now ≤ length self.old.alpha.items)
            × (length result.beta.now ≤ length self.old.beta.items) × (length result.x.now ≤ length self.old.x.items)
            × (length result.y.now ≤ length self.old.y.items) }
        ensures tiles { (length result.tiles.now ≤ length self.old.tiles.items)
            × (length result.offsets.now ≤ length self.old.offsets.items)
            × (length result.list.now ≤ length self.old.list.items) }
    {
        self.fronts(record.values(at))
    }

    // All of them.
    pub fn whole(&mut self) -> LentColumns<'_> {
        self.fronts([u64::MAX; 7])
    }

    // The columns' hashes, a line each.
    pub fn lines<W: Write>(&self, out: &mut W) -> io::Result<()> {
        line::column(out, &self.alpha)?;
        line::column(out, &self.beta)?;
        line::column(out, &self.x)?;
        line::column(out, &self.y)?;
        line::column(out, &self.tiles)?;
        line::column(out, &self.offsets)?;
        line::column(out, &self.list)
    }
}

#[cfg(test)]
mod tests {
    use super::*;
    use std::test::Fail;

    // With memory at hand the columns are made, and a reset leaves their lengths.
    #[test]
    fn columns_are_made(rt: HostRuntime) -> Result<(), Fail> {
        let mut columns = Columns::new(rt.alloc(), 3)?;
        columns.reset();
        assert_eq!(rt; columns.alpha.len(), 2600);
        assert_eq!(rt; columns.tiles.len(), 20100);
        assert_eq!(rt; columns.offsets.len(), 4600);
        assert_eq!(rt; columns.list.as_slice(), [UNTOUCHED_ID; 3].as_slice());
        Ok(())
    }
}
