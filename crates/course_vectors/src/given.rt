// The given columns, which stand from record to record.
ghost use Rattle.std.specs.Prelude.{◌≤◌};

use std::alloc::{AllocError, Global};
use vectors::columns::{front, front_mut};
use vectors::record::Record;

// The most points of a record.
const MOST: usize = 2600;

// Points given in three columns.
// Kept beside vectors' `Columns`, three of whose fields have these names: those are what a call writes, these what it reads.
#[derive(Drop)]
pub struct Given {
    pub beta: Vec<f64>,
    pub x: Vec<f64>,
    pub y: Vec<f64>,
}

// How many points a record gives.
pub fn count(record: Record<'_>) -> usize
    ensures { result ≤ MOST }
{
    record.upto(2, MOST)
}

// The points' numbers from word k on, into the column from the record's first place on.
fn give_column(record: Record<'_>, k: usize, col: &mut [f64]) {
    let first = record.upto(1, col.len());
    record.fill_points(k, count(record), &mut col[first..]);
}

// The first numbers of the column, as many as `period`, again and again up to place `count`.
fn repeat_column(period: usize, count: usize, col: &mut [f64]) {
    let part = front_mut(col, count as u64);
    if let Some((first, rest)) = part.split_at_mut_checked(period) {
        for (place, x) in rest.iter_mut().zip(first.iter().cycle()) {
            *place = *x;
        }
    }
}

impl Given {
    pub fn new(alloc: Global) -> Result<Self, AllocError> {
        Ok(Given {
            beta: vec![in alloc; 0.0; MOST]?,
            x: vec![in alloc; 0.0; MOST]?,
            y: vec![in alloc; 0.0; MOST]?,
        })
    }

    // Their parts, of the lengths that are words 2 to 4 of the record.
    pub fn lend(&self, record: Record<'_>) -> [&[f64]; 3] {
        let [beta, x, y]: [u64; 3] = record.values(2);
        [
            front(&self.beta, beta),
            front(&self.x, x),
            front(&self.y, y),
        ]
    }

    // The record's points.
    pub fn give(&mut self, record: Record<'_>) {
        give_column(record, 3, &mut self.beta);
        give_column(record, 4, &mut self.x);
        give_column(record, 5, &mut self.y);
    }

    // The columns up to the record's count repeat what stands its period before.
    pub fn repeat(&mut self, record: Record<'_>) {
        let period = record.upto(1, MOST);
        let count = count(record);
        repeat_column(period, count, &mut self.beta);
        repeat_column(period, count, &mut self.x);
        repeat_column(period, count, &mut self.y);
    }
}

#[cfg(test)]
mod tests {
    use super::*;
    use std::test::Fail;

    // With memory at hand the columns are made.
    #[test]
    fn columns_are_made(rt: HostRuntime) -> Result<(), Fail> {
        let given = Given::new(rt.alloc())?;
        assert_eq!(rt; given.beta.len(), MOST);
        assert_eq!(rt; given.x.len(), MOST);
        assert_eq!(rt; given.y.len(), MOST);
        Ok(())
    }
}
