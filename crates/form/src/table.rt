// The table of a saved form: its rows, in bit order, and the fields as they lie end to end in one lent
// list of bytes.
ghost use Rattle.std.specs.Prelude.{◌≡◌, leb, take};
ghost use Rattle.std.specs.Iterator.{YieldsFirstRef, item_count};
ghost use Rattle.form.specs.Rules.Form.{widths, sum, cut, table_fields, map_of, most_rows};

use crate::number;

// As many fields as a map of two bytes has bits.
pub const MOST_ROWS: usize = 16;

// A row of the table: how many bytes its field has, and whether the field may stand with zeros.
#[derive(Clone, Copy)]
pub struct Row {
    pub bytes: usize,
    pub zeros: bool,
}

// The fields of a table, which lie end to end in `full`, one after another; one that goes past the end is cut off there.
#[derive(Clone, Copy)]
pub struct Fields<'a> {
    pub rows: &'a [Row],
    pub full: &'a [u8],
}

impl<'a> Iterator for Fields<'a> {
    type Item = &'a [u8];

    ghost next_gives = { YieldsFirstRef table_fields };

    ghost remaining = { item_count (λ s. s.rows.now) };

    fn next(&mut self) -> Option<&'a [u8]> {
        let (row, rows) = self.rows.split_first()?;
        let (field, full) = self.full.split_at(row.bytes.min(self.full.len()));
        self.rows = rows;
        self.full = full;
        Some(field)
    }
}

// Whether all fields have room in that many bytes.
// Kept as a loop, since the proof did not close: with `try_fold` over `checked_sub` (tried) it asks for what the fold leaves as a sum of its own.
pub(crate) fn has_room(rows: &[Row], room: usize) -> bool
    ensures { result ≡ leb (sum (widths rows.now)) room }
{
    let mut left = room;
    for row in rows {
        match left.checked_sub(row.bytes) {
            Some(after) => left = after,
            None => return false,
        }
    }
    true
}

// The map of the fields that are not zeros, of up to sixteen; a field that is not there counts as zeros.
pub fn map_of(fields: Fields<'_>) -> u16
    ensures { result ≡ map_of (cut (take most_rows (widths fields.entry.rows.now)) fields.entry.full.now) }
{
    let mut map: u16 = 0;
    for (k, field) in fields.take(MOST_ROWS).enumerate() {
        map += u16::from(!number::all_zero(field)) << k;
    }
    map
}
