// Reading: the map, then every field, zeros for one whose bit does not stand.
ghost use Rattle.std.specs.Prelude.{◌≡◌, cond, ◌++◌, ◌≤◌, length, take, drop, replicate};
ghost use Rattle.std.specs.Prelude.{MatchOption, Some, None};
ghost use Rattle.form.specs.Rules.Form.{widths, sum, joined, parse, read, unpack_into};
ghost use Rattle.form.specs.Steps.Form.{field_step, whole, standing_sum, fields_in};

use crate::bits::Bits;
use crate::table::Row;
use crate::{number, table};

// The bytes after a field that stands or not; none where it stands and may not: it must be whole, and not
// zeros unless its row allows it.
fn after_field(stands: bool, row: Row, bytes: &[u8]) -> Option<&[u8]>
    ensures { let step = field_step stands row bytes.now in MatchOption result (step ≡ None) (λ r. step ≡ Some r.now) }
{
    if !stands {
        return Some(bytes);
    }
    let (field, rest) = bytes.split_at_checked(row.bytes)?;
    let may = row.zeros || !number::all_zero(field);
    may.then_some(rest)
}

// Whether the bytes after the map are those of a saved form.
// Kept beside the `zip` of `spread`: with `zip(bits.by_ref())` no proof knows what `bits` holds after the loop (tried).
fn is_form(rows: &[Row], map: u64, bytes: &[u8]) -> bool
    ensures { result ≡ whole (parse rows.now map bytes.now) }
{
    let mut bits = Bits { rest: map };
    let mut left = bytes;
    for row in rows {
        let stands = bits.next().unwrap();
        match after_field(stands, *row, left) {
            Some(after) => left = after,
            None => return false,
        }
    }
    bits.rest == 0 && left.is_empty()
}

// A field's place is filled from the front of the bytes, or with zeros; the bytes after what was read.
// Kept as a loop: `copy_from_slice` calls memmove where the length is not known to the compiler, and the archive for C needs no memmove from outside.
fn fill<'a>(stands: bool, bytes: &'a [u8], to: &mut [u8]) -> &'a [u8]
    requires { cond stands (length to.old) 0 ≤ length bytes.now }
    ensures rest { result.now ≡ cond stands (drop (length to.old) bytes.now) bytes.now }
    ensures filled { to.new ≡ cond stands (take (length to.old) bytes.now) (replicate (length to.old) 0) }
{
    if stands {
        let (field, rest) = bytes.split_at(to.len());
        for (i, place) in to.iter_mut().enumerate() {
            *place = field[i];
        }
        return rest;
    }
    to.fill(0);
    bytes
}

// Every field of a saved form goes to its place.
fn spread(rows: &[Row], map: u64, bytes: &[u8], full: &mut [u8])
    requires map_in_bounds { standing_sum (widths rows.now) map ≤ length bytes.now }
    requires widths_in_bounds { sum (widths rows.now) ≤ length full.old }
    ensures { full.new
        ≡ joined (fields_in (widths rows.now) map bytes.now)
        ++ drop (length (joined (fields_in (widths rows.now) map bytes.now))) full.old }
{
    let mut left = bytes;
    let mut from: usize = 0;
    for (row, stands) in rows.iter().zip(Bits { rest: map }) {
        let end = from + row.bytes;
        left = fill(stands, left, &mut full[from..end]);
        from = end;
    }
}

// Reads a saved form, and its map: its fields go to the front of `full`, end to end. Where the bytes are no saved form,
// or `full` has no room for the fields, it stays as it is.
pub fn unpack(rows: &[Row], bytes: &[u8], full: &mut [u8]) -> Option<u16>
    ensures { read result full.new ≡ unpack_into rows.now bytes.now full.old }
{
    let (first, fields) = bytes.split_first_chunk::<2>()?;
    if !table::has_room(rows, full.len()) {
        return None;
    }
    let map = u16::from_le_bytes(*first);
    let m = u64::from(map);
    if !is_form(rows, m, fields) {
        return None;
    }
    spread(rows, m, fields, full);
    Some(map)
}
