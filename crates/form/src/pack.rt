// Writing: the map, then the fields whose bit stands in it.
ghost use Rattle.std.specs.Prelude.{◌≡◌, cond, [], ◌≤◌, length};
ghost use Rattle.form.specs.Rules.Form.{table_fields, standing, packed, wrote, pack_into};

use crate::bits::Bits;
use crate::table::Fields;

// An output is too short for a saved form of this length.
#[derive(Clone, Copy, Debug, PartialEq, Eq)]
pub struct NoRoom {
    pub needed: usize,
}

// The bytes of a field, if it stands.
fn shown(stands: bool, field: &[u8]) -> &[u8]
    ensures { result.now ≡ cond stands field.now [] }
{
    if stands { field } else { &field[..0] }
}

// The length of the fields that stand.
// Kept as a loop, since the proof did not close: with `map` and `sum` over the zip (tried) it asks that the sum of all that a pair may give fits.
fn standing_length(fields: Fields<'_>, map: u64) -> usize
    ensures { (result ≡ length (standing map (table_fields fields.entry)))
        × (result ≤ length fields.entry.full.now) }
{
    let mut n: usize = 0;
    for (field, stands) in fields.zip(Bits { rest: map }) {
        n += shown(stands, field).len();
    }
    n
}

// The fields that stand, over an output of their length.
// Kept by index, here and in `spread`, since the proof did not close: where `split_at_mut` parts off each field's place and the loop goes
// on with the rest, no proof knows what the lent list holds after the loop (tried).
fn put_standing(fields: Fields<'_>, map: u64, out: &mut [u8])
    requires { length (standing map (table_fields fields)) ≡ length out.old }
    ensures { out.new ≡ standing map (table_fields fields.entry) }
{
    let mut at: usize = 0;
    for (field, stands) in fields.zip(Bits { rest: map }) {
        let part = shown(stands, field);
        let end = at + part.len();
        out[at..end].copy_from_slice(part);
        at = end;
    }
}

// The saved form of the fields that stand in the map goes to the front of the output; its length. An
// output that is shorter stays as it is.
pub fn pack(fields: Fields<'_>, map: u16, out: &mut [u8]) -> Result<usize, NoRoom>
    ensures { wrote result out.new ≡ pack_into (packed map (table_fields fields.entry)) out.old }
{
    let m = u64::from(map);
    let needed = 2 + standing_length(fields, m);
    if out.len() < needed {
        return Err(NoRoom { needed });
    }
    out[..2].copy_from_slice(&map.to_le_bytes());
    put_standing(fields, m, &mut out[2..needed]);
    Ok(needed)
}
