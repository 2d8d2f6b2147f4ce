// The columns that a course is laid in, lent together (document 01, "Lay": Lent).
// Kept as seven columns, and not points: the C interface lends them one by one, for a host to read as columns.

// The caller's columns of angles, headings, places, tiles, offsets and index entries.
#[derive(Drop)]
pub struct LentColumns<'a> {
    pub alpha: &'a mut [f64],
    pub beta: &'a mut [f64],
    pub x: &'a mut [f64],
    pub y: &'a mut [f64],
    pub tiles: &'a mut [f64],
    pub offsets: &'a mut [u32],
    pub list: &'a mut [u32],
}
