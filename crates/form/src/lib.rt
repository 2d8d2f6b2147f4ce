// The saved form of document 02's order 1, for any table of fields: numbers, words and floats as
// bytes, the map, and the fields that stand. What a field means is for the crates above.
//
// Every function here is proved, and the crate assumes nothing of its own. No public function has a
// `requires`. A call that has no room for all that it writes says so and writes nothing. The
// definitions that the contracts cite stand in specs/.
#![tactic(auto)]

mod bits;
pub mod eight;
pub mod number;
pub mod pack;
pub mod short;
pub mod table;
pub mod unpack;
