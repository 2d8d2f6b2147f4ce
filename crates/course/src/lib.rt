// Courses: a seed or given points become a track with its tiles and index.
//
// Every function here is proved, and the crate assumes nothing of its own. No public function has a
// `requires`. The definitions that the contracts cite stand in specs/, a file for each heading of document 01.
#![tactic(auto)]

pub mod cause;
pub mod cell;
pub mod checkpoints;
mod columns;
pub mod constants;
pub mod curbs;
mod finder;
pub mod index;
pub mod lay;
pub mod lent;
pub mod numeric;
pub mod points;
pub mod rect;
pub mod root;
mod step;
pub mod tiles;
mod track;
pub mod trig;
mod walk;
mod walk_columns;
