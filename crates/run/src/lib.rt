// Runs on a course: contact, credit, lap, tyre forces, and the calls start, drive, settle, sheet, reward, save and restore.
//
// Every function here is proved, and the crate assumes nothing of its own. No public function has a
// `requires`. The definitions that the contracts cite stand in specs/, a file for each heading of document 01.
#![tactic(auto)]

mod contact;
pub mod drive;
pub mod dynamics;
mod lap;
mod load;
pub mod numbers;
pub mod quad;
pub mod restore;
pub mod reward;
pub mod save;
mod saved;
pub mod settle;
pub mod sheet;
pub mod start;
pub mod state;
pub mod touch;
pub mod widths;
mod words;
