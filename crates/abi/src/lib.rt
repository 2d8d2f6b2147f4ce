// The C boundary: the calls of the grader for a host in C, C++ or Rust. An enum does not cross, so each answer is a struct of
// numbers; a slice is a pointer and a length, an array of a known length a pointer alone.
//
// Every function here is proved, and the crate assumes nothing of its own. No public function has a `requires`. The
// definitions that the contracts cite stand in specs/.
#![tactic(auto)]

pub mod courses;
pub mod flat;
pub mod inner;
pub mod numbers;
pub mod runs;
pub mod saves;
