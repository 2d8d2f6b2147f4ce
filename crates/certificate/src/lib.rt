// The certificate of demand 3: the plain scorer, the claim that every answer of the grader is the scorer's, and `replay`, which
// answers a whole list of calls from lent columns and whose contract is the claim.
//
// Every function here is proved, and the crate assumes nothing of its own. No public function has a
// `requires`. The definitions that the contracts cite stand in specs/.
#![tactic(auto)]

mod answer;
pub mod replay;
