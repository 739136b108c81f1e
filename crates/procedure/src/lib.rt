// Procedures: the rule that each means, what it proposes for a job, and when a proposal is spoilt.
#![tactic(auto)]

pub mod laws;
pub mod paired;
pub mod procedure;
pub mod proposal;
pub mod spread;
pub mod tally;
pub mod verdict;
