// The answer to a sheet: from its bytes to a report or a refusal, and from these to text.
#![tactic(auto)]

pub mod check;
pub mod fault;
pub mod report;
pub mod text;
