// The commissioning sheet as a format: columns, faults and their numbers, and the laws of reading.
#![tactic(auto)]

pub mod column;
mod explain;
pub mod fault;
pub mod laws;
pub mod refusal;
