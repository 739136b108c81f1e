// The reading of commissioning sheets: from bytes to a job table and a wire table, or to the first fault.
#![tactic(auto)]

mod jobs;
pub mod read;
mod values;
mod wires;
