// Wires between points, and the table of a sheet's wires.
#![tactic(auto)]

pub mod fault;
pub mod table;
pub mod wire;
