// Lines and fields of a sheet: the reader, and what a field or a line of names says.
#![tactic(auto)]

pub mod field;
pub mod names;
pub mod number;
pub mod order;
pub mod place;
pub mod points;
pub mod reader;
pub mod shape;
