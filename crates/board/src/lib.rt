// Boards: a word for each point. The plain board on lent words, shifts over any board, and words read and put at lists of points.
#![tactic(auto)]

pub mod board;
pub mod fault;
pub mod laws;
pub mod plain;
pub mod points;
pub mod shift;
