// Ranking: orders of values, the precedences that give jobs their keys, what the orders say, and the count of those below.
#![tactic(auto)]

pub mod count;
pub mod laws;
pub mod order;
pub mod pedigree;
pub mod precedence;
pub mod standing;
