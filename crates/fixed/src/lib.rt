// Lists of fixed capacity, which lie in place, and a test on lists.
#![tactic(auto)]

pub mod distinct;
pub mod list;
