// Examples of the parts that a run is fitted with, with answers worked out by hand.
#![tactic(auto)]

#[cfg(test)]
mod boards;
#[cfg(test)]
mod counts;
#[cfg(test)]
mod procedures;
