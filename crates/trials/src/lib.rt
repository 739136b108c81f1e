// Examples of what is accepted and what is refused, with answers worked out by hand.
#![tactic(auto)]

#[cfg(test)]
mod clashes;
#[cfg(test)]
mod first_fault;
#[cfg(test)]
mod job_lines;
#[cfg(test)]
mod limits;
#[cfg(test)]
mod names;
#[cfg(test)]
mod orders;
#[cfg(test)]
mod previews;
#[cfg(test)]
mod sentences;
#[cfg(test)]
mod support;
#[cfg(test)]
mod tables;
#[cfg(test)]
mod wires;
