// Jobs: the checked record and its table, the unchecked draft, refusals by their numbers, and the preview of a job.
#![tactic(auto)]

pub mod draft;
pub mod fault;
mod marks;
pub mod preview;
pub mod record;
pub mod refusal;
pub mod table;
