use crate::record::JobRecord;
use fixed::list::FixedList;

mod calls;

// A job table: at most 64 job records, numbered from 1 in their order.
// A type of its own over the one list; a wire table ties its wires together besides. It has no model: a proof then knows of
// every table what its list and its records say of themselves, and of a closed value with a model it knows its plain jobs alone.
#[derive(Drop)]
pub struct JobTable {
    jobs: FixedList<JobRecord, 64>,
}
