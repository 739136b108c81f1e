use fixed::list::FixedList;

// For each job of a sheet, in its order, the highest number of an earlier job that clashes with it.
#[derive(Drop)]
pub struct Report {
    pub clashes: FixedList<Option<usize>, 64>,
}
