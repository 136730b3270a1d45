// What is reported of a list that was written.

// Reference 7: what a join and a question report.
#[derive(Clone, Copy, Default)]
pub struct Tally {
    pub intervals: usize,
    pub records: usize,
}
