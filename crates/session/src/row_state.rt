// What a session keeps of a row of its plan.
use law::Job;

// The row's unended job, and the clock from which it may arrive again.
#[derive(Clone, Copy)]
pub(crate) struct RowState {
    pub(crate) job: Option<Job>,
    pub(crate) ready: u32,
}

// Of a row that has not arrived.
pub(crate) const NEW_ROW: RowState = RowState {
    job: None,
    ready: 0,
};
