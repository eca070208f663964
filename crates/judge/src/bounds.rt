// The answers of the judge: a row's bounds, or why a list of rows is refused.

// How long after its arrival a job of the row may end, in ticks.
#[derive(Clone, Copy, Debug, Default, PartialEq, Eq)]
pub struct Bounds {
    // a job with the short budget, while every job is normal
    pub normal: u32,
    // only tracks run on in abnormal mode
    pub late: Option<LateBounds>,
}

// What only a track has: the bound of a normal job that meets abnormal ones, and that of an abnormal job.
#[derive(Clone, Copy, Debug, PartialEq, Eq)]
pub struct LateBounds {
    // a normal job, though other jobs may be abnormal
    pub mixed: u32,
    // an abnormal job
    pub long: u32,
}

// Why the judge refuses a list of rows. The number is the one that the refusal's place is made of.
#[derive(Clone, Copy, Debug, PartialEq, Eq)]
pub enum JudgeFault {
    // more than 32 rows: how many were given
    TooManyRows(u64),
    NoRows,
    // numbers that break the limits, so that they make no row
    OutsideLimits,
    // the first row whose normal, mixed or long bound does not exist or passes its deadline
    NormalBound(u64),
    MixedBound(u64),
    LongBound(u64),
}
