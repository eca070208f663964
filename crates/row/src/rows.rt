// Rows: the periodic jobs that share the processor. Times are in ticks, a sixteenth of a millisecond each.
ghost use Rattle.row.specs.Limits.{Limits};

// A track is a high-criticality task: it stores somebody's voice.
// A job of it needs at most `short` ticks, or at most `long` where packets are missing.
#[derive(Clone, Copy, Debug, PartialEq, Eq)]
pub struct Track {
    pub period: u32,
    pub deadline: u32,
    pub short: u32,
    pub long: u32,
    ghost limits: { Limits period deadline short long },
}

// A helper is a low-criticality task: it draws meters and may give way. It has one budget.
#[derive(Clone, Copy, Debug, PartialEq, Eq)]
pub struct Helper {
    pub period: u32,
    pub deadline: u32,
    pub short: u32,
    ghost limits: { Limits period deadline short short },
}

// A row of a line-up. Its number is its priority: a smaller number goes first.
#[derive(Clone, Copy, Debug, PartialEq, Eq)]
pub enum Row {
    Track(Track),
    Helper(Helper),
}

// What a row is made of, as plain numbers of which nothing is known.
#[derive(Clone, Copy, Debug, PartialEq, Eq)]
pub enum RowNumbers {
    Track {
        period: u32,
        deadline: u32,
        short: u32,
        long: u32,
    },
    Helper {
        period: u32,
        deadline: u32,
        short: u32,
    },
}

// A normal job has the short budget, an abnormal one the long budget. Only tracks have abnormal jobs.
#[derive(Clone, Copy, Debug, PartialEq, Eq)]
pub enum Kind {
    Normal,
    Abnormal,
}
