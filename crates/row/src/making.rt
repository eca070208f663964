// Rows from plain numbers and back.
ghost use Rattle.std.specs.Prelude.{◌≡◌};
ghost use Rattle.row.specs.Rows.{numbers_of, blank, least, RowOrFault, period_of, deadline_of, short_of, long_of, is_track};
ghost use Rattle.row.specs.Limits.{within};

use super::faults::{Fault, Layer, Refusal};
use super::rows::{Helper, Row, RowNumbers, Track};

impl TryFrom<RowNumbers> for Row {
    type Error = Fault;

    ghost try_from_gives = { RowOrFault };

    // The row with these numbers, or the refusal of numbers that break the limits.
    fn try_from(numbers: RowNumbers) -> Result<Row, Fault> {
        match numbers {
            RowNumbers::Track {
                period,
                deadline,
                short,
                long,
            } => {
                if within_limits(period, deadline, short, long) {
                    return Ok(Row::Track(Track {
                        period,
                        deadline,
                        short,
                        long,
                    }));
                }
            }
            RowNumbers::Helper {
                period,
                deadline,
                short,
            } => {
                if within_limits(period, deadline, short, short) {
                    return Ok(Row::Helper(Helper {
                        period,
                        deadline,
                        short,
                    }));
                }
            }
        }
        Err(Fault {
            refusal: Refusal::OutsideLimits,
            layer: Layer::Judge,
            place: 0,
        })
    }
}

// The row as plain numbers.
impl From<Row> for RowNumbers {
    ghost from_gives = { λ row r. r ≡ numbers_of row };

    fn from(row: Row) -> RowNumbers {
        match row {
            Row::Track(t) => RowNumbers::Track {
                period: t.period,
                deadline: t.deadline,
                short: t.short,
                long: t.long,
            },
            Row::Helper(h) => RowNumbers::Helper {
                period: h.period,
                deadline: h.deadline,
                short: h.short,
            },
        }
    }
}

// Numbers that make no row, for a place that is not in use.
impl Default for RowNumbers {
    ghost is_default = { λ r. r ≡ blank };

    fn default() -> RowNumbers {
        RowNumbers::Helper {
            period: 0,
            deadline: 0,
            short: 0,
        }
    }
}

// The least row that there is, for a place that is not in use.
impl Default for Row {
    ghost is_default = { λ r. numbers_of r ≡ least };

    fn default() -> Row {
        Row::Helper(Helper {
            period: 1,
            deadline: 1,
            short: 1,
        })
    }
}

impl Row {
    // T: the least time between two arrivals, in ticks.
    pub fn period(&self) -> u32
        ensures { result ≡ period_of self.now }
    {
        match *self {
            Row::Track(t) => t.period,
            Row::Helper(h) => h.period,
        }
    }

    // D: the time after its arrival by which a job has to end.
    pub fn deadline(&self) -> u32
        ensures { result ≡ deadline_of self.now }
    {
        match *self {
            Row::Track(t) => t.deadline,
            Row::Helper(h) => h.deadline,
        }
    }

    // C: the budget of a normal job.
    pub fn short(&self) -> u32
        ensures { result ≡ short_of self.now }
    {
        match *self {
            Row::Track(t) => t.short,
            Row::Helper(h) => h.short,
        }
    }

    // The budget of an abnormal job; a helper, which has none, gives its only budget.
    pub fn long(&self) -> u32
        ensures { result ≡ long_of self.now }
    {
        match *self {
            Row::Track(t) => t.long,
            Row::Helper(h) => h.short,
        }
    }

    // Whether the row is a track; otherwise it is a helper.
    pub fn is_track(&self) -> bool
        ensures { result ≡ is_track self.now }
    {
        matches!(self, Row::Track(_))
    }
}

fn within_limits(period: u32, deadline: u32, short: u32, long: u32) -> bool
    ensures { result ≡ within period deadline short long }
{
    1 <= short && short <= long && long <= deadline && deadline <= period && period <= 262_143
}
