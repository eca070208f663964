// The times of a row, whichever kind it is of.
use row::RowNumbers;

// Only a track has a long budget. Rows are compared in this shape, not by the core's own equality.
#[derive(Clone, Copy, PartialEq, Eq)]
pub struct Times {
    pub period: u32,
    pub deadline: u32,
    pub short: u32,
    pub long: Option<u32>,
}

impl Times {
    // The longest budget of a job; a helper's is its only one.
    pub(crate) fn longest(&self) -> u32 {
        self.long.unwrap_or(self.short)
    }

    // Whether 1, C, L, D, T and the longest time never fall.
    pub(crate) fn keep_limits(&self) -> bool {
        [
            1,
            self.short,
            self.longest(),
            self.deadline,
            self.period,
            262_143,
        ]
        .is_sorted()
    }
}

impl From<RowNumbers> for Times {
    fn from(numbers: RowNumbers) -> Times {
        match numbers {
            RowNumbers::Track {
                period,
                deadline,
                short,
                long,
            } => Times {
                period,
                deadline,
                short,
                long: Some(long),
            },
            RowNumbers::Helper {
                period,
                deadline,
                short,
            } => Times {
                period,
                deadline,
                short,
                long: None,
            },
        }
    }
}

impl From<Times> for RowNumbers {
    fn from(times: Times) -> RowNumbers {
        let Times {
            period,
            deadline,
            short,
            long,
        } = times;
        match long {
            Some(long) => RowNumbers::Track {
                period,
                deadline,
                short,
                long,
            },
            None => RowNumbers::Helper {
                period,
                deadline,
                short,
            },
        }
    }
}
