// What one row above takes of the processor in a window. The demands differ in this alone.
ghost use Rattle.std.specs.Prelude.{◌≡◌, ℕ, ◌+◌, ◌*◌, ◌<◌, ◌≤◌};
ghost use Rattle.judge.specs.Demand.{up, normal_share, late_share, start_share};
ghost use Rattle.row.specs.declared.rows.Row.{Row};
ghost use Rattle.judge.specs.Shares.{normal_rises, normal_small, late_rises, late_small, start_rises, start_small};

use row::Row;

// One row's share of a window, as one of the demands counts it.
pub(crate) trait Share {
    // what row r takes of a window of length t
    ghost taken: { Self → ℕ → Row → ℕ };

    // The range of a window is asked for here and by `demand`: a type for it would wrap every number that a search tries.
    fn of(&self, row: &Row, window: u32) -> u64
        requires { window ≤ 524286 }
        ensures { result ≡ taken self.now window row.now };

    // a longer window takes no less
    ghost rises: { (d : Self) (r : Row) (t u : ℕ) → t ≤ u → taken d t r ≤ taken d u r };

    // a budget is at most its period, so jobs take at most the window and a period; a track has two kinds of them
    ghost bounded: { (d : Self) (r : Row) (t : ℕ) → taken d t r ≤ 2 * (t + 262143) };
}

// every job is normal
#[derive(Drop)]
pub(crate) struct Normal;

// the mode turns abnormal at an instant of the window
#[derive(Drop)]
pub(crate) struct Late {
    pub instant: u32,
    ghost early: { instant ≤ 262143 },
}

// the rows above let a job start at the end of the window
#[derive(Drop)]
pub(crate) struct Start;

impl Share for Normal {
    ghost taken = { λ _ t r. normal_share t r };

    ghost rises = { λ d. normal_rises };

    ghost bounded = { λ d. normal_small };

    fn of(&self, row: &Row, window: u32) -> u64 {
        rounded_up(window, row.period()) as u64 * row.short() as u64
    }
}

impl Share for Late {
    ghost taken = { λ d t r. late_share d.instant t r };

    ghost rises = { λ d. late_rises d.instant };

    ghost bounded = { λ d. late_small d.instant d.early };

    fn of(&self, row: &Row, window: u32) -> u64 {
        match *row {
            Row::Track(track) => {
                let jobs = rounded_up(window, track.period) as u64;
                let late_jobs = rounded_up(
                    window.saturating_sub(self.instant),
                    track.period,
                ) as u64;
                jobs * track.short as u64 + late_jobs * (track.long - track.short) as u64
            }
            Row::Helper(helper) => (self.instant / helper.period + 1) as u64 * helper.short as u64,
        }
    }
}

impl Share for Start {
    ghost taken = { λ _ t r. start_share t r };

    ghost rises = { λ d. start_rises };

    ghost bounded = { λ d. start_small };

    fn of(&self, row: &Row, window: u32) -> u64 {
        (window / row.period() + 1) as u64 * row.short() as u64
    }
}

// How many jobs of this period arrive in the window.
fn rounded_up(window: u32, period: u32) -> u32
    requires { (window ≤ 524286) × ((0 < period) × (period ≤ 262143)) }
    ensures { result ≡ up window period }
{
    window.div_ceil(period)
}
