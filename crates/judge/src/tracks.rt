// The late bounds of a track: how long its jobs may take though jobs are abnormal.
ghost use Rattle.std.specs.Prelude.{◌<◌, ◌≤◌};
ghost use Rattle.judge.specs.Bounds.{FoundUpTo, NormalBound, LatestStart, MixedBound, LongBound};
ghost use Rattle.judge.specs.Instants.{FinishFrom};

use super::above::Above;
use super::greatest::greatest;
use super::share::Start;
use row::Track;

// A track below the rows above, with its normal bound, which is at most its deadline.
#[derive(Clone, Copy)]
pub(crate) struct TimelyTrack<'a> {
    pub above: Above<'a>,
    pub track: Track,
    pub normal: u32,
    ghost bound: { NormalBound above.rows.now track.short normal },
    ghost timely: { normal ≤ track.deadline },
}

impl TimelyTrack<'_> {
    // The mixed bound, if it exists and is at most the deadline.
    pub(crate) fn mixed_bound(&self) -> Option<u32>
        ensures { FoundUpTo self.now.track.deadline (MixedBound self.now.above.rows.now self.now.track.short) result }
    {
        let track = self.track;
        let late = greatest(self.normal, |instant| {
            self.above.late_finish(track.short, instant, track.deadline)
        })?;
        Some(self.normal.max(late))
    }

    // The long bound, if it exists and is at most the deadline.
    pub(crate) fn long_bound(&self) -> Option<u32>
        ensures { FoundUpTo self.now.track.deadline (LongBound self.now.above.rows.now self.now.track.long) result }
    {
        let instants = self.latest_start().max(1);
        greatest(instants, |instant| self.long_finish(instant))
    }

    // The late finish at the long budget, counted from the instant, if it is at most the deadline.
    fn long_finish(&self, instant: u32) -> Option<u32>
        requires { instant ≤ 262143 }
        ensures { FoundUpTo self.now.track.deadline (FinishFrom self.now.above.rows.now self.now.track.long instant) result }
    {
        let track = self.track;
        let limit = track.deadline + instant;
        let finish = self.above.late_finish(track.long, instant, limit)?;
        Some(finish.saturating_sub(instant))
    }

    // The latest start. It exists, and comes before the normal bound: a job that ends by then has started before.
    fn latest_start(&self) -> u32
        ensures start { LatestStart self.now.above.rows.now result }
        ensures before { result < self.now.normal }
    {
        // a `match` and no `unwrap`, since the proof reads what the search says in each arm
        match self.above.least(&Start, 0, self.normal - self.track.short) {
            Some(start) => start,
            None => unreachable(),
        }
    }
}
