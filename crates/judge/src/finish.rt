// When a job may end below the rows above: least windows with room for their own demand.
ghost use Rattle.std.specs.Prelude.{◌≤◌};
ghost use Rattle.row.specs.Rows.{deadline_of, short_of};
ghost use Rattle.judge.specs.Bounds.{FoundUpTo, NormalBound, LateFinish};

use super::above::Above;
use super::share::{Late, Normal};
use row::Row;

impl Above<'_> {
    // The normal bound of a row, if it exists and is at most the deadline.
    pub(crate) fn normal_bound(&self, row: &Row) -> Option<u32>
        ensures { FoundUpTo (deadline_of row.now) (NormalBound self.now.rows.now (short_of row.now)) result }
    {
        self.least(&Normal, row.short(), row.deadline())
    }

    // The late finish at a first budget and an instant, if it exists and is at most `limit`.
    pub(crate) fn late_finish(&self, budget: u32, instant: u32, limit: u32) -> Option<u32>
        requires { (1 ≤ budget) × ((instant ≤ 262143) × (limit ≤ 524286)) }
        ensures { FoundUpTo limit (LateFinish self.now.rows.now budget instant) result }
    {
        self.least(&Late { instant }, budget, limit)
    }
}
