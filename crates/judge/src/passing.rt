// Whether a row passes below the rows above: each of its bounds exists and is at most its deadline.
ghost use Rattle.std.specs.Prelude.{length, Some, MatchResult};
ghost use Rattle.row.specs.declared.rows.Row.TheVariants.{Track as track};
ghost use Rattle.judge.specs.Accepted.{LatePasses, Passes};
ghost use Rattle.judge.specs.Judged.{FailsBy};

use super::above::Above;
use super::bounds::{Bounds, JudgeFault, LateBounds};
use super::tracks::TimelyTrack;
use row::Row;

impl Above<'_> {
    // The bounds of the row below, or the first check that it fails.
    pub(crate) fn pass(&self, row: &Row) -> Result<Bounds, JudgeFault>
        ensures { MatchResult result (Passes self.now.rows.now row.now) (FailsBy self.now.rows.now row.now (length self.now.rows.now)) }
    {
        let place = self.rows.len() as u64;
        let normal = self
            .normal_bound(row)
            .ok_or(JudgeFault::NormalBound(place))?;
        let late = match *row {
            Row::Helper(_) => None,
            Row::Track(track) => {
                let timely = TimelyTrack {
                    above: *self,
                    track,
                    normal,
                };
                Some(timely.late_bounds()?)
            }
        };
        Ok(Bounds { normal, late })
    }
}

impl TimelyTrack<'_> {
    // The mixed and long bound, or the first of them that fails.
    fn late_bounds(&self) -> Result<LateBounds, JudgeFault>
        ensures { MatchResult result (λ b. LatePasses self.now.above.rows.now (track self.now.track) (Some b)) (FailsBy self.now.above.rows.now (track self.now.track) (length self.now.above.rows.now)) }
    {
        let place = self.above.rows.len() as u64;
        let mixed = self.mixed_bound().ok_or(JudgeFault::MixedBound(place))?;
        let long = self.long_bound().ok_or(JudgeFault::LongBound(place))?;
        Ok(LateBounds { mixed, long })
    }
}
