// What a plan says of its rows.
ghost use Rattle.std.specs.Prelude.{◌≡◌, [], length};
ghost use Rattle.std.specs.List.{slice_get};
ghost use Rattle.judge.specs.Plan.{rows_of, bounds_of};

use super::bounds::Bounds;
use super::plan::Plan;
use arrayvec::ArrayVec;
use row::Row;

impl Plan {
    // A plan with no rows.
    pub fn new() -> Plan
        ensures rows { rows_of result ≡ [] }
        ensures bounds { bounds_of result ≡ [] }
    {
        Plan {
            rows: ArrayVec::new(),
            bounds: ArrayVec::new(),
        }
    }

    // How many rows the plan has.
    pub fn len(&self) -> usize
        ensures { result ≡ length (rows_of self.now) }
    {
        self.rows.len()
    }

    // The row at a place, or none past the last.
    pub fn row(&self, place: usize) -> Option<Row>
        ensures { result ≡ slice_get (rows_of self.now) place }
    {
        self.rows.get(place).copied()
    }

    // The bounds of the row at a place, or none past the last.
    pub fn bounds(&self, place: usize) -> Option<Bounds>
        ensures { result ≡ slice_get (bounds_of self.now) place }
    {
        self.bounds.get(place).copied()
    }
}
