// Judging a list of rows: the plan is filled, or the first check that applies refuses it.
ghost use Rattle.std.specs.Prelude.{◌≡◌, ◌≤◌, map, length, MatchResult};
ghost use Rattle.row.specs.Rows.{numbers_of};
ghost use Rattle.judge.specs.Accepted.{Accepted};
ghost use Rattle.judge.specs.Judged.{NoRowsMade, FailsFirst, Refused};
ghost use Rattle.judge.specs.Plan.{Filled};
ghost use Rattle.judge.specs.Determined.{Determined};

use super::above::Above;
use super::bounds::{Bounds, JudgeFault};
use super::plan::Plan;
use arrayvec::ArrayVec;
use row::{Row, RowNumbers};

// Fills the plan with the rows of these numbers and their bounds. A refusal leaves the plan as it was.
pub fn judge(plan: &mut Plan, given: &[RowNumbers]) -> Result<(), JudgeFault>
    ensures answer { MatchResult result (λ _. Filled given.now plan.new) (λ f. (plan.new ≡ plan.old) × Refused given.now f) }
    ensures determined { Determined }
{
    check_count(given)?;
    let rows = make_rows(given)?;
    let bounds = bound_rows(rows.as_slice())?;
    *plan = Plan { rows, bounds };
    Ok(())
}

// A line-up has 1 to 32 rows.
fn check_count(given: &[RowNumbers]) -> Result<(), JudgeFault>
    ensures { MatchResult result (λ _. (1 ≤ length given.now) × (length given.now ≤ 32)) (Refused given.now) }
{
    match given.len() {
        0 => Err(JudgeFault::NoRows),
        1..=32 => Ok(()),
        count => Err(JudgeFault::TooManyRows(count as u64)),
    }
}

// The rows of these numbers. By a `for`, since `try_collect` does not say that it fails where a row fails.
fn make_rows(given: &[RowNumbers]) -> Result<ArrayVec<Row, 32>, JudgeFault>
    requires { length given.now ≤ 32 }
    ensures { MatchResult result (λ rows. map numbers_of rows.items ≡ given.now) (NoRowsMade given.now) }
{
    let mut rows = ArrayVec::new();
    for numbers in given {
        let Ok(row) = Row::try_from(*numbers) else {
            return Err(JudgeFault::OutsideLimits);
        };
        rows.push(row);
    }
    Ok(rows)
}

// The bounds of each row, or the first row's failure. By a `for` as above.
fn bound_rows(rows: &[Row]) -> Result<ArrayVec<Bounds, 32>, JudgeFault>
    requires { length rows.now ≤ 32 }
    ensures { MatchResult result (λ bounds. Accepted rows.now bounds.items) (FailsFirst rows.now) }
{
    let mut bounds = ArrayVec::new();
    for (place, row) in rows.iter().enumerate() {
        let above = Above {
            rows: &rows[..place],
        };
        bounds.push(above.pass(row)?);
    }
    Ok(bounds)
}
