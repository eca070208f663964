// Read, judge, list.
ghost use Rattle.std.specs.Prelude.{◌≡◌, ℕ, ◌≤◌, List, length, MatchResult};
ghost use Rattle.lineup_check.specs.Listing.{rows_in, Faulty, Planned, Listing, Written, OneListing};

use super::lines::{Text, bound_lines, refused_line};
use judge::{Plan, judge};
use reader::read_rows;
use row::Fault;

// Fills the plan from a line-up's bytes, or says which fault applies and leaves the plan as it was.
pub fn plan_lineup(plan: &mut Plan, input: &[u8]) -> Result<(), Fault>
    ensures { MatchResult result (λ _. Planned (rows_in input.now) plan.new) (λ f. (plan.new ≡ plan.old) × Faulty (rows_in input.now) f) }
{
    let rows = read_rows(input)?;
    judge(plan, rows.as_slice())?;
    Ok(())
}

fn listing_text(input: &[u8]) -> Text
    ensures { Listing input.now result.bytes }
{
    let mut plan = Plan::new();
    match plan_lineup(&mut plan, input) {
        Ok(()) => bound_lines(&plan),
        Err(fault) => refused_line(fault),
    }
}

// Writes the listing of a line-up to the front of the output and answers its length,
// or answers 0 and leaves the output as it was where the listing does not fit.
pub fn check_lineup(input: &[u8], output: &mut [u8]) -> usize
    ensures listed { (text : List ℕ) × Listing input.now text × Written text output.old output.new result }
    ensures bound { result ≤ length output.new }
    ensures single { OneListing }
{
    let text = listing_text(input);
    let len = text.len();
    if output.len() < len {
        return 0;
    }
    output[..len].copy_from_slice(text.as_str().as_bytes());
    len
}
