// Whether the judge's answer and its plan are those of the search.
use super::search::{Found, Refused, Verdict};
use super::times::Times;
use judge::{Bounds, JudgeFault, Plan};
use row::{Fault, Layer, RowNumbers};

// By the search's own number, not by the core's equality of faults.
fn same_refusal(fault: Fault, expected: &Refused) -> bool {
    matches!(fault.layer, Layer::Judge)
        && fault.refusal.number() == expected.number
        && fault.place == expected.place
}

pub(crate) fn same_answer(answer: Result<(), JudgeFault>, verdict: &Verdict) -> bool {
    match (answer, verdict) {
        (Ok(()), Ok(_)) => true,
        (Err(fault), Err(expected)) => same_refusal(Fault::from(fault), expected),
        _ => false,
    }
}

fn same_bounds(bounds: Bounds, found: &Found) -> bool {
    let late = bounds
        .late
        .map(|late| (late.mixed as u64, late.long as u64));
    let found_late = found.late.map(|late| (late.mixed.value, late.long.value));
    bounds.normal as u64 == found.normal && late == found_late
}

fn same_place(plan: &Plan, place: usize, numbers: &RowNumbers, found: &Found) -> bool {
    let row = plan.row(place);
    let bounds = plan.bounds(place);
    row.is_some_and(|row| Times::from(RowNumbers::from(row)) == Times::from(*numbers))
        && bounds.is_some_and(|bounds| same_bounds(bounds, found))
}

// Whether the plan holds exactly these rows with these bounds.
pub(crate) fn same_plan(plan: &Plan, rows: &[(RowNumbers, Found)]) -> bool {
    let mut places = rows.iter().enumerate();
    plan.len() == rows.len()
        && plan.row(rows.len()).is_none()
        && places.all(|(place, (numbers, found))| same_place(plan, place, numbers, found))
}
