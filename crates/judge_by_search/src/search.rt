// The judge's answer by plain search: every t and every instant is tried in turn.
use super::demands::{Above, Demand};
use super::times::Times;
use row::RowNumbers;
use std::alloc::{AllocError, Global};

// A greatest value and the first instant that attains it.
#[derive(Clone, Copy, Default)]
pub struct Greatest {
    pub value: u64,
    pub instant: usize,
}

#[derive(Clone, Copy)]
pub struct Late {
    pub mixed: Greatest,
    pub long: Greatest,
}

#[derive(Clone, Copy)]
pub struct Found {
    pub normal: u64,
    pub late: Option<Late>,
}

// A refusal by its number in docs/REFUSALS.md, written out here, so that nothing is shared with the core's own table.
#[derive(Clone, Copy)]
pub struct Refused {
    pub number: u8,
    pub place: u64,
}

// The bounds of every row, or why the list is refused.
pub type Verdict = Result<Vec<Found>, Refused>;

// The greatest value over the instants below `end`, if there is one at each.
fn most_of<F: Fn(usize) -> Option<u64>>(end: u64, value: F) -> Option<Greatest>
    requires { F.IsAlwaysCallable value }
{
    // A `for` with `?`: a `try_fold` would hold the same test in a closure.
    let mut most = Greatest::default();
    for instant in 0..end as usize {
        let value = value(instant)?;
        if value > most.value {
            most = Greatest { value, instant };
        }
    }
    Some(most)
}

fn late_finish(above: &[Above], budget: u32, instant: usize) -> Option<u64> {
    let demand = Demand::Late {
        budget: budget as u64,
        instant,
    };
    demand.least(above, 1)
}

// A late finish counts from 0 on in the mixed bound, and from its instant on in the long one.
fn mixed_bound(above: &[Above], short: u32, normal: u64) -> Option<Greatest> {
    most_of(normal, |instant| late_finish(above, short, instant))
}

fn long_bound(above: &[Above], long: u32) -> Option<Greatest> {
    let start = Demand::Start.least(above, 0)?;
    most_of(start.max(1), |instant| {
        late_finish(above, long, instant).map(|finish| finish.saturating_sub(instant as u64))
    })
}

// A bound that exists and is at most the deadline; otherwise the number of the refusal.
fn kept(bound: Option<Greatest>, deadline: u32, number: u8) -> Result<Greatest, u8> {
    bound
        .filter(|found| found.value <= deadline as u64)
        .ok_or(number)
}

fn late_bounds(above: &[Above], times: &Times, long: u32, normal: u64) -> Result<Late, u8> {
    let mixed = mixed_bound(above, times.short, normal);
    let mixed = kept(mixed, times.deadline, 11)?;
    let long = long_bound(above, long);
    let long = kept(long, times.deadline, 12)?;
    Ok(Late {
        mixed: at_least(mixed, normal),
        long,
    })
}

// The mixed bound is no less than the normal one.
fn at_least(mixed: Greatest, normal: u64) -> Greatest {
    if mixed.value < normal {
        Greatest {
            value: normal,
            instant: 0,
        }
    } else {
        mixed
    }
}

// The bounds of one row, or the number of the refusal.
fn bounds(above: &[Above], numbers: &RowNumbers) -> Result<Found, u8> {
    let times = Times::from(*numbers);
    let demand = Demand::Normal {
        budget: times.short as u64,
    };
    let normal = demand
        .least(above, 1)
        .filter(|normal| *normal <= times.deadline as u64)
        .ok_or(10)?;
    let late = match times.long {
        Some(long) => Some(late_bounds(above, &times, long, normal)?),
        None => None,
    };
    Ok(Found { normal, late })
}

// Why the list as a whole is refused.
fn refused_whole(given: &[RowNumbers]) -> Option<Refused> {
    match given.len() {
        0 => Some(Refused {
            number: 7,
            place: 0,
        }),
        1..=32 => {
            let mut times = given.iter().copied().map(Times::from);
            let outside = times.any(|times| !times.keep_limits());
            outside.then_some(Refused {
                number: 5,
                place: 0,
            })
        }
        count => Some(Refused {
            number: 6,
            place: count as u64,
        }),
    }
}

// What the judge has to answer.
pub(crate) fn judge_by_search(heap: Global, given: &[RowNumbers]) -> Result<Verdict, AllocError> {
    if let Some(refused) = refused_whole(given) {
        return Ok(Err(refused));
    }
    let mut above = Vec::new(heap);
    let mut all = Vec::new(heap);
    for numbers in given {
        match bounds(above.as_slice(), numbers) {
            Ok(found) => all.push(found)?,
            Err(number) => {
                let place = above.len() as u64;
                return Ok(Err(Refused { number, place }));
            }
        }
        above.push(Above::new(heap, numbers)?)?;
    }
    Ok(Ok(all))
}
