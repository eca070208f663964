// Generated lists of rows: tight and loose, short and long, within the limits and not.
use super::times::Times;
use generator::Generator;
use row::RowNumbers;
use std::alloc::Global;
use std::io;

// What the rows of a list are like: the shortest period, how many periods there are, by how much they grow from row to row, and
// the part of a period that a budget takes at most.
#[derive(Clone, Copy)]
struct Style {
    shortest: u32,
    periods: u32,
    growth: u32,
    part: u32,
}

const TIGHT: Style = Style {
    shortest: 8,
    periods: 53,
    growth: 0,
    part: 5,
};

const LOOSE: Style = Style {
    shortest: 20,
    periods: 41,
    growth: 0,
    part: 9,
};

// The top row is a helper with a short period, which arrives again before the latest start of the rows below.
const BRISK: Style = Style {
    shortest: 4,
    periods: 4,
    growth: 20,
    part: 4,
};

// So that 32 rows can pass.
const SMALL: Style = Style {
    shortest: 100,
    periods: 21,
    growth: 0,
    part: 50,
};

// The longest period that there is, with budgets of one to three ticks.
const EDGE: Style = Style {
    shortest: 262_143,
    periods: 1,
    growth: 0,
    part: 131_072,
};

// The times of a row at a place.
fn make_times(draws: &mut Generator, style: Style, place: u32) -> Times {
    let shortest = style
        .shortest
        .saturating_add(style.growth.saturating_mul(place));
    let period = shortest.saturating_add(draws.below(style.periods));
    let most = (period / style.part.max(1)).max(1);
    let short = draws.below(most).saturating_add(1).min(period);
    let long = short.saturating_add(draws.below(most)).min(period);
    let room = period.saturating_sub(long);
    let deadline = if draws.one_in(4) {
        long.saturating_add(draws.below(room))
    } else {
        period
    };
    let track = draws.below(5) < 3 && (style.growth == 0 || place > 0);
    Times {
        period,
        deadline,
        short,
        long: track.then_some(long),
    }
}

// The times with one limit broken, by one or by as much as there is.
fn broken(draws: &mut Generator, times: Times) -> Times {
    let past = if draws.one_in(4) { u32::MAX } else { 1 };
    let mut wrong = times;
    let mut long = times.longest();
    match draws.below(5) {
        0 => wrong.period = 262_143u32.saturating_add(past),
        1 => wrong.short = 0,
        2 => wrong.short = long.saturating_add(past),
        3 => wrong.deadline = times.period.saturating_add(past),
        _ => long = times.deadline.saturating_add(past),
    }
    match times.long {
        Some(_) => wrong.long = Some(long),
        None => wrong.short = wrong.short.max(long),
    }
    wrong
}

// How many rows, and of which style.
fn make_shape(draws: &mut Generator) -> (u32, Style) {
    let few = 1 + draws.below(6);
    match draws.below(24) {
        0 => (draws.below(2), TIGHT),
        1 => (33 + draws.below(8), SMALL),
        2 | 3 => (32 - draws.below(13), SMALL),
        4 => (few, EDGE),
        5..=9 => (few, LOOSE),
        10..=17 => (few, BRISK),
        _ => (few, TIGHT),
    }
}

// A list of up to 40 rows. One list in ten has a row that breaks the limits.
pub(crate) fn make_list(heap: Global, draws: &mut Generator) -> io::Result<Vec<RowNumbers>> {
    let (count, style) = make_shape(draws);
    let bad = if draws.one_in(10) {
        Some(draws.below(count))
    } else {
        None
    };
    let mut list = Vec::new(heap);
    for place in 0..count {
        let mut times = make_times(draws, style, place);
        if bad == Some(place) {
            times = broken(draws, times);
        }
        list.push(RowNumbers::from(times))?;
    }
    Ok(list)
}
