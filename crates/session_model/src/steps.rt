// Generated lists of steps: mostly what a host would call, with calls that make no sense among them.
use super::history::{Terms, row_count};
use generator::Generator;
use law::{Call, Step, TurnNumbers, Work};
use row::Kind;
use std::alloc::{AllocError, Global};

const TICKS: u32 = 90;

// What a list is like: in how many of eight ticks a row that is due arrives, and one in how many arrivals of a track is
// abnormal, reports says finished, and ticks has a call that makes no sense.
#[derive(Clone, Copy)]
struct Style {
    eager: u32,
    abnormal: u32,
    finished: u32,
    noise: u32,
}

fn choose(draws: &mut Generator, of: [u32; 4]) -> u32 {
    of[draws.below(4) as usize]
}

fn make_style(draws: &mut Generator) -> Style {
    Style {
        eager: choose(draws, [1, 3, 8, 8]),
        abnormal: choose(draws, [1, 2, 5, 40]),
        finished: choose(draws, [2, 5, 1000, 1000]),
        noise: choose(draws, [2, 5, 20, 1000]),
    }
}

fn make_kind(draws: &mut Generator, n: u32) -> Kind {
    if draws.one_in(n) {
        Kind::Abnormal
    } else {
        Kind::Normal
    }
}

// A turn of any numbers.
fn any_turn(draws: &mut Generator) -> TurnNumbers {
    let work = if draws.one_in(3) {
        None
    } else {
        Some(Work {
            row: draws.below(4),
            block: draws.below(4),
        })
    };
    TurnNumbers {
        number: draws.below(3),
        clock: draws.below(TICKS),
        work,
    }
}

// A call that makes little sense where it stands.
fn stray_step(draws: &mut Generator, rows: u32) -> Step {
    let finished = draws.one_in(2);
    let kind = make_kind(draws, 2);
    let call = match draws.below(6) {
        0 => return Step::ReportOpen { finished },
        1 => Call::Begin,
        2 => Call::Arrive {
            row: rows.saturating_add(draws.below(40)),
            kind,
        },
        3 => Call::Arrive {
            row: u32::MAX,
            kind,
        },
        4 => Call::Arrive {
            row: draws.below(rows),
            kind,
        },
        _ => Call::Report {
            turn: any_turn(draws),
            finished,
        },
    };
    Step::Given(call)
}

// A list in the making, and when each row is due again, if each arrival was admitted.
#[derive(Drop)]
struct Schedule<'a> {
    draws: &'a mut Generator,
    terms: &'a [Terms],
    style: Style,
    due: Vec<u32>,
    steps: Vec<Step>,
}

impl Schedule<'_> {
    fn rows(&self) -> u32 {
        row_count(self.terms)
    }

    // Whether the row arrives now: when it is due, and now and then too early.
    fn arrives(&mut self, row: u32, tick: u32, period: u32) -> bool {
        let Some(due) = self.due.get_mut(row as usize) else {
            return false;
        };
        if tick < *due {
            return self.draws.one_in(30);
        }
        if self.draws.below(8) >= self.style.eager {
            return false;
        }
        *due = tick.saturating_add(period);
        true
    }

    fn put(&mut self, call: Call) -> Result<(), AllocError> {
        self.steps.push(Step::Given(call))?;
        Ok(())
    }

    fn put_arrival(&mut self, row: u32, asked: Terms, tick: u32) -> Result<(), AllocError> {
        if self.arrives(row, tick, asked.period) {
            let one_in = if asked.abnormal.is_some() {
                self.style.abnormal
            } else {
                20
            };
            let kind = make_kind(self.draws, one_in);
            self.put(Call::Arrive { row, kind })?;
        }
        Ok(())
    }

    // The arrivals of one tick, of all rows or of the helpers. The order of the rows begins anywhere.
    fn put_arrivals(&mut self, tick: u32, helpers_only: bool) -> Result<(), AllocError> {
        let rows = self.rows();
        let start = self.draws.below(rows);
        // By number, since an arrival names its row by its number.
        for row in (start..rows).chain(0..start) {
            if let Some(asked) = self.terms.get(row as usize).copied() {
                if !(helpers_only && asked.abnormal.is_some()) {
                    self.put_arrival(row, asked, tick)?;
                }
            }
        }
        Ok(())
    }

    // Now and then a call that makes little sense where it stands.
    fn put_noise(&mut self) -> Result<(), AllocError> {
        if self.draws.one_in(self.style.noise) {
            let rows = self.rows();
            self.steps.push(stray_step(self.draws, rows))?;
        }
        Ok(())
    }

    fn put_tick(&mut self, tick: u32) -> Result<(), AllocError> {
        self.put_noise()?;
        // where helpers come first, an abnormal arrival at the same tick refuses none of them
        if self.draws.one_in(2) {
            self.put_arrivals(tick, true)?;
        }
        self.put_arrivals(tick, false)?;
        self.put(Call::Begin)?;
        self.put_noise()?;
        let finished = self.draws.one_in(self.style.finished);
        self.steps.push(Step::ReportOpen { finished })?;
        Ok(())
    }
}

pub(crate) fn make_steps(
    heap: Global,
    draws: &mut Generator,
    terms: &[Terms],
) -> Result<Vec<Step>, AllocError> {
    let style = make_style(draws);
    let mut schedule = Schedule {
        draws,
        terms,
        style,
        due: vec![in heap; 0; terms.len()]?,
        steps: Vec::new(heap),
    };
    for tick in 0..TICKS {
        schedule.put_tick(tick)?;
    }
    Ok(schedule.steps)
}
