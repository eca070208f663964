// The same list again, with turns told by their numbers, and forged and stale ones before them.
use generator::Generator;
use law::{Answer, Call, Reply, Step, TurnNumbers, Work};
use std::alloc::{AllocError, Global};

// Work with another row, another block or none; work where there was none.
fn other_work(draws: &mut Generator, work: Option<Work>) -> Option<Work> {
    let Some(work) = work else {
        return Some(Work {
            row: draws.below(3),
            block: draws.below(3),
        });
    };
    match draws.below(3) {
        0 => None,
        1 => Some(Work {
            row: work.row ^ 1,
            ..work
        }),
        _ => Some(Work {
            block: work.block ^ 1,
            ..work
        }),
    }
}

// The turn with one of its numbers changed.
fn forged_turn(draws: &mut Generator, turn: TurnNumbers) -> TurnNumbers {
    let mut forged = turn;
    match draws.below(4) {
        0 => forged.number ^= 1,
        1 => forged.clock = turn.clock.saturating_sub(1),
        2 => forged.clock = turn.clock.saturating_add(1),
        _ => forged.work = other_work(draws, turn.work),
    }
    forged
}

// What the answers so far tell: the turn that is open, and the one that was open last.
#[derive(Clone, Copy, Default)]
struct Turns {
    open: Option<TurnNumbers>,
    stale: Option<TurnNumbers>,
}

impl Turns {
    fn note(self, answer: Answer) -> Turns {
        match answer {
            Ok(Reply::Turn(turn)) => Turns {
                open: Some(turn),
                ..self
            },
            Ok(Reply::Done(_)) => Turns {
                open: None,
                stale: self.open,
            },
            _ => self,
        }
    }
}

fn report(turn: TurnNumbers, finished: bool) -> Step {
    Step::Given(Call::Report { turn, finished })
}

fn put_forged(
    steps: &mut Vec<Step>,
    draws: &mut Generator,
    turns: Turns,
) -> Result<(), AllocError> {
    let finished = draws.one_in(2);
    if let Some(stale) = turns.stale {
        if draws.one_in(6) {
            steps.push(report(stale, finished))?;
        }
    }
    if let Some(open) = turns.open {
        if draws.one_in(3) {
            steps.push(report(forged_turn(draws, open), finished))?;
        }
    }
    Ok(())
}

// Refused calls change nothing, so each step of the list gets the answer that it had, and the turns are those of the log.
pub(crate) fn forge(
    heap: Global,
    draws: &mut Generator,
    steps: &[Step],
    log: &[Answer],
) -> Result<Vec<Step>, AllocError> {
    let mut all = Vec::new(heap);
    let mut turns = Turns::default();
    for (step, answer) in steps.iter().zip(log.iter()) {
        put_forged(&mut all, draws, turns)?;
        match (*step, turns.open) {
            (Step::ReportOpen { finished }, Some(open)) => all.push(report(open, finished))?,
            _ => all.push(*step)?,
        }
        turns = turns.note(*answer);
    }
    Ok(all)
}
