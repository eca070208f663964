// Follows a session's answers with the model. What is expected is compared here, not by the core's own equality.
use super::history::Event;
use super::model::{Model, told};
use super::standing::{Refused, Standing};
use board::Board;
use law::{Answer, Call, Outcome, Reply, TurnNumbers};
use pool::Pool;
use row::{Fault, Kind, Layer};
use std::alloc::AllocError;

fn same_outcome(one: Outcome, other: Outcome) -> bool {
    match one {
        Outcome::Idle => matches!(other, Outcome::Idle),
        Outcome::GoesOn => matches!(other, Outcome::GoesOn),
        Outcome::Finished => matches!(other, Outcome::Finished),
        Outcome::Cut => matches!(other, Outcome::Cut),
    }
}

fn same_refusal(refused: Refused, fault: Fault) -> bool {
    matches!(fault.layer, Layer::Session)
        && fault.refusal.number() == refused.number
        && fault.place == u64::from(refused.place)
}

// What the model replies to a call that it accepts. An arrival has none, since it may get any free block.
#[derive(Clone, Copy)]
enum Expected {
    Turn(TurnNumbers),
    Done(Outcome),
}

fn same_answer(expected: Result<Expected, Refused>, answer: Answer) -> bool {
    match (expected, answer) {
        (Ok(Expected::Turn(turn)), Ok(Reply::Turn(other))) => told(turn) == told(other),
        (Ok(Expected::Done(outcome)), Ok(Reply::Done(other))) => same_outcome(outcome, other),
        (Err(refused), Err(fault)) => same_refusal(refused, fault),
        _ => false,
    }
}

impl Model<'_> {
    // An arrival may get any block that is free, and the model follows it.
    fn follow_arrival(&mut self, row: u32, kind: Kind, answer: Answer) -> Result<bool, AllocError> {
        let standing = self.standing()?;
        match (standing.arrive(row, kind), answer) {
            (Ok(()), Ok(Reply::Block(block))) => {
                self.events.push(Event::Admitted { row, kind, block })?;
                Ok(standing.is_free(block))
            }
            (Err(refused), Err(fault)) => Ok(same_refusal(refused, fault)),
            _ => Ok(false),
        }
    }

    fn follow_begin(&mut self, answer: Answer) -> Result<bool, AllocError> {
        let begun = self.standing()?.begin();
        if let Ok(turn) = begun {
            self.events.push(Event::Begun(turn))?;
        }
        Ok(same_answer(begun.map(Expected::Turn), answer))
    }

    // Whether the answer is the model's, which goes on as the rules say.
    pub(crate) fn follow(&mut self, call: Call, answer: Answer) -> Result<bool, AllocError> {
        match call {
            Call::Arrive { row, kind } => self.follow_arrival(row, kind, answer),
            Call::Begin => self.follow_begin(answer),
            Call::Report { turn, finished } => {
                let outcome = self.report(turn, finished)?;
                Ok(same_answer(outcome.map(Expected::Done), answer))
            }
        }
    }
}

impl Standing<'_> {
    // Whether the board given back holds the rows with an unended job, and the pool's free blocks are those of the model.
    pub(crate) fn is_left<B: Board + Drop, P: Pool + Drop>(&self, mut board: B, pool: P) -> bool {
        let rows = (0..40).all(|row| board.remove(row) == self.unended(row).is_some());
        let blocks = (0..70).all(|block| pool.is_free(block) == self.is_free(block));
        rows && blocks
    }
}
