// How a session's answers look in print.
ghost use Rattle.std.specs.Prelude.{Some};
ghost use Rattle.law.specs.Texts.{outcome_text, work_text, reply_text};

use super::calls::{Outcome, Reply, Work};
use std::fmt;

impl fmt::Display for Outcome {
    ghost output = { λ o. Some (outcome_text o) };

    fn fmt<W: fmt::Write>(&self, f: &mut fmt::Formatter<W>) -> fmt::Result {
        f.pad(match self {
            Outcome::Idle => "idle",
            Outcome::GoesOn => "goes on",
            Outcome::Finished => "finished",
            Outcome::Cut => "cut",
        })
    }
}

impl fmt::Display for Work {
    ghost output = { λ w. Some (work_text w) };

    fn fmt<W: fmt::Write>(&self, f: &mut fmt::Formatter<W>) -> fmt::Result {
        write!(f, "row {} block {}", self.row, self.block)
    }
}

// Of a turn it tells what the turn is for.
impl fmt::Display for Reply {
    ghost output = { λ r. Some (reply_text r) };

    fn fmt<W: fmt::Write>(&self, f: &mut fmt::Formatter<W>) -> fmt::Result {
        match self {
            Reply::Block(block) => write!(f, "block {block}"),
            Reply::Turn(turn) => match turn.work {
                Some(work) => write!(f, "{work}"),
                None => write!(f, "idle"),
            },
            Reply::Done(outcome) => write!(f, "{outcome}"),
        }
    }
}
