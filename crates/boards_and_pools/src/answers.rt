// What is answered to a call of a board or of a pool.
use std::fmt;

#[derive(Clone, Copy)]
pub enum Answer {
    Done,
    Said(bool),
    // a row or a block, if there is one
    Found(Option<u32>),
    Count(u32),
}

impl fmt::Display for Answer {
    fn fmt<W: fmt::Write>(&self, f: &mut fmt::Formatter<W>) -> fmt::Result {
        match *self {
            Answer::Done => write!(f, "done"),
            Answer::Said(true) => write!(f, "yes"),
            Answer::Said(false) => write!(f, "no"),
            Answer::Found(Some(number)) => write!(f, "{number}"),
            Answer::Found(None) => write!(f, "none"),
            Answer::Count(count) => write!(f, "{count}"),
        }
    }
}
