// Calls of a board.
use std::fmt;

#[derive(Clone, Copy)]
pub enum BoardCall {
    Add(u32),
    Remove(u32),
    First,
    PopFirst,
    Clear,
}

pub const CALLS: [BoardCall; 17] = [
    BoardCall::First,
    BoardCall::Add(9),
    BoardCall::Add(31),
    BoardCall::Add(4),
    BoardCall::Add(17),
    BoardCall::Add(9),
    BoardCall::Add(32),
    BoardCall::First,
    BoardCall::Remove(17),
    BoardCall::Remove(17),
    BoardCall::PopFirst,
    BoardCall::PopFirst,
    BoardCall::PopFirst,
    BoardCall::PopFirst,
    BoardCall::Add(0),
    BoardCall::Clear,
    BoardCall::First,
];

impl fmt::Display for BoardCall {
    fn fmt<W: fmt::Write>(&self, f: &mut fmt::Formatter<W>) -> fmt::Result {
        match *self {
            BoardCall::Add(row) => write!(f, "add {row}"),
            BoardCall::Remove(row) => write!(f, "remove {row}"),
            BoardCall::First => write!(f, "first"),
            BoardCall::PopFirst => write!(f, "pop first"),
            BoardCall::Clear => write!(f, "clear"),
        }
    }
}
