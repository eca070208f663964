// What a session is opened with, and what can be wrong with a line.
use std::fmt;

// A board by its word in a script.
#[derive(Clone, Copy)]
pub enum BoardName {
    Word,
    Chain,
}

// A pool by its word in a script.
#[derive(Clone, Copy)]
pub enum PoolName {
    Bitmap,
    FreeList,
}

// What a session is opened with, besides its plan.
#[derive(Clone, Copy)]
pub struct Opening {
    pub board: BoardName,
    pub pool: PoolName,
    pub blocks: u32,
    pub number: u32,
}

// Why a line is no command.
#[derive(Clone, Copy)]
pub enum Wrong<'a> {
    // what has to stand there
    Missing(&'static str),
    // what has to stand in the place of the word
    Word {
        expected: &'static str,
        found: &'a str,
    },
    // what stands in the place of a hexadecimal digit
    Digit(char),
}

// What was expected, and what stood there instead.
impl fmt::Display for Wrong<'_> {
    fn fmt<W: fmt::Write>(&self, f: &mut fmt::Formatter<W>) -> fmt::Result {
        match *self {
            Wrong::Missing(expected) => write!(f, "expected {expected}"),
            Wrong::Word { expected, found } => write!(f, "expected {expected}, not '{found}'"),
            Wrong::Digit(found) => write!(f, "expected hexadecimal digits, not '{found}'"),
        }
    }
}
