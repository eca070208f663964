// What the reader gives and how it refuses.
use row::{Refusal, RowNumbers};

// A record of a line-up. The numbers of a row keep the limits.
// A label is the very part of the input, with its offset there.
#[derive(Clone, Copy, Debug, PartialEq, Eq)]
pub enum Record<'a> {
    Row(RowNumbers),
    Label { offset: usize, bytes: &'a [u8] },
    End,
}

// A refused read: why, and the offset of the record that was being read.
#[derive(Clone, Copy, Debug, PartialEq, Eq)]
pub struct ReadFault {
    pub refusal: Refusal,
    pub offset: usize,
}

// A refused write: why, and the bytes written so far, or the buffer's length where that is too short.
// A type of its own, since it becomes a fault of another layer: one generic type would need a marker for the layer.
#[derive(Clone, Copy, Debug, PartialEq, Eq)]
pub struct WriteFault {
    pub refusal: Refusal,
    pub place: usize,
}
