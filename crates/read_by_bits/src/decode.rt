// Line-ups from their bits: every field is folded bit by bit, and the records are kept.
// In types and numbers of this program alone, so that nothing is shared with the reader.
use super::bits::Bits;
use std::alloc::Global;
use std::io;

// The times of a row. Only a track has a long budget.
#[derive(Clone, Copy, PartialEq, Eq)]
pub struct Times {
    pub period: u32,
    pub deadline: u32,
    pub short: u32,
    pub long: Option<u32>,
}

// A record as it was decoded. A label is a part of the input, with its place there.
#[derive(Clone, Copy, PartialEq, Eq)]
pub enum Item<'a> {
    Row(Times),
    Label { offset: usize, bytes: &'a [u8] },
    End,
}

// A refusal by its number in docs/LINEUP.md, and the offset of its record.
#[derive(Clone, Copy, PartialEq, Eq)]
pub struct Refused {
    pub number: u8,
    pub offset: usize,
}

// The records up to the end or up to a refusal.
#[derive(Drop)]
pub struct Decoded<'a> {
    pub items: Vec<Item<'a>>,
    pub refused: Option<Refused>,
}

fn is_row(item: &Item<'_>) -> bool {
    matches!(item, Item::Row(_))
}

fn rows_among(items: &[Item<'_>]) -> usize {
    items.iter().filter(|item| is_row(item)).count()
}

// A helper's long budget is its only one.
fn in_limits(times: &Times) -> bool {
    let long = times.long.unwrap_or(times.short);
    [1, times.short, long, times.deadline, times.period].is_sorted()
}

// A line-up that is decoded: its bytes, the bits that are left of them, and the records so far.
#[derive(Drop)]
struct Decoder<'a> {
    input: &'a [u8],
    bits: Bits,
    items: Vec<Item<'a>>,
}

impl<'a> Decoder<'a> {
    fn time(&mut self) -> Result<u32, u8> {
        self.bits.field(18)
    }

    fn track_times(&mut self) -> Result<Times, u8> {
        Ok(Times {
            period: self.time()?,
            deadline: self.time()?,
            short: self.time()?,
            long: Some(self.time()?),
        })
    }

    fn helper_times(&mut self) -> Result<Times, u8> {
        Ok(Times {
            period: self.time()?,
            deadline: self.time()?,
            short: self.time()?,
            long: None,
        })
    }

    // The rest of a row: so many bits of filling.
    fn row_item(&mut self, times: Times, filling: u32) -> Result<Item<'a>, u8> {
        if self.bits.field(filling)? > 0 {
            return Err(3);
        }
        if !in_limits(&times) {
            return Err(5);
        }
        if rows_among(self.items.as_slice()) == 32 {
            return Err(6);
        }
        Ok(Item::Row(times))
    }

    fn label_item(&mut self) -> Result<Item<'a>, u8> {
        let length = self.bits.field(5)?;
        let offset = self.bits.offset();
        // Every byte is read, also behind one that is not printable.
        let mut printable = true;
        for _ in 0..length {
            let byte = self.bits.field(8)?;
            printable = printable && byte > 31 && byte < 127;
        }
        if length > 0 && printable && self.items.last().is_some_and(is_row) {
            let bytes = self.input.get(offset..self.bits.offset()).unwrap_or(&[]);
            Ok(Item::Label { offset, bytes })
        } else {
            Err(4)
        }
    }

    fn end_item(&mut self) -> Result<Item<'a>, u8> {
        let count = self.bits.field(5)? as usize;
        if count.saturating_add(1) != rows_among(self.items.as_slice()) {
            return Err(7);
        }
        if !self.bits.at_end() {
            return Err(8);
        }
        Ok(Item::End)
    }

    fn next_item(&mut self) -> Result<Item<'a>, u8> {
        match self.bits.field(3)? {
            0 => {
                let times = self.helper_times()?;
                self.row_item(times, 7)
            }
            1 => {
                let times = self.track_times()?;
                self.row_item(times, 5)
            }
            2 => self.label_item(),
            3 => self.end_item(),
            _ => Err(1),
        }
    }
}

pub(crate) fn decode(heap: Global, input: &[u8]) -> io::Result<Decoded<'_>> {
    let mut decoder = Decoder {
        input,
        bits: Bits::of(heap, input)?,
        items: Vec::new(heap),
    };
    let mut refused = None;
    // every record takes a byte at least, so the loop never runs out
    for _ in 0..=input.len() {
        let offset = decoder.bits.offset();
        match decoder.next_item() {
            Ok(item) => decoder.items.push(item)?,
            Err(number) => {
                refused = Some(Refused { number, offset });
                break;
            }
        }
        if matches!(decoder.items.last(), Some(Item::End)) {
            break;
        }
    }
    let items = decoder.items;
    Ok(Decoded { items, refused })
}
