// Generated line-ups: written by the writer, which writes good ones only, or packed bit by bit with mistakes.
use super::bits::Bits;
use generator::Generator;
use lineup::Writer;
use row::{Fault, Row, RowNumbers};
use std::alloc::Global;
use std::io;

// Numbers that keep the limits, up to the longest that there are.
fn make_numbers(draws: &mut Generator) -> RowNumbers {
    let most = if draws.one_in(3) { 262_143 } else { 60 };
    let period = 1 + draws.below(most);
    let deadline = 1 + draws.below(period);
    let long = 1 + draws.below(deadline);
    let short = 1 + draws.below(long);
    if draws.one_in(2) {
        RowNumbers::Track {
            period,
            deadline,
            short,
            long,
        }
    } else {
        RowNumbers::Helper {
            period,
            deadline,
            short,
        }
    }
}

// How many rows a line-up gets: mostly few, sometimes about as many as there may be.
fn make_count(draws: &mut Generator) -> u32 {
    if draws.one_in(10) {
        31 + draws.below(4)
    } else {
        1 + draws.below(5)
    }
}

const TEXT: [u8; 31] = *b" ~Host microphone 2, left {~} A";

fn put_row(writer: &mut Writer<'_>, draws: &mut Generator) -> Result<(), Fault> {
    let row = Row::try_from(make_numbers(draws))?;
    writer.put(&row)?;
    if draws.one_in(2) {
        let length = 1 + draws.below(31) as usize;
        writer.label(&TEXT[0..length])?;
    }
    Ok(())
}

fn write_rows(buffer: &mut [u8], draws: &mut Generator) -> Result<usize, Fault> {
    let count = make_count(draws).min(32);
    let mut writer = Writer::new(buffer);
    for _ in 0..count {
        put_row(&mut writer, draws)?;
    }
    Ok(writer.finish()?)
}

// A line-up that the writer wrote.
pub(crate) fn written(heap: Global, draws: &mut Generator) -> io::Result<Vec<u8>> {
    let mut buffer = [0u8; 2048];
    let len = write_rows(&mut buffer, draws).unwrap_or(0);
    Ok(buffer.iter().take(len).copied().collect(heap)?)
}

// Puts a wrong number in the place of one of them, or keeps some bits of the short budget. A helper has no long budget.
fn break_limit(numbers: RowNumbers, place: u32, wrong: u32) -> RowNumbers {
    match numbers {
        RowNumbers::Track {
            period,
            deadline,
            short,
            long,
        } => RowNumbers::Track {
            period: if place == 0 { wrong } else { period },
            deadline: if place == 1 { wrong } else { deadline },
            long: if place == 2 { wrong } else { long },
            short: if place == 3 { long & wrong } else { short },
        },
        RowNumbers::Helper {
            period,
            deadline,
            short,
        } => RowNumbers::Helper {
            period: if place == 0 { wrong } else { period },
            deadline: if place == 1 { wrong } else { deadline },
            short: if place == 3 { short & wrong } else { short },
        },
    }
}

// A line-up in the making, bit by bit. Mistakes are rarer by the factor `care`.
#[derive(Drop)]
struct Packer<'a> {
    draws: &'a mut Generator,
    bits: Bits,
    care: u32,
}

impl Packer<'_> {
    // Whether a mistake comes that is made once in n times, without care.
    fn errs(&mut self, n: u32) -> bool {
        self.draws.one_in(self.care.saturating_mul(n))
    }

    // Numbers of which some limit may be broken.
    fn any_numbers(&mut self) -> RowNumbers {
        let numbers = make_numbers(self.draws);
        if !self.errs(12) {
            return numbers;
        }
        let wrong = self.draws.below(262_144);
        break_limit(numbers, self.draws.below(4), wrong)
    }

    fn pack_row(&mut self) -> io::Result<()> {
        let numbers = self.any_numbers();
        let filling = if self.errs(40) {
            self.draws.below(128)
        } else {
            0
        };
        match numbers {
            RowNumbers::Track {
                period,
                deadline,
                short,
                long,
            } => {
                self.bits.put(1, 3)?;
                for time in [period, deadline, short, long] {
                    self.bits.put(time, 18)?;
                }
                self.bits.put(filling, 5)?;
            }
            RowNumbers::Helper {
                period,
                deadline,
                short,
            } => {
                self.bits.put(0, 3)?;
                for time in [period, deadline, short] {
                    self.bits.put(time, 18)?;
                }
                self.bits.put(filling, 7)?;
            }
        }
        Ok(())
    }

    fn pack_label(&mut self) -> io::Result<()> {
        let length = if self.errs(20) {
            0
        } else {
            1 + self.draws.below(31)
        };
        self.bits.put(2, 3)?;
        self.bits.put(length, 5)?;
        let range = if self.errs(20) { 224 } else { 95 };
        for _ in 0..length {
            self.bits.put(32 + self.draws.below(range), 8)?;
        }
        Ok(())
    }

    // Up to two labels, and now and then a kind that there is not.
    fn pack_behind_row(&mut self) -> io::Result<()> {
        if self.draws.one_in(2) {
            self.pack_label()?;
        }
        if self.errs(40) {
            self.pack_label()?;
        }
        if self.errs(60) {
            self.bits.put(4 + self.draws.below(4), 3)?;
            self.bits.put(self.draws.below(32), 5)?;
        }
        Ok(())
    }

    // The end record, with a wrong count, or twice, or not at all.
    fn pack_end(&mut self, count: u32) -> io::Result<()> {
        let count = if self.draws.one_in(12) {
            self.draws.below(32)
        } else {
            count.saturating_sub(1)
        };
        let times = if self.draws.one_in(12) {
            self.draws.below(3)
        } else {
            1
        };
        for _ in 0..times {
            self.bits.put(3, 3)?;
            self.bits.put(count, 5)?;
        }
        Ok(())
    }
}

// A line-up packed bit by bit, with mistakes.
pub(crate) fn packed(heap: Global, draws: &mut Generator) -> io::Result<Vec<u8>> {
    let count = if draws.one_in(30) {
        0
    } else {
        make_count(draws)
    };
    let mut packer = Packer {
        draws,
        bits: Bits::new(heap),
        // so that a long line-up comes to its 33rd row
        care: if count > 5 { 20 } else { 1 },
    };
    if packer.draws.one_in(60) {
        packer.pack_label()?;
    }
    for _ in 0..count {
        packer.pack_row()?;
        packer.pack_behind_row()?;
    }
    packer.pack_end(count)?;
    Ok(packer.bits.bytes(heap)?)
}
