// What the programs of generated tests count, and how they print it.
#![tactic(auto)]

ghost use Rattle.std.specs.Prelude.{◌≡◌, ◌+◌, min, Some, slice_set, slice_index, replicate};
ghost use Rattle.tallies.specs.Texts.{lines_below, agreement, noted};

use std::fmt;

// One more, up to the greatest number that there is.
pub fn count(number: &mut u32)
    ensures { number.new ≡ min (number.old + 1) u32.MAX }
{
    *number = number.saturating_add(1);
}

// How often what was compared agreed, and how often it did not.
#[derive(Clone, Copy, Default)]
pub struct Agreement {
    pub agreed: u32,
    pub disagreed: u32,
}

impl Agreement {
    pub fn note(&mut self, agreed: bool)
        ensures { self.new ≡ noted agreed self.old }
    {
        if agreed {
            count(&mut self.agreed);
        } else {
            count(&mut self.disagreed);
        }
    }
}

// A line for each of the two counts.
impl fmt::Display for Agreement {
    ghost output = { λ both. Some (agreement both) };

    fn fmt<W: fmt::Write>(&self, f: &mut fmt::Formatter<W>) -> fmt::Result {
        writeln!(f, "agreed {}", self.agreed)?;
        writeln!(f, "disagreed {}", self.disagreed)
    }
}

// How often each refusal came, by its number.
#[derive(Clone, Copy)]
pub struct Refusals {
    times: [u32; 256],
}

impl Default for Refusals {
    ghost is_default = { λ refusals. refusals.times ≡ replicate 256 0 };

    fn default() -> Refusals {
        Refusals { times: [0; 256] }
    }
}

impl Refusals {
    pub fn note(&mut self, number: u8)
        ensures { self.new.times ≡ slice_set self.old.times number (min (slice_index self.old.times number + 1) u32.MAX) }
    {
        count(&mut self.times[number as usize]);
    }
}

// A line for each refusal that came.
impl fmt::Display for Refusals {
    ghost output = { λ refusals. Some (lines_below refusals.times 256) };

    fn fmt<W: fmt::Write>(&self, f: &mut fmt::Formatter<W>) -> fmt::Result {
        for (number, times) in self.times.iter().enumerate() {
            if *times > 0 {
                writeln!(f, "refused by {number}: {times}")?;
            }
        }
        Ok(())
    }
}
