// What was seen, and how it is printed.
use super::search::{Found, Refused, Verdict};
use row::RowNumbers;
use std::{fmt, io};
use tallies::{Agreement, Refusals, count};

#[derive(Default, Drop)]
pub struct Tally {
    agreement: Agreement,
    accepted: u32,
    rows: u32,
    // the most rows of an accepted list
    most_rows: usize,
    // rows whose mixed bound is above the normal one, and whose mixed or long bound comes from an instant above 0
    mixed_above: u32,
    mixed_later: u32,
    long_later: u32,
    refusals: Refusals,
}

impl Tally {
    fn note_row(&mut self, found: &Found) {
        count(&mut self.rows);
        let Some(late) = found.late else {
            return;
        };
        if late.mixed.value > found.normal {
            count(&mut self.mixed_above);
        }
        if late.mixed.instant > 0 {
            count(&mut self.mixed_later);
        }
        if late.long.instant > 0 {
            count(&mut self.long_later);
        }
    }

    pub(crate) fn note(&mut self, verdict: &Verdict, agreed: bool) {
        self.agreement.note(agreed);
        match verdict {
            Ok(all) => {
                count(&mut self.accepted);
                for found in all.iter() {
                    self.note_row(found);
                }
                self.most_rows = self.most_rows.max(all.len());
            }
            Err(refused) => self.refusals.note(refused.number),
        }
    }
}

impl fmt::Display for Tally {
    fn fmt<W: fmt::Write>(&self, f: &mut fmt::Formatter<W>) -> fmt::Result {
        write!(f, "{}", self.agreement)?;
        writeln!(
            f,
            "accepted {} with {} rows, at most {}",
            self.accepted, self.rows, self.most_rows
        )?;
        writeln!(f, "mixed bound above the normal bound {}", self.mixed_above)?;
        writeln!(
            f,
            "mixed bound from an instant above 0 {}",
            self.mixed_later
        )?;
        writeln!(f, "long bound from an instant above 0 {}", self.long_later)?;
        write!(f, "{}", self.refusals)
    }
}

// Of another crate's type, in this program's words: so no Display.
fn print_row(rt: &HostRuntime, numbers: &RowNumbers) -> io::Result<()> {
    match *numbers {
        RowNumbers::Track {
            period,
            deadline,
            short,
            long,
        } => println!(rt; "  track {period} {deadline} {short} {long}"),
        RowNumbers::Helper {
            period,
            deadline,
            short,
        } => println!(rt; "  helper {period} {deadline} {short}"),
    }
}

impl fmt::Display for Found {
    fn fmt<W: fmt::Write>(&self, f: &mut fmt::Formatter<W>) -> fmt::Result {
        match self.late {
            None => write!(f, "bound {}", self.normal),
            Some(late) => write!(
                f,
                "bounds {} {} {}",
                self.normal, late.mixed.value, late.long.value
            ),
        }
    }
}

// The list and the answer of the search, where the judge disagrees.
pub(crate) fn print_disagreement(
    rt: &HostRuntime,
    rows: &[RowNumbers],
    verdict: &Verdict,
) -> io::Result<()> {
    println!(rt; "the judge disagrees on")?;
    for numbers in rows {
        print_row(rt, numbers)?;
    }
    match verdict {
        Err(Refused { number, place }) => {
            println!(rt; "  the search refuses by {number} at {place}")
        }
        Ok(all) => {
            for found in all.iter() {
                println!(rt; "  {found}")?;
            }
            Ok(())
        }
    }
}
