// What was seen, and how it is printed.
use super::decode::{Decoded, Item, Refused};
use std::{fmt, io};
use tallies::{Agreement, Refusals, count};

#[derive(Default, Drop)]
pub struct Tally {
    agreement: Agreement,
    rows: u32,
    labels: u32,
    whole: u32,
    refusals: Refusals,
}

impl Tally {
    pub(crate) fn note(&mut self, decoded: &Decoded<'_>, agreed: bool) {
        self.agreement.note(agreed);
        for item in decoded.items.iter() {
            match item {
                Item::Row(_) => count(&mut self.rows),
                Item::Label { .. } => count(&mut self.labels),
                Item::End => count(&mut self.whole),
            }
        }
        if let Some(refused) = decoded.refused {
            self.refusals.note(refused.number);
        }
    }
}

impl fmt::Display for Tally {
    fn fmt<W: fmt::Write>(&self, f: &mut fmt::Formatter<W>) -> fmt::Result {
        write!(f, "{}", self.agreement)?;
        writeln!(f, "rows {}, labels {}", self.rows, self.labels)?;
        writeln!(f, "read to the end {}", self.whole)?;
        write!(f, "{}", self.refusals)
    }
}

// The bytes in hexadecimal and how they decode, where the reader disagrees.
pub(crate) fn print_disagreement(
    rt: &HostRuntime,
    bytes: &[u8],
    decoded: &Decoded<'_>,
) -> io::Result<()> {
    print!(rt; "the reader disagrees on")?;
    for byte in bytes {
        print!(rt; " {byte:02x}")?;
    }
    let items = decoded.items.len();
    match decoded.refused {
        None => println!(rt; ": {items} records"),
        Some(Refused { number, offset }) => {
            println!(rt; ": {items} records, then refused by {number} at {offset}")
        }
    }
}
