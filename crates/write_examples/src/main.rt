// Writes the line-ups of examples/ with the writer and prints them: a name, a colon and bytes in hexadecimal.
#![tactic(auto)]

use lineup::Writer;
use row::{Fault, Row, RowNumbers};
use std::{array, io};

// The text of a label, or none.
type Label = Option<&'static str>;

// A row of an example, with its label or none.
#[derive(Clone, Copy)]
struct Entry {
    numbers: RowNumbers,
    label: Label,
}

fn track(period: u32, deadline: u32, short: u32, long: u32, label: Label) -> Entry {
    let numbers = RowNumbers::Track {
        period,
        deadline,
        short,
        long,
    };
    Entry { numbers, label }
}

fn helper(period: u32, deadline: u32, short: u32, label: Label) -> Entry {
    let numbers = RowNumbers::Helper {
        period,
        deadline,
        short,
    };
    Entry { numbers, label }
}

fn put_entry(writer: &mut Writer<'_>, entry: &Entry) -> Result<(), Fault> {
    let row = Row::try_from(entry.numbers)?;
    writer.put(&row)?;
    if let Some(label) = entry.label {
        writer.label(label.as_bytes())?;
    }
    Ok(())
}

fn write_lineup(buffer: &mut [u8], entries: &[Entry]) -> Result<usize, Fault> {
    let mut writer = Writer::new(buffer);
    for entry in entries {
        put_entry(&mut writer, entry)?;
    }
    Ok(writer.finish()?)
}

fn show(rt: &HostRuntime, name: &str, entries: &[Entry]) -> io::Result<()> {
    let mut buffer = [0; 2048];
    match write_lineup(&mut buffer, entries) {
        Ok(len) => {
            print!(rt; "{name}:")?;
            for byte in buffer.iter().take(len) {
                print!(rt; " {byte:02x}")?;
            }
            println!(rt; "")
        }
        Err(fault) => {
            let number = fault.refusal.number();
            println!(rt; "{name}: refused {number}")
        }
    }
}

// All 32 rows: two tracks, then a helper, and so on.
fn full() -> [Entry; 32] {
    array::from_fn(|k| {
        let i = k as u32;
        let period = 400 + 40 * i;
        if i % 3 == 2 {
            helper(period, period, 5 + i % 4, None)
        } else {
            track(period, period, 4 + i % 3, 9 + i % 5, None)
        }
    })
}

fn main(rt: HostRuntime) -> io::Result<()> {
    let worked = [
        track(10, 10, 2, 4, None),
        helper(8, 8, 2, None),
        track(20, 20, 3, 5, None),
    ];
    let interview = [
        track(160, 160, 12, 30, Some("host microphone")),
        track(160, 160, 14, 36, Some("guest, studio line")),
        track(320, 320, 20, 60, Some("guest, phone line")),
        helper(320, 320, 16, Some("level meters")),
        helper(800, 800, 40, Some("waveform")),
        track(1600, 1600, 120, 260, Some("write to disk")),
        helper(1600, 1600, 60, Some("clock display")),
    ];
    let refused = [
        track(160, 160, 12, 30, Some("host microphone")),
        track(160, 80, 14, 60, Some("guest, studio line")),
        helper(320, 320, 16, Some("level meters")),
    ];
    show(&rt, "full.lineup", &full())?;
    show(&rt, "interview.lineup", &interview)?;
    show(&rt, "refused.lineup", &refused)?;
    show(&rt, "worked.lineup", &worked)
}
