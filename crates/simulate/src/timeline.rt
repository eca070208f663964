// The timeline: a line for each row, a column for each tick.
use judge::Plan;
use row::{Kind, Row};
use std::fmt::Write;
use std::io;
use traces::{Tick, Trace};

// How many ticks a band has: with 9 columns for the row, a line has at most 99.
const BAND: usize = 90;

const LEGEND: &str =
    "[ arrives and runs   ( arrives and waits   # runs   . waits   ] finishes   x is cut
I arrives, runs and finishes   X arrives, runs and is cut   mode: n normal, A abnormal, - idle
The last column is the clock at the end, where nothing runs.
";

pub(crate) fn show(out: &mut String, plan: &Plan, trace: &Trace) -> io::Result<()> {
    out.push_str(LEGEND)?;
    let mut columns = Vec::from_slice(*out.allocator(), trace.ticks())?;
    columns.push(trace.last_column())?;
    for (before, band) in columns.chunks(BAND).enumerate() {
        writeln!(out, "")?;
        show_ruler(out, before.saturating_mul(BAND), band.len())?;
        // by place, since a plan gives its rows by place alone
        let rows = (0..plan.len()).filter_map(|row| plan.row(row));
        for (row, asked) in rows.enumerate() {
            show_row(out, row, letter(asked), band)?;
        }
        show_mode(out, band)?;
    }
    Ok(())
}

// The clock at each tenth column, and a ruler below it.
fn show_ruler(out: &mut String, start: usize, len: usize) -> io::Result<()> {
    let mut line = String::new(*out.allocator());
    for column in (0..len).filter(|column| column % 10 == 0) {
        let clock = start.saturating_add(column);
        write!(line, "{clock:<10}")?;
    }
    let clocks = line.as_str().trim_end();
    writeln!(out, "clock    {clocks}")?;
    let ruler: String = (0..len).map(ruler_mark).collect(*out.allocator())?;
    writeln!(out, "         {ruler}")?;
    Ok(())
}

fn ruler_mark(column: usize) -> char {
    match column % 10 {
        0 => '|',
        5 => '+',
        _ => '-',
    }
}

// A single character, where a listing has text with a blank before it.
fn letter(asked: Row) -> char {
    if asked.is_track() { 'T' } else { 'H' }
}

fn show_row(out: &mut String, row: usize, letter: char, band: &[Tick]) -> io::Result<()> {
    let marks: String = band
        .iter()
        .filter_map(|tick| tick.marks.get(row).copied())
        .map(char::from)
        .collect(*out.allocator())?;
    let line = format!(in *out.allocator(); "row {row:<2} {letter} {marks}")?;
    writeln!(out, "{}", line.as_str().trim_end())?;
    Ok(())
}

fn show_mode(out: &mut String, band: &[Tick]) -> io::Result<()> {
    let modes: String = band.iter().map(mode_mark).collect(*out.allocator())?;
    writeln!(out, "mode     {modes}")?;
    Ok(())
}

fn mode_mark(tick: &Tick) -> char {
    match tick.mode {
        _ if tick.idle => '-',
        Kind::Normal => 'n',
        Kind::Abnormal => 'A',
    }
}
