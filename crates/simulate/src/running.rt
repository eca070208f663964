// Running a script: the calls over the board and the pool that it names, and a line for each.
use super::reading::Script;
use super::{table, timeline};
use board::{Board, ChainBoard, WordBoard};
use law::{Answer, Outcome, Reply};
use pool::{BitmapPool, FreeListPool};
use script::{BoardName, Opening, PoolName};
use session::replay;
use std::alloc::Global;
use std::fmt::Write;
use std::io;
use traces::Trace;

pub(crate) fn run(heap: Global, script: &Script<'_>) -> io::Result<String> {
    let mut out = String::new(heap);
    let mut log = vec![in heap; Ok(Reply::Done(Outcome::Idle)); script.lines.len()]?;
    if let Some(opening) = script.opening {
        make_calls(script, opening, log.as_mut_slice());
    }
    let trace = show_calls(heap, &mut out, script, log.as_slice())?;
    match script.ending {
        Some(ending) => writeln!(out, "{ending}")?,
        None => {
            writeln!(out, "")?;
            table::show(&mut out, &script.plan, &trace)?;
            writeln!(out, "")?;
            timeline::show(&mut out, &script.plan, &trace)?;
        }
    }
    Ok(out)
}

// Makes the calls over the board and the pool that the opening names. `replay` takes both as types, so a match picks each.
fn make_calls(script: &Script<'_>, opening: Opening, log: &mut [Answer]) {
    match opening.board {
        BoardName::Word => make_calls_over(WordBoard::new(), script, opening, log),
        BoardName::Chain => make_calls_over(ChainBoard::new(), script, opening, log),
    }
}

fn make_calls_over<B: Board + Drop>(
    board: B,
    script: &Script<'_>,
    opening: Opening,
    log: &mut [Answer],
) {
    let plan = &script.plan;
    let lines = script.lines.as_slice();
    let number = opening.number;
    match opening.pool {
        PoolName::Bitmap => {
            let pool = BitmapPool::new(opening.blocks);
            let _ = replay(plan, board, pool, number, lines, log);
        }
        PoolName::FreeList => {
            let pool = FreeListPool::new(opening.blocks);
            let _ = replay(plan, board, pool, number, lines, log);
        }
    }
}

// A line for each call, with the clock before it; and the trace of the session.
fn show_calls(
    heap: Global,
    out: &mut String,
    script: &Script<'_>,
    log: &[Answer],
) -> io::Result<Trace> {
    let mut trace = Trace::new(heap);
    for (line, answer) in script.lines.iter().zip(log.iter()) {
        let clock = trace.clock();
        let text = line.text;
        match answer {
            Ok(reply) => writeln!(out, "{clock} {text} -> {reply}")?,
            Err(fault) => writeln!(out, "{clock} {text} -> {fault}")?,
        }
        trace.note(line.step, *answer)?;
    }
    Ok(trace)
}
