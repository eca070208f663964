// What a session's calls cost, over both boards and both pools. With no argument it makes some thousands of calls and
// prints a checksum of their answers; with a number of ticks as argument it prints the time of a call too.
#![tactic(auto)]

use board::{Board, ChainBoard, WordBoard};
use judge::{Plan, judge};
use pool::{BitmapPool, FreeListPool, Pool};
use row::{Kind, RowNumbers};
use session::{Session, SessionFault};
use std::time::Instant;
use std::{array, env, io};

// Sixteen rows, so that a random row is the low four bits of a byte.
const ROWS: usize = 16;

// How many ticks a run has where none are asked for. A tick takes three calls: arrive, begin and report.
const TICKS: u32 = 2000;

// Two tracks and a helper in turn; the periods rise by 6 from 24.
fn rows() -> [RowNumbers; ROWS] {
    array::from_fn(|k| {
        let period = 24 + 6 * k as u32;
        if k % 3 == 2 {
            RowNumbers::Helper {
                period,
                deadline: period,
                short: 2,
            }
        } else {
            RowNumbers::Track {
                period,
                deadline: period,
                short: 2,
                long: 3,
            }
        }
    })
}

// The next of a sequence of numbers that look random: a linear congruential generator.
// Not the crate `generator`: the plain Rust that this is measured beside makes the same calls.
fn next_random(random: u32) -> u32 {
    random.wrapping_mul(1_664_525).wrapping_add(1_013_904_223)
}

// One arrival in sixteen is abnormal.
fn kind_by(random: u32) -> Kind {
    if random >> 20 & 15 == 0 {
        Kind::Abnormal
    } else {
        Kind::Normal
    }
}

fn mixed(sum: u64, answer: u32) -> u64 {
    sum.wrapping_mul(31).wrapping_add(u64::from(answer))
}

fn refusal_number(fault: SessionFault) -> u32 {
    100 + u32::from(fault.refusal.number())
}

// An arrival of a random row and a tick; the sum with both answers.
fn step<B: Board, P: Pool>(session: &mut Session<'_, B, P>, random: u32, sum: u64) -> u64 {
    let arrived = session
        .arrive(random >> 24 & 15, kind_by(random))
        .unwrap_or_else(refusal_number);
    let done = session
        .run_due()
        .map_or_else(refusal_number, |outcome| outcome as u32);
    mixed(mixed(sum, arrived), done)
}

// Runs a session over a board and a pool, and gives the checksum of the answers.
fn run<B: Board + Drop, P: Pool + Drop>(plan: &Plan, board: B, pool: P, ticks: u32) -> u64 {
    let mut session = Session::open(plan, board, pool, 1);
    let mut random = 1;
    let mut sum = 0;
    for _ in 0..ticks {
        random = next_random(random);
        sum = step(&mut session, random, sum);
    }
    let _ = session.close();
    sum
}

// Tenths of a nanosecond for each of three calls in a tick.
fn tenths(nanos: u128, ticks: u32) -> u128 {
    nanos.saturating_mul(10) / (3 * u128::from(ticks.max(1)))
}

// What is measured over each pair of a board and a pool; the ticks are those asked for.
#[derive(Clone, Copy)]
struct Measure<'a> {
    rt: &'a HostRuntime,
    plan: &'a Plan,
    ticks: Option<u32>,
}

impl Measure<'_> {
    fn over<B: Board + Drop, P: Pool + Drop>(
        &self,
        name: &str,
        board: B,
        pool: P,
    ) -> io::Result<()> {
        let start = Instant::now(self.rt)?;
        let sum = run(self.plan, board, pool, self.ticks.unwrap_or(TICKS));
        let nanos = start.elapsed(self.rt)?.as_nanos();
        print!(self.rt; "{name}: checksum {sum}")?;
        if let Some(ticks) = self.ticks {
            let tenths = tenths(nanos, ticks);
            print!(self.rt; ", {}.{} ns a call", tenths / 10, tenths % 10)?;
        }
        println!(self.rt; "")
    }
}

// The number of ticks to time, if one is asked for.
fn asked(rt: &HostRuntime) -> io::Result<Option<u32>> {
    Ok(
        env::args(rt)?
            .skip(1)
            .find_map(|word| word.parse::<u32>().ok()),
    )
}

fn main(rt: HostRuntime) -> io::Result<()> {
    let ticks = asked(&rt)?;
    let mut plan = Plan::new();
    if judge(&mut plan, &rows()).is_err() {
        return println!(rt; "the line-up is refused");
    }
    // Each pair has its own types, and a closure takes one type alone: so each pair has its call.
    let measure = Measure {
        rt: &rt,
        plan: &plan,
        ticks,
    };
    measure.over("word and bit map", WordBoard::new(), BitmapPool::new(16))?;
    measure.over(
        "word and free list",
        WordBoard::new(),
        FreeListPool::new(16),
    )?;
    measure.over("chain and bit map", ChainBoard::new(), BitmapPool::new(16))?;
    measure.over(
        "chain and free list",
        ChainBoard::new(),
        FreeListPool::new(16),
    )
}
