// Replays one list of calls over both boards and both pools, and prints the answers side by side.
#![tactic(auto)]

use board::{Board, ChainBoard, WordBoard};
use judge::{Plan, judge};
use law::{Answer, Call, Outcome, Reply, TurnNumbers, Work};
use pool::{BitmapPool, FreeListPool, Pool};
use row::{Kind, RowNumbers};
use session::{Session, SessionFault, replay};
use std::io;

// The log of a replay lies in fixed memory, so that the program allocates nothing.
const MOST: usize = 64;

const NUMBER: u32 = 7;

// The worked example: two tracks and a helper.
const ROWS: [RowNumbers; 3] = [
    RowNumbers::Track {
        period: 10,
        deadline: 10,
        short: 2,
        long: 4,
    },
    RowNumbers::Helper {
        period: 8,
        deadline: 8,
        short: 2,
    },
    RowNumbers::Track {
        period: 20,
        deadline: 20,
        short: 3,
        long: 5,
    },
];

fn arrive(row: u32, kind: Kind) -> Call {
    Call::Arrive { row, kind }
}

// A report of the turn for this work at this clock.
fn report(clock: u32, work: Option<Work>, finished: bool) -> Call {
    let turn = TurnNumbers {
        number: NUMBER,
        clock,
        work,
    };
    Call::Report { turn, finished }
}

fn work(row: u32, block: u32) -> Option<Work> {
    Some(Work { row, block })
}

// Of another crate's type, in this program's words: so no Display.
fn print_answer(rt: &HostRuntime, answer: Answer) -> io::Result<()> {
    match answer {
        Ok(reply) => print!(rt; " {reply},"),
        Err(fault) => {
            let number = fault.refusal.number();
            let place = fault.place;
            print!(rt; " refused {number} at {place},")
        }
    }
}

// What is replayed over each pair of a board and a pool.
#[derive(Clone, Copy)]
struct Replay<'a> {
    rt: &'a HostRuntime,
    plan: &'a Plan,
    calls: &'a [Call],
}

impl Replay<'_> {
    // Replays the calls over a board and a pool, and prints the answers on one line.
    fn run<B: Board + Drop, P: Pool + Drop>(
        &self,
        name: &str,
        board: B,
        pool: P,
    ) -> io::Result<()> {
        let mut log = [Ok(Reply::Done(Outcome::Idle)); MOST];
        let _ = replay(self.plan, board, pool, NUMBER, self.calls, &mut log);
        print!(self.rt; "{name}:")?;
        for answer in log.iter().take(self.calls.len()) {
            print_answer(self.rt, *answer)?;
        }
        println!(self.rt; "")
    }
}

// Gives the processor for one tick to the row that is due, by the turn and not by `run_due`: on this function the gate tries what
// must not be done with a turn. A turn that was just begun is never refused.
fn tick<B: Board, P: Pool>(session: &mut Session<'_, B, P>) -> Result<Outcome, SessionFault> {
    let turn = session.begin()?;
    match session.report(turn, false) {
        Ok(outcome) => Ok(outcome),
        Err(_refused) => unreachable(),
    }
}

// The worked example, tick by tick with the turn token: no job is reported finished, and row 2 is cut by the report that makes the clock 15.
fn run_worked<B: Board + Drop, P: Pool + Drop>(plan: &Plan, board: B, pool: P) -> [Outcome; 15] {
    let mut session = Session::open(plan, board, pool, NUMBER);
    let _ = session.arrive(1, Kind::Normal);
    let _ = session.arrive(2, Kind::Abnormal);
    let _ = session.arrive(0, Kind::Abnormal);
    let mut outcomes = [Outcome::Idle; 15];
    for (clock, outcome) in outcomes.iter_mut().enumerate() {
        if clock == 10 {
            let _ = session.arrive(0, Kind::Abnormal);
        }
        *outcome = tick(&mut session).unwrap_or(Outcome::Idle);
    }
    let _ = session.close();
    outcomes
}

fn show_worked(rt: &HostRuntime, name: &str, outcomes: [Outcome; 15]) -> io::Result<()> {
    print!(rt; "{name}, worked example:")?;
    for outcome in outcomes.iter() {
        print!(rt; " {outcome},")?;
    }
    println!(rt; "")
}

fn main(rt: HostRuntime) -> io::Result<()> {
    let mut plan = Plan::new();
    if judge(&mut plan, &ROWS).is_err() {
        return println!(rt; "the line-up is refused");
    }
    let calls = [
        arrive(2, Kind::Normal),
        Call::Begin,
        arrive(1, Kind::Normal),
        report(0, work(1, 0), false),
        report(0, work(2, 0), false),
        arrive(1, Kind::Abnormal),
        arrive(0, Kind::Abnormal),
        arrive(1, Kind::Normal),
        arrive(3, Kind::Normal),
        arrive(2, Kind::Normal),
        Call::Begin,
        report(1, work(2, 0), true),
        arrive(0, Kind::Abnormal),
        Call::Begin,
        report(2, work(0, 0), false),
        arrive(1, Kind::Normal),
        Call::Begin,
        report(3, work(0, 0), true),
        Call::Begin,
        report(4, None, true),
        report(4, None, false),
    ];
    // Each pair has its own types, and a closure takes one type alone: so each pair has its call.
    let replay = Replay {
        rt: &rt,
        plan: &plan,
        calls: &calls,
    };
    replay.run("word and bit map", WordBoard::new(), BitmapPool::new(1))?;
    replay.run("word and free list", WordBoard::new(), FreeListPool::new(1))?;
    replay.run("chain and bit map", ChainBoard::new(), BitmapPool::new(1))?;
    replay.run(
        "chain and free list",
        ChainBoard::new(),
        FreeListPool::new(1),
    )?;
    let outcomes = run_worked(&plan, WordBoard::new(), BitmapPool::new(3));
    show_worked(&rt, "word and bit map", outcomes)?;
    let outcomes = run_worked(&plan, ChainBoard::new(), FreeListPool::new(3));
    show_worked(&rt, "chain and free list", outcomes)
}
