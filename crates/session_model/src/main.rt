// Runs sessions on generated lists of calls, over both boards and both pools, and compares each answer with a plain model.
#![tactic(auto)]

mod compare;
mod forged;
mod history;
mod model;
mod prints;
mod runs;
mod standing;
mod steps;
mod tally;

use generator::Generator;
use history::{Terms, row_count};
use judge::{Plan, judge};
use model::Setting;
use row::RowNumbers;
use runs::{Trial, make_blocks, make_number, terms_of};
use std::io;
use tally::{Latest, Tally, print_latest};

// How many lists of calls each line-up gets.
const LISTS: u32 = 120;

const fn track(period: u32, short: u32, long: u32) -> RowNumbers {
    RowNumbers::Track {
        period,
        deadline: period,
        short,
        long,
    }
}

const fn helper(period: u32, short: u32) -> RowNumbers {
    RowNumbers::Helper {
        period,
        deadline: period,
        short,
    }
}

// The sessions on one plan, of whose rows the model knows these terms.
fn run_lists(trial: &mut Trial<'_>, name: &str, plan: &Plan, terms: &[Terms]) -> io::Result<()> {
    trial.latest = vec![in trial.rt.alloc(); Latest::default(); terms.len()]?;
    for _ in 0..LISTS {
        let setting = Setting {
            name,
            plan,
            terms,
            number: make_number(&mut trial.draws),
            blocks: make_blocks(&mut trial.draws, row_count(terms)),
        };
        trial.run_pairs(setting)?;
    }
    print_latest(trial.rt, name, terms, trial.latest.as_slice())
}

fn run_lineup(trial: &mut Trial<'_>, name: &str, rows: &[RowNumbers]) -> io::Result<()> {
    let mut plan = Plan::new();
    if judge(&mut plan, rows).is_err() {
        return println!(trial.rt; "{name} is refused");
    }
    let terms = terms_of(trial.rt.alloc(), &plan)?;
    run_lists(trial, name, &plan, terms.as_slice())
}

fn main(rt: HostRuntime) -> io::Result<()> {
    let mut trial = Trial {
        rt: &rt,
        draws: Generator::new(7),
        tally: Tally::default(),
        latest: Vec::new(rt.alloc()),
    };
    let worked = [track(10, 2, 4), helper(8, 2), track(20, 3, 5)];
    let pair = [helper(4, 2), track(20, 3, 8)];
    let always = [track(1, 1, 1)];
    let longer = [
        track(12, 1, 2),
        helper(15, 2),
        track(20, 2, 4),
        helper(30, 3),
        track(40, 3, 6),
        helper(60, 4),
    ];
    run_lineup(&mut trial, "worked example", &worked)?;
    run_lineup(&mut trial, "pair", &pair)?;
    run_lineup(&mut trial, "one row, always busy", &always)?;
    run_lineup(&mut trial, "six rows", &longer)?;
    print!(trial.rt; "{}", trial.tally)
}
