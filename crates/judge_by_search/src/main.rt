// Judges generated lists of rows and compares the answers, and the plan that stands, with those of a plain search.
#![tactic(auto)]

mod compare;
mod demands;
mod lists;
mod search;
mod tally;
mod times;

use generator::Generator;
use judge::{Plan, judge};
use std::io;

const LISTS: u32 = 4000;

fn main(rt: HostRuntime) -> io::Result<()> {
    let heap = rt.alloc();
    let mut draws = Generator::new(2024);
    let mut tally = tally::Tally::default();
    let mut plan = Plan::new();
    // the rows that the plan was last made of, with what was found for each
    let mut standing = Vec::new(heap);
    for _ in 0..LISTS {
        let list = lists::make_list(heap, &mut draws)?;
        let verdict = search::judge_by_search(heap, list.as_slice())?;
        let answer = judge(&mut plan, list.as_slice());
        if let Ok(all) = &verdict {
            standing = list.iter().copied().zip(all.iter().copied()).collect(heap)?;
        }
        let agreed = compare::same_answer(answer, &verdict)
            && compare::same_plan(&plan, standing.as_slice());
        tally.note(&verdict, agreed);
        if !agreed {
            tally::print_disagreement(&rt, list.as_slice(), &verdict)?;
        }
    }
    print!(rt; "{tally}")
}
