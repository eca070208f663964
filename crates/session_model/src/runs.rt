// Sessions over a board and a pool, each followed by the model.
use super::forged::forge;
use super::history::{JobTerms, Terms, row_count};
use super::model::{Model, Setting};
use super::prints::print_calls;
use super::steps::make_steps;
use super::tally::{Latest, Tally};
use board::{Board, ChainBoard, WordBoard};
use generator::Generator;
use judge::Plan;
use law::{Answer, Outcome, Reply, Step};
use pool::{BitmapPool, FreeListPool, Pool};
use session::replay;
use std::alloc::{AllocError, Global};
use std::io;
use tallies::count;

// What all sessions share, and the latest responses in those of one line-up.
#[derive(Drop)]
pub struct Trial<'a> {
    pub rt: &'a HostRuntime,
    pub draws: Generator,
    pub tally: Tally,
    pub latest: Vec<Latest>,
}

fn terms_at(plan: &Plan, place: usize) -> Option<Terms> {
    let row = plan.row(place)?;
    let bounds = plan.bounds(place)?;
    Some(Terms {
        period: row.period(),
        normal: JobTerms {
            budget: row.short(),
            bound: bounds.late.map_or(bounds.normal, |late| late.mixed),
        },
        abnormal: bounds.late.map(|late| JobTerms {
            budget: row.long(),
            bound: late.long,
        }),
    })
}

// The rows of a plan with their bounds, taken once for all sessions on it.
pub(crate) fn terms_of(heap: Global, plan: &Plan) -> Result<Vec<Terms>, AllocError> {
    (0..plan.len())
        .filter_map(|place| terms_at(plan, place))
        .collect(heap)
}

// A session number, the least and the greatest among them.
pub(crate) fn make_number(draws: &mut Generator) -> u32 {
    match draws.below(3) {
        0 => 0,
        1 => u32::MAX,
        _ => 1 + draws.below(9),
    }
}

// Fewer blocks than rows, as many, or more.
pub(crate) fn make_blocks(draws: &mut Generator, rows: u32) -> u32 {
    match draws.below(4) {
        0 => 1,
        1 => rows.saturating_sub(1).max(1),
        2 => rows,
        _ => 64,
    }
}

impl Trial<'_> {
    // Says what the model disagrees on, and how the session was opened.
    fn print_setting(&self, setting: Setting<'_>, what: &str) -> io::Result<()> {
        println!(self.rt;
            "the model disagrees on {what}: {}, session number {}, {} blocks",
            setting.name, setting.number, setting.blocks
        )
    }

    // Follows the answers up to the first that differs.
    fn follow_all(
        &mut self,
        model: &mut Model<'_>,
        steps: &[Step],
        log: &[Answer],
    ) -> io::Result<bool> {
        let enough = model.setting.blocks >= row_count(model.setting.terms);
        for (place, (step, answer)) in steps.iter().zip(log.iter()).enumerate() {
            let call = model.called(*step);
            self.tally.note(*answer, enough);
            let agreed = model.follow(call, *answer)?;
            self.tally.calls.note(agreed);
            if !agreed {
                self.print_setting(model.setting, "the last of these answers")?;
                print_calls(self.rt, steps, log.get(..=place).unwrap_or(log))?;
                return Ok(false);
            }
        }
        Ok(true)
    }

    // Replays the steps, follows the answers with the model, and gives the answers.
    fn run<B: Board + Drop, P: Pool + Drop>(
        &mut self,
        setting: Setting<'_>,
        board: B,
        pool: P,
        steps: &[Step],
    ) -> io::Result<Vec<Answer>> {
        let heap = self.rt.alloc();
        let mut log = vec![in heap; Ok(Reply::Done(Outcome::Idle)); steps.len()]?;
        let answers = log.as_mut_slice();
        let (board, pool) = replay(setting.plan, board, pool, setting.number, steps, answers);
        let mut model = Model {
            heap,
            setting,
            events: Vec::new(heap),
        };
        count(&mut self.tally.sessions);
        if self.follow_all(&mut model, steps, log.as_slice())? {
            let standing = model.standing()?;
            let agreed = standing.is_left(board, pool);
            self.tally.ends.note(agreed);
            if !agreed {
                self.print_setting(setting, "the board or the pool after these calls")?;
                print_calls(self.rt, steps, log.as_slice())?;
            }
            let latest = self.latest.as_mut_slice();
            self.tally.note_jobs(&standing, latest);
        }
        Ok(log)
    }

    // A session on the list, and one on the list with forged turns.
    fn run_twice<B: Board + Drop, P: Pool + Drop, F: Fn() -> B, G: Fn() -> P>(
        &mut self,
        setting: Setting<'_>,
        steps: &[Step],
        board: F,
        pool: G,
    ) -> io::Result<()>
        requires board { F.IsAlwaysCallable board }
        requires pool { G.IsAlwaysCallable pool }
    {
        let log = self.run(setting, board(), pool(), steps)?;
        let forged = forge(self.rt.alloc(), &mut self.draws, steps, log.as_slice())?;
        self.run(setting, board(), pool(), forged.as_slice())?;
        Ok(())
    }

    // One list over the four pairs of a board and a pool.
    pub(crate) fn run_pairs(&mut self, setting: Setting<'_>) -> io::Result<()> {
        let steps = make_steps(self.rt.alloc(), &mut self.draws, setting.terms)?;
        let steps = steps.as_slice();
        let bitmap = || BitmapPool::new(setting.blocks);
        let free_list = || FreeListPool::new(setting.blocks);
        self.run_twice(setting, steps, WordBoard::new, bitmap)?;
        self.run_twice(setting, steps, WordBoard::new, free_list)?;
        self.run_twice(setting, steps, ChainBoard::new, bitmap)?;
        self.run_twice(setting, steps, ChainBoard::new, free_list)
    }
}
