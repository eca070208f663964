// How much is asked for by a tick, from arrivals that are counted tick by tick.
use super::times::Times;
use row::RowNumbers;
use std::alloc::{AllocError, Global};

// No time is looked at past this tick. It is more than twice the longest deadline of the generated rows that are busy.
const HORIZON: usize = 260;

// A row above, with the number of its arrivals before each tick, the first at 0 and one each period.
#[derive(Drop)]
pub struct Above {
    short: u64,
    // what an abnormal job asks beside; only a track has one
    extra: Option<u64>,
    arrived: Vec<u64>,
}

// What is asked for by tick t.
#[derive(Clone, Copy)]
pub enum Demand {
    Normal { budget: u64 },
    Late { budget: u64, instant: usize },
    Start,
}

impl Above {
    pub(crate) fn new(heap: Global, numbers: &RowNumbers) -> Result<Above, AllocError> {
        let times = Times::from(*numbers);
        // Counted tick by tick, so that nothing is divided as the judge divides.
        let mut arrived = Vec::new(heap);
        let mut count: u64 = 0;
        let mut wait = 0u32;
        for _ in 0..=HORIZON {
            arrived.push(count)?;
            if wait == 0 {
                count = count.saturating_add(1);
                wait = times.period;
            }
            wait = wait.saturating_sub(1);
        }
        Ok(Above {
            short: times.short as u64,
            extra: times
                .long
                .map(|long| long.saturating_sub(times.short) as u64),
            arrived,
        })
    }

    // How many jobs arrive before tick t.
    fn before(&self, t: usize) -> u64 {
        self.arrived.get(t).copied().unwrap_or(u64::MAX)
    }

    // How many jobs arrive up to and including tick t.
    fn until(&self, t: usize) -> u64 {
        self.before(t.saturating_add(1))
    }

    fn share(&self, demand: Demand, t: usize) -> u64 {
        match demand {
            Demand::Normal { .. } => self.before(t).saturating_mul(self.short),
            Demand::Start => self.until(t).saturating_mul(self.short),
            Demand::Late { instant, .. } => match self.extra {
                Some(extra) => {
                    let late = self.before(t.saturating_sub(instant));
                    let short = self.before(t).saturating_mul(self.short);
                    short.saturating_add(late.saturating_mul(extra))
                }
                None => self.until(instant).saturating_mul(self.short),
            },
        }
    }
}

impl Demand {
    fn at(self, above: &[Above], t: usize) -> u64 {
        let own = match self {
            Demand::Normal { budget } => budget,
            Demand::Late { budget, .. } => budget,
            Demand::Start => 0,
        };
        above
            .iter()
            .fold(own, |sum, row| sum.saturating_add(row.share(self, t)))
    }

    // The least t from `from` on by which no more is asked for than t ticks.
    pub(crate) fn least(self, above: &[Above], from: usize) -> Option<u64> {
        (from..HORIZON)
            .find(|t| self.at(above, *t) <= *t as u64)
            .map(|t| t as u64)
    }
}
