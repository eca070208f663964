// Where a session stands, by its events so far, and what arrivals and turns it then admits.
use super::history::{Admission, is_abnormal};
use super::model::Setting;
use law::{TurnNumbers, Work};
use row::Kind;

const LAST_CLOCK: u32 = 4_000_000_000;

// How many events have come, and what they tell of.
#[derive(Drop)]
pub struct Standing<'a> {
    pub setting: Setting<'a>,
    pub events: usize,
    pub clock: u32,
    pub open: Option<TurnNumbers>,
    pub jobs: Vec<Admission>,
}

// A refusal by its number in docs/REFUSALS.md, written out here, so that nothing is shared with the core's own table.
#[derive(Clone, Copy)]
pub struct Refused {
    pub number: u8,
    pub place: u32,
}

impl Standing<'_> {
    fn is_unended(&self, job: &Admission) -> bool {
        job.unended_at(self.events)
    }

    // The unended job of a row.
    pub(crate) fn unended(&self, row: u32) -> Option<Admission> {
        let mut jobs = self.jobs.iter().copied();
        jobs.find(|job| job.row == row && self.is_unended(job))
    }

    pub(crate) fn is_free(&self, block: u32) -> bool {
        let mut jobs = self.jobs.iter();
        let held = jobs.any(|job| job.block == block && self.is_unended(job));
        !held && block < self.setting.blocks
    }

    fn has_free(&self) -> bool {
        (0..self.setting.blocks).any(|block| self.is_free(block))
    }

    // Whether an abnormal job has arrived since some job has been unended all the time.
    fn mode_is_abnormal(&self) -> bool {
        let jobs = self.jobs.as_slice();
        let points = (0..=self.events).rev();
        points
            .take_while(|point| jobs.iter().any(|job| job.unended_at(*point)))
            .any(|point| {
                let mut jobs = jobs.iter();
                jobs.any(|job| job.from == point && is_abnormal(job.kind))
            })
    }

    // Whether the row's last job arrived less than a period ago.
    fn too_early(&self, row: u32, period: u32) -> bool {
        let last = self.jobs.iter().rev().find(|job| job.row == row);
        last.is_some_and(|job| self.clock < job.arrival.saturating_add(period))
    }

    // Refuses where neither an arrival nor a turn may come.
    fn ready(&self) -> Result<(), Refused> {
        let place = self.clock;
        if self.open.is_some() {
            Err(Refused { number: 13, place })
        } else if place >= LAST_CLOCK {
            Err(Refused { number: 14, place })
        } else {
            Ok(())
        }
    }

    // Whether the arrival is admitted. Which block it gets is left open, if it is free.
    pub(crate) fn arrive(&self, row: u32, kind: Kind) -> Result<(), Refused> {
        self.ready()?;
        let place = row;
        let Some(terms) = self.setting.terms.get(row as usize) else {
            return Err(Refused { number: 15, place });
        };
        let helper = terms.abnormal.is_none();
        let checks = [
            (16, helper && is_abnormal(kind)),
            (17, self.too_early(row, terms.period)),
            (18, helper && self.mode_is_abnormal()),
            (19, self.unended(row).is_some()),
            (20, !self.has_free()),
        ];
        match checks.iter().find(|(_, applies)| *applies) {
            Some((number, _)) => Err(Refused {
                number: *number,
                place,
            }),
            None => Ok(()),
        }
    }

    // The smallest row with an unended job, and its block.
    fn due(&self) -> Option<Work> {
        let unended = self.jobs.iter().filter(|job| self.is_unended(job));
        unended.min_by_key(|job| job.row).map(|job| Work {
            row: job.row,
            block: job.block,
        })
    }

    pub(crate) fn begin(&self) -> Result<TurnNumbers, Refused> {
        self.ready()?;
        Ok(TurnNumbers {
            number: self.setting.number,
            clock: self.clock,
            work: self.due(),
        })
    }
}
