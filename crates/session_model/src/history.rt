// The history of a session's accepted calls, and the jobs that it tells of.
use law::TurnNumbers;
use row::Kind;
use std::alloc::{AllocError, Global};
use tallies::count;

#[derive(Clone, Copy)]
pub enum Event {
    Admitted { row: u32, kind: Kind, block: u32 },
    Begun(TurnNumbers),
    // a report of the turn for this row, or of an idle turn
    Reported { row: Option<u32>, finished: bool },
}

// How many ticks a job may have, and how long after its arrival it may end.
#[derive(Clone, Copy)]
pub struct JobTerms {
    pub budget: u32,
    pub bound: u32,
}

// What is known of a row of the plan: the model's own table, filled once, so that no call of the model asks the core.
#[derive(Clone, Copy)]
pub struct Terms {
    pub period: u32,
    pub normal: JobTerms,
    // only a track has abnormal jobs
    pub abnormal: Option<JobTerms>,
}

impl Terms {
    // The terms of the row's jobs of this kind. Those of a helper are normal.
    pub(crate) fn of_kind(&self, kind: Kind) -> JobTerms {
        match self.abnormal {
            Some(abnormal) if is_abnormal(kind) => abnormal,
            _ => self.normal,
        }
    }
}

pub(crate) fn row_count(terms: &[Terms]) -> u32 {
    u32::try_from(terms.len()).unwrap_or(u32::MAX)
}

// By a pattern, not by the core's own equality.
pub(crate) fn is_abnormal(kind: Kind) -> bool {
    matches!(kind, Kind::Abnormal)
}

// An admitted arrival. It is unended once `from` events have come, and no more once more than `end.until` have.
#[derive(Clone, Copy)]
pub struct Admission {
    pub row: u32,
    pub kind: Kind,
    pub block: u32,
    pub arrival: u32,
    pub from: usize,
    pub end: Option<End>,
}

#[derive(Clone, Copy)]
pub struct End {
    pub until: usize,
    // the clock behind the report that ended the job
    pub clock: u32,
}

impl Admission {
    // Whether the job was unended when so many events had come.
    pub(crate) fn unended_at(&self, events: usize) -> bool {
        self.from <= events && self.end.is_none_or(|end| events <= end.until)
    }

    // Where the job ends that may have so many ticks. The clock is counted in the same walk.
    fn end_among(&self, events: &[Event], budget: u32) -> Option<End> {
        let mut clock = self.arrival;
        let mut ticks: u32 = 0;
        let behind = events.get(self.from..)?;
        let last = behind.iter().position(|event| match *event {
            Event::Reported { row, finished } => {
                clock = clock.saturating_add(1);
                if row == Some(self.row) {
                    ticks = ticks.saturating_add(1);
                    finished || ticks == budget
                } else {
                    false
                }
            }
            _ => false,
        })?;
        let until = self.from.saturating_add(last);
        Some(End { until, clock })
    }
}

// How many reports were accepted.
pub(crate) fn clock_of(events: &[Event]) -> u32 {
    let reports = events
        .iter()
        .filter(|event| matches!(event, Event::Reported { .. }));
    u32::try_from(reports.count()).unwrap_or(u32::MAX)
}

// The turn that was begun and not reported yet.
pub(crate) fn open_turn(events: &[Event]) -> Option<TurnNumbers> {
    let mut latest = events.iter().rev();
    match latest.find(|event| !matches!(event, Event::Admitted { .. })) {
        Some(Event::Begun(turn)) => Some(*turn),
        _ => None,
    }
}

// How many ticks a job of this kind may have; one of a row that is not in the plan may have none.
fn budget(terms: &[Terms], row: u32, kind: Kind) -> u32 {
    let asked = terms.get(row as usize);
    asked.map_or(0, |asked| asked.of_kind(kind).budget)
}

// Every job that the events tell of, in the order of arrival.
pub(crate) fn admissions(
    heap: Global,
    terms: &[Terms],
    events: &[Event],
) -> Result<Vec<Admission>, AllocError> {
    let mut all = Vec::new(heap);
    let mut arrival = 0;
    for (place, event) in events.iter().enumerate() {
        match *event {
            Event::Begun(_) => {}
            Event::Reported { .. } => count(&mut arrival),
            Event::Admitted { row, kind, block } => {
                let mut job = Admission {
                    row,
                    kind,
                    block,
                    arrival,
                    from: place.saturating_add(1),
                    end: None,
                };
                job.end = job.end_among(events, budget(terms, row, kind));
                all.push(job)?;
            }
        }
    }
    Ok(all)
}
