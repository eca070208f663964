// What was seen, and how it is printed.
use super::history::{Admission, Terms, is_abnormal};
use super::standing::Standing;
use law::{Answer, Outcome, Reply, TurnNumbers};
use row::Kind;
use std::{fmt, io};
use tallies::{Agreement, Refusals, count};

// The latest responses of the jobs of a row: normal and abnormal ones.
#[derive(Clone, Copy, Default)]
pub struct Latest {
    pub normal: u32,
    pub abnormal: u32,
}

#[derive(Default, Drop)]
pub struct Tally {
    pub sessions: u32,
    pub calls: Agreement,
    // boards and pools at the end of a session
    pub ends: Agreement,
    blocks: u32,
    work_turns: u32,
    idle_turns: u32,
    idle: u32,
    going_on: u32,
    finished: u32,
    cut: u32,
    refused: Refusals,
    // no block, though there are as many as rows
    wanting: u32,
    ended: u32,
    at_bound: u32,
    late: u32,
    // jobs of helpers that have no bound, since an abnormal arrival was admitted after theirs
    unbounded: u32,
}

impl Latest {
    fn note(&mut self, kind: Kind, response: u32) {
        let latest = match kind {
            Kind::Normal => &mut self.normal,
            Kind::Abnormal => &mut self.abnormal,
        };
        *latest = response.max(*latest);
    }
}

impl Tally {
    fn note_refusal(&mut self, number: u8, enough: bool) {
        self.refused.note(number);
        if number == 20 && enough {
            count(&mut self.wanting);
        }
    }

    // Notes an answer; `enough` says that there are as many blocks as rows.
    pub(crate) fn note(&mut self, answer: Answer, enough: bool) {
        match answer {
            Ok(Reply::Block(_)) => count(&mut self.blocks),
            Ok(Reply::Turn(TurnNumbers { work: Some(_), .. })) => count(&mut self.work_turns),
            Ok(Reply::Turn(TurnNumbers { work: None, .. })) => count(&mut self.idle_turns),
            Ok(Reply::Done(Outcome::Idle)) => count(&mut self.idle),
            Ok(Reply::Done(Outcome::GoesOn)) => count(&mut self.going_on),
            Ok(Reply::Done(Outcome::Finished)) => count(&mut self.finished),
            Ok(Reply::Done(Outcome::Cut)) => count(&mut self.cut),
            Err(fault) => self.note_refusal(fault.refusal.number(), enough),
        }
    }

    // Compares the response of a job with its bound.
    fn note_response(&mut self, job: &Admission, clock: u32, bound: u32, latest: &mut Latest) {
        let Some(end) = job.end else {
            if clock.saturating_sub(job.arrival) >= bound {
                count(&mut self.late);
            }
            return;
        };
        let response = end.clock.saturating_sub(job.arrival);
        count(&mut self.ended);
        if response == bound {
            count(&mut self.at_bound);
        }
        if response > bound {
            count(&mut self.late);
        }
        latest.note(job.kind, response);
    }

    // Compares the response of each job of a session with its bound.
    pub(crate) fn note_jobs(&mut self, standing: &Standing<'_>, latest: &mut [Latest]) {
        let jobs = standing.jobs.as_slice();
        for job in jobs {
            let row = job.row as usize;
            let Some(terms) = standing.setting.terms.get(row) else {
                continue;
            };
            // only a helper's bound needs that all jobs are normal
            if terms.abnormal.is_none() && met_abnormal(job, jobs) {
                count(&mut self.unbounded);
            } else if let Some(latest) = latest.get_mut(row) {
                let bound = terms.of_kind(job.kind).bound;
                self.note_response(job, standing.clock, bound, latest);
            }
        }
    }

    fn write_answers<W: fmt::Write>(&self, f: &mut fmt::Formatter<W>) -> fmt::Result {
        writeln!(f, "blocks {}", self.blocks)?;
        writeln!(
            f,
            "turns for a row {}, idle turns {}",
            self.work_turns, self.idle_turns
        )?;
        writeln!(
            f,
            "idle {}, goes on {}, finished {}, cut {}",
            self.idle, self.going_on, self.finished, self.cut
        )?;
        write!(f, "{}", self.refused)
    }
}

impl fmt::Display for Tally {
    fn fmt<W: fmt::Write>(&self, f: &mut fmt::Formatter<W>) -> fmt::Result {
        let calls = self.calls.agreed.saturating_add(self.calls.disagreed);
        writeln!(f, "sessions {}, calls {calls}", self.sessions)?;
        write!(f, "{}", self.calls)?;
        writeln!(
            f,
            "board and pool at the end: agreed {}, disagreed {}",
            self.ends.agreed, self.ends.disagreed
        )?;
        self.write_answers(f)?;
        writeln!(
            f,
            "refused by 20 with as many blocks as rows: {}",
            self.wanting
        )?;
        writeln!(
            f,
            "jobs ended {}, at exactly the bound {}, late {}",
            self.ended, self.at_bound, self.late
        )?;
        writeln!(
            f,
            "jobs of helpers that met an abnormal arrival {}",
            self.unbounded
        )
    }
}

// Whether an abnormal job was admitted after this one, while it was unended.
fn met_abnormal(job: &Admission, jobs: &[Admission]) -> bool {
    let mut behind = jobs.iter().filter(|other| other.from > job.from);
    behind.any(|other| is_abnormal(other.kind) && job.unended_at(other.from))
}

// The latest response of each row against its bound.
pub(crate) fn print_latest(
    rt: &HostRuntime,
    name: &str,
    terms: &[Terms],
    all: &[Latest],
) -> io::Result<()> {
    println!(rt; "{name}, latest response and bound:")?;
    for (row, (asked, latest)) in terms.iter().zip(all.iter()).enumerate() {
        let bound = asked.normal.bound;
        print!(rt; "  row {row}: normal {} of {bound}", latest.normal)?;
        if let Some(abnormal) = asked.abnormal {
            print!(rt; ", abnormal {} of {}", latest.abnormal, abnormal.bound)?;
        }
        println!(rt; "")?;
    }
    Ok(())
}
