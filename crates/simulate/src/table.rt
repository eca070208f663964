// The table of jobs.
use judge::{Bounds, Plan};
use row::Kind;
use std::fmt::Write;
use std::io;
use traces::{JobLine, Trace};

// A line for each job, in the order of their arrival.
pub(crate) fn show(out: &mut String, plan: &Plan, trace: &Trace) -> io::Result<()> {
    writeln!(
        out,
        "row  kind      arrival      end  ended     response    bound"
    )?;
    let mut any_lapsed = false;
    for (place, job) in trace.jobs().iter().enumerate() {
        if let Some(bounds) = plan.bounds(job.row as usize) {
            let lapsed = bounds.late.is_none() && is_disturbed(place, job, trace);
            show_job(out, job, bound_of(job.kind, bounds), lapsed)?;
            any_lapsed |= lapsed;
        }
    }
    if any_lapsed {
        writeln!(
            out,
            "(bound): an abnormal job arrived before this helper's job ended, so the bound is not promised"
        )?;
    }
    Ok(())
}

fn show_job(out: &mut String, job: &JobLine, bound: u32, lapsed: bool) -> io::Result<()> {
    let heap = *out.allocator();
    let row = job.row;
    let kind = job.kind;
    let arrival = job.arrival;
    write!(out, "{row:>3}  {kind:<8}  {arrival:>7}  ")?;
    match job.end {
        None => write!(out, "{:>7}  {:<8}  {:>8}", "-", "-", "-")?,
        Some(end) => {
            let clock = end.clock;
            let how = end.outcome;
            let response = clock.saturating_sub(arrival);
            write!(out, "{clock:>7}  {how:<8}  {response:>8}")?;
        }
    }
    let bound = if lapsed {
        format!(in heap; "({bound})")?
    } else {
        bound.to_string(heap)?
    };
    writeln!(out, "  {bound:>7}")?;
    Ok(())
}

// Whether an abnormal job came behind the job and before its end.
fn is_disturbed(place: usize, job: &JobLine, trace: &Trace) -> bool {
    job.end
        .map_or_else(|| trace.has_abnormal_behind(place), |end| end.disturbed)
}

// The mixed bound of a track's normal job, the long bound of its abnormal one, the normal bound of a helper's.
fn bound_of(kind: Kind, bounds: Bounds) -> u32 {
    match (bounds.late, kind) {
        (Some(late), Kind::Normal) => late.mixed,
        (Some(late), Kind::Abnormal) => late.long,
        (None, _) => bounds.normal,
    }
}
