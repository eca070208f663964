// The law of a session: what may be asked of it, what it may answer, and that no job is ever late.
#![tactic(auto)]

ghost use Rattle.law.specs.Example.{Example};
ghost use Rattle.law.specs.Law.{TheLaw};

mod calls;
mod lines;
mod texts;

pub use calls::{Answer, Call, Job, Outcome, Reply, Step, TurnNumbers, Work};
pub use lines::Line;

// On every accepted plan, whatever is called, no job is late and no block is shared, lost or wanting.
pub fn law_holds()
    ensures { TheLaw }
{}

// The law is not empty: a lawful history with an abnormal arrival, a refused call and a job that is cut.
pub fn example_holds()
    ensures { Example }
{}
