// Prints the calls of a session with their answers.
use law::{Answer, Call, Reply, Step, TurnNumbers};
use std::io;

// All that a turn tells: what a reply prints leaves out its number and clock.
fn print_turn(rt: &HostRuntime, turn: TurnNumbers) -> io::Result<()> {
    print!(rt;
        " turn {} at {} {}",
        turn.number,
        turn.clock,
        Reply::Turn(turn)
    )
}

// Of another crate's type, in this program's words: so no Display.
fn print_step(rt: &HostRuntime, step: Step) -> io::Result<()> {
    match step {
        Step::Given(Call::Arrive { row, kind }) => print!(rt; "  arrive {row} {kind}"),
        Step::Given(Call::Begin) => print!(rt; "  begin"),
        Step::Given(Call::Report { turn, finished }) => {
            print!(rt; "  report")?;
            print_turn(rt, turn)?;
            print!(rt; " finished {finished}")
        }
        Step::ReportOpen { finished } => print!(rt; "  report the open turn finished {finished}"),
    }
}

// As `print_step`: a refusal's own words name its layer too.
fn print_answer(rt: &HostRuntime, answer: Answer) -> io::Result<()> {
    match answer {
        Ok(Reply::Turn(turn)) => print_turn(rt, turn),
        Ok(reply) => print!(rt; " {reply}"),
        Err(fault) => {
            let number = fault.refusal.number();
            print!(rt; " refused by {number} at {}", fault.place)
        }
    }
}

// The steps that the log answers.
pub(crate) fn print_calls(rt: &HostRuntime, steps: &[Step], log: &[Answer]) -> io::Result<()> {
    for (step, answer) in steps.iter().zip(log.iter()) {
        print_step(rt, *step)?;
        print!(rt; ":")?;
        print_answer(rt, *answer)?;
        println!(rt; "")?;
    }
    Ok(())
}
