// Reading a script: its line-up, its opening and its calls, up to the first line that is no command.
ghost use Rattle.std.specs.Prelude.{◌≡◌, List, [], map};
ghost use Rattle.law.specs.Answer.{Answer};
ghost use Rattle.law.specs.History.{made};
ghost use Rattle.law.specs.declared.calls.Call.TheVariants.{Begin};
ghost use Rattle.law.specs.declared.calls.Step.TheVariants.{Given};
ghost use Rattle.session.specs.Replays.{replayed_by, replayed_steps};
ghost use Rattle.simulate.specs.declared.reading.Written.{Written};

use super::parsing::{Command, parse};
use judge::Plan;
use law::{Call, Line, Step, TurnNumbers};
use lineup_check::plan_lineup;
use row::Fault;
use script::{HexFault, Opening, Wrong, decode};
use std::alloc::{AllocError, AllocFailed, Global};
use std::fmt;
use std::str::from_utf8;

// A script as far as it could be read, and why it was read no further, if so.
#[derive(Drop)]
pub struct Script<'a> {
    // without rows until the line-up is read, and no option: the judge fills a plan that is there
    pub plan: Plan,
    pub opening: Option<Opening>,
    pub lines: Vec<Written<'a>>,
    pub ending: Option<Ending<'a>>,
}

// A step and its text.
#[derive(Clone, Copy)]
pub struct Written<'a> {
    pub text: &'a str,
    pub step: Step,
}

// It makes the call of its step.
impl Line for Written<'_> {
    ghost makes = { λ turn line. made turn line.step };

    ghost past = { record { text = record { ref_ptr = (0, 0); now = [] }; step = Given Begin } };

    fn call(self, turn: Option<TurnNumbers>) -> Call {
        self.step.call(turn)
    }
}

// Of the lines of a script the contract of `replay` speaks of the list of their steps.
pub fn steps_replayed()
    ensures { (lines : List Written) (log : List Answer)
        → replayed_by ⟦<Written<'static> as Line>⟧.makes ⟦<Written<'static> as Line>⟧.past lines log ≡ replayed_steps (map (λ line. line.step) lines) log }
{}

// What ends the output: the refusal of the line-up, or a line, by its number, that is no command.
#[derive(Clone, Copy)]
pub enum Ending<'a> {
    Refused(Fault),
    Line(usize, Wrong<'a>),
}

impl fmt::Display for Ending<'_> {
    fn fmt<W: fmt::Write>(&self, f: &mut fmt::Formatter<W>) -> fmt::Result {
        match *self {
            Ending::Refused(fault) => write!(f, "{fault}"),
            Ending::Line(number, wrong) => write!(f, "line {number}: {wrong}"),
        }
    }
}

// Why a line is not taken in.
#[derive(Clone, Copy)]
enum Stop<'a> {
    NoMemory,
    Refused(Fault),
    Wrong(Wrong<'a>),
}

impl From<AllocError> for Stop<'_> {
    fn from(_e: AllocError) -> Self {
        Stop::NoMemory
    }
}

impl<T: Drop> From<AllocFailed<T>> for Stop<'_> {
    fn from(_e: AllocFailed<T>) -> Self {
        Stop::NoMemory
    }
}

impl From<Fault> for Stop<'_> {
    fn from(fault: Fault) -> Self {
        Stop::Refused(fault)
    }
}

impl<'a> From<Wrong<'a>> for Stop<'a> {
    fn from(wrong: Wrong<'a>) -> Self {
        Stop::Wrong(wrong)
    }
}

impl<'a> Script<'a> {
    // The script that the input spells.
    pub(crate) fn read(heap: Global, input: &'a [u8]) -> Result<Script<'a>, AllocError> {
        let mut script = Script {
            plan: Plan::new(),
            opening: None,
            lines: Vec::new(heap),
            ending: None,
        };
        let (text, cut) = text_of(input);
        script.take_lines(heap, text, cut)?;
        Ok(script)
    }

    // Takes in the lines of a text. `cut` is the number of the line behind them where that line is no text.
    fn take_lines(
        &mut self,
        heap: Global,
        text: &'a str,
        cut: Option<usize>,
    ) -> Result<(), AllocError> {
        for (before, line) in text.lines().enumerate() {
            if let Err(stop) = self.take_line(heap, line) {
                self.ending = Some(ending_at(before.saturating_add(1), stop)?);
                return Ok(());
            }
        }
        self.ending = match cut {
            Some(line) => Some(Ending::Line(line, Wrong::Missing("text in UTF-8"))),
            None => self.wanting(text.lines().count().saturating_add(1)),
        };
        Ok(())
    }

    fn take_line(&mut self, heap: Global, line: &'a str) -> Result<(), Stop<'a>> {
        let text = without_comment(line).trim();
        let words: Vec<&'a str> = text.split_whitespace().collect(heap)?;
        let Some(first) = words.first() else {
            return Ok(());
        };
        let command = parse(words.as_slice())?;
        self.take_command(heap, command, text, *first)
    }

    fn take_command(
        &mut self,
        heap: Global,
        command: Command,
        text: &'a str,
        first: &'a str,
    ) -> Result<(), Stop<'a>> {
        match command {
            Command::Lineup if self.plan.len() == 0 => {
                let digits = text.strip_prefix("lineup").unwrap_or("");
                let bytes = decode(heap, digits).map_err(|fault| hex_stop(digits, fault))?;
                plan_lineup(&mut self.plan, bytes.as_slice())?;
            }
            Command::Open(opening) if self.plan.len() > 0 && self.opening.is_none() => {
                self.opening = Some(opening);
            }
            Command::Call(step) if self.opening.is_some() => {
                self.lines.push(Written { text, step })?;
            }
            _ => {
                return Err(Stop::Wrong(Wrong::Word {
                    expected: self.expected(),
                    found: first,
                }));
            }
        }
        Ok(())
    }

    // What has to come next.
    fn expected(&self) -> &'static str {
        if self.plan.len() == 0 {
            return "lineup HEX first";
        }
        match self.opening {
            None => "open BOARD POOL BLOCKS NUMBER after the one lineup",
            Some(_) => "arrive, begin or report after the one lineup and the one open",
        }
    }

    // What is wrong with a script that ends before this line.
    fn wanting(&self, number: usize) -> Option<Ending<'a>> {
        let expected = if self.plan.len() == 0 {
            "lineup HEX, not the end of the script"
        } else if self.opening.is_none() {
            "open BOARD POOL BLOCKS NUMBER, not the end of the script"
        } else {
            return None;
        };
        Some(Ending::Line(number, Wrong::Missing(expected)))
    }
}

// Why the digits of a line-up are not taken in. Before a character that is no digit all are ASCII.
fn hex_stop<'a>(digits: &'a str, fault: HexFault) -> Stop<'a> {
    match fault {
        HexFault::NoMemory => Stop::NoMemory,
        HexFault::NoDigit(at) => Stop::Wrong(Wrong::Digit(digits.chars().nth(at).unwrap_or('?'))),
        HexFault::OddDigits => Stop::Wrong(Wrong::Missing("an even number of hexadecimal digits")),
        HexFault::TooLong => Stop::Wrong(Wrong::Missing("at most 2048 bytes")),
    }
}

fn ending_at<'a>(number: usize, stop: Stop<'a>) -> Result<Ending<'a>, AllocError> {
    match stop {
        Stop::NoMemory => Err(AllocError),
        Stop::Refused(fault) => Ok(Ending::Refused(fault)),
        Stop::Wrong(wrong) => Ok(Ending::Line(number, wrong)),
    }
}

// The input as text; where it is none, the lines before the first that is none, and the number of that line.
fn text_of(input: &[u8]) -> (&str, Option<usize>) {
    match from_utf8(input) {
        Ok(text) => (text, None),
        Err(e) => {
            let valid = input.get(..e.valid_up_to()).unwrap_or(b"");
            let text = from_utf8(valid).unwrap_or("");
            let cut = text.split('\n').count();
            let lines = text.rsplit_once('\n').map_or("", |(lines, _)| lines);
            (lines, Some(cut))
        }
    }
}

fn without_comment(line: &str) -> &str {
    line.split_once('#').map_or(line, |(before, _)| before)
}
