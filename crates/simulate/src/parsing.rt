// Commands from the words of a line.
use law::{Call, Step, TurnNumbers, Work};
use script::{Opening, Wrong, block_count, read_keyword, whole};

#[derive(Clone, Copy)]
pub enum Command {
    // the digits are the rest of the line
    Lineup,
    Open(Opening),
    Call(Step),
}

const COMMAND: &str = "lineup, open, arrive, begin or report";

const LINEUP: &str = "lineup HEX";

const OPEN: &str = "open word|chain bitmap|freelist BLOCKS NUMBER";

const ARRIVE: &str = "arrive ROW normal|abnormal";

const BEGIN: &str = "begin";

const REPORT: &str =
    "report finished|unfinished, or report NUMBER CLOCK ROW BLOCK finished|unfinished";

// The command that the words of a line spell, or why they spell none.
pub(crate) fn parse<'a>(words: &[&'a str]) -> Result<Command, Wrong<'a>> {
    match words {
        ["lineup", _, ..] => Ok(Command::Lineup),
        ["lineup"] => Err(Wrong::Missing(LINEUP)),
        ["open", board, pool, blocks, number] => opening(board, pool, blocks, number),
        ["open", ..] => Err(Wrong::Missing(OPEN)),
        ["arrive", row, kind] => arrival(row, kind),
        ["arrive", ..] => Err(Wrong::Missing(ARRIVE)),
        ["begin"] => Ok(Command::Call(Step::Given(Call::Begin))),
        ["begin", ..] => Err(Wrong::Missing(BEGIN)),
        ["report", finished] => report_open(finished),
        ["report", number, clock, row, block, finished] => {
            report(number, clock, row, block, finished)
        }
        ["report", ..] => Err(Wrong::Missing(REPORT)),
        [word, ..] => Err(Wrong::Word {
            expected: COMMAND,
            found: word,
        }),
        [] => Err(Wrong::Missing(COMMAND)),
    }
}

fn opening<'a>(
    board: &'a str,
    pool: &'a str,
    blocks: &'a str,
    number: &'a str,
) -> Result<Command, Wrong<'a>> {
    Ok(Command::Open(Opening {
        board: read_keyword(board)?,
        pool: read_keyword(pool)?,
        blocks: block_count(blocks)?,
        number: whole(number, "NUMBER, a whole number below 4294967296")?,
    }))
}

fn arrival<'a>(row: &'a str, kind: &'a str) -> Result<Command, Wrong<'a>> {
    let row = whole(row, "ROW, a whole number below 4294967296")?;
    let kind = read_keyword(kind)?;
    Ok(Command::Call(Step::Given(Call::Arrive { row, kind })))
}

fn report_open<'a>(finished: &'a str) -> Result<Command, Wrong<'a>> {
    let finished = read_keyword(finished)?;
    Ok(Command::Call(Step::ReportOpen { finished }))
}

fn report<'a>(
    number: &'a str,
    clock: &'a str,
    row: &'a str,
    block: &'a str,
    finished: &'a str,
) -> Result<Command, Wrong<'a>> {
    let turn = TurnNumbers {
        number: whole(number, "NUMBER, a whole number below 4294967296")?,
        clock: whole(clock, "CLOCK, a whole number below 4294967296")?,
        work: work(row, block)?,
    };
    let finished = read_keyword(finished)?;
    Ok(Command::Call(Step::Given(Call::Report { turn, finished })))
}

// The work of a turn; two dashes stand for that of an idle one.
fn work<'a>(row: &'a str, block: &'a str) -> Result<Option<Work>, Wrong<'a>> {
    if row == "-" && block == "-" {
        return Ok(None);
    }
    Ok(Some(Work {
        row: whole(
            row,
            "ROW, a whole number below 4294967296 (or - for both ROW and BLOCK)",
        )?,
        block: whole(
            block,
            "BLOCK, a whole number below 4294967296 (or - for both ROW and BLOCK)",
        )?,
    }))
}
