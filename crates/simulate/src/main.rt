// Rehearses a session: makes the calls of the script at standard input, and prints what comes of them.
#![tactic(auto)]

mod parsing;
mod reading;
mod running;
mod table;
mod timeline;

use reading::Script;
use std::io;
use std::io::Read;

fn main(rt: HostRuntime) -> io::Result<()> {
    let mut input = Vec::new(rt.alloc());
    let _ = rt.stdin().read_to_end(&mut input)?;
    let script = Script::read(rt.alloc(), input.as_slice())?;
    let out = running::run(rt.alloc(), &script)?;
    rt.print(out.as_str())
}
