// Prints the listing of the line-up at standard input.
#![tactic(auto)]

use lineup_check::check_lineup;
use std::io;
use std::io::Read;

// More than the longest line-up has, which is 1,345 bytes.
const MOST_BYTES: u64 = 2048;

fn main(rt: HostRuntime) -> io::Result<()> {
    let mut input = Vec::new(rt.alloc());
    let _ = rt.stdin().take(MOST_BYTES).read_to_end(&mut input)?;
    let mut output = [0; 2048];
    let len = check_lineup(input.as_slice(), &mut output);
    rt.write_all(&output[0..len])
}
