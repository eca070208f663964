// Reads generated line-ups, whole and damaged, and compares the reader with a decoder that works bit by bit.
#![tactic(auto)]

mod bits;
mod compare;
mod damage;
mod decode;
mod lineups;
mod tally;

use generator::Generator;
use std::io;

const LINEUPS: u32 = 4000;

fn main(rt: HostRuntime) -> io::Result<()> {
    let heap = rt.alloc();
    let mut draws = Generator::new(31);
    let mut tally = tally::Tally::default();
    for turn in 0..LINEUPS {
        let mut bytes = if turn % 2 == 0 {
            lineups::written(heap, &mut draws)?
        } else {
            lineups::packed(heap, &mut draws)?
        };
        damage::damage(&mut draws, &mut bytes)?;
        let decoded = decode::decode(heap, bytes.as_slice())?;
        let agreed = compare::same_reads(bytes.as_slice(), &decoded)
            && compare::same_rows(bytes.as_slice(), &decoded);
        tally.note(&decoded, agreed);
        if !agreed {
            tally::print_disagreement(&rt, bytes.as_slice(), &decoded)?;
        }
    }
    print!(rt; "{tally}")
}
