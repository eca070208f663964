// Puts the same calls to both boards and to both pools, and prints their answers side by side.
#![tactic(auto)]

use board::{ChainBoard, WordBoard};
use generic::Call;
use pool::{BitmapPool, FreeListPool};
use std::fmt::Display;
use std::io;

mod answers;
mod boards;
mod generic;
mod pools;

fn compare<A: Drop, B: Drop, C: Call<A> + Call<B> + Display>(
    rt: &HostRuntime,
    mut one: A,
    mut other: B,
    calls: &[C],
) -> io::Result<()> {
    for call in calls {
        let by_one = call.put(&mut one);
        let by_other = call.put(&mut other);
        println!(rt; "{call}: {by_one} {by_other}")?;
    }
    Ok(())
}

fn main(rt: HostRuntime) -> io::Result<()> {
    println!(rt; "boards: word chain")?;
    compare(&rt, WordBoard::new(), ChainBoard::new(), &boards::CALLS)?;
    println!(rt; "pools of 3: bitmap list")?;
    compare(&rt, BitmapPool::new(3), FreeListPool::new(3), &pools::CALLS)?;
    println!(rt; "pools of 0: bitmap list")?;
    compare(&rt, BitmapPool::new(0), FreeListPool::new(0), &pools::SIZES)?;
    println!(rt; "pools of 65: bitmap list")?;
    compare(
        &rt,
        BitmapPool::new(65),
        FreeListPool::new(65),
        &pools::SIZES,
    )
}
