// Damage to the bytes of a line-up.
use generator::Generator;
use std::io;

// A place among `count`.
fn place(draws: &mut Generator, count: usize) -> usize {
    draws.below(u32::try_from(count).unwrap_or(u32::MAX)) as usize
}

fn flip_bit(draws: &mut Generator, bytes: &mut Vec<u8>) {
    let mask = 1u8 << draws.below(8);
    let at = place(draws, bytes.len());
    if let Some(byte) = bytes.get_mut(at) {
        *byte ^= mask;
    }
}

fn swap_bytes(draws: &mut Generator, bytes: &mut Vec<u8>) {
    let at = place(draws, bytes.len());
    let other = place(draws, bytes.len());
    if at < bytes.len() && other < bytes.len() {
        bytes.swap(at, other);
    }
}

fn extend(draws: &mut Generator, bytes: &mut Vec<u8>) -> io::Result<()> {
    for _ in 0..1 + draws.below(3) {
        bytes.push((draws.below(256) & 255) as u8)?;
    }
    Ok(())
}

// Leaves a third of the line-ups whole.
pub(crate) fn damage(draws: &mut Generator, bytes: &mut Vec<u8>) -> io::Result<()> {
    match draws.below(9) {
        0 | 1 => flip_bit(draws, bytes),
        2 => {
            flip_bit(draws, bytes);
            flip_bit(draws, bytes);
        }
        3 => {
            let len = place(draws, bytes.len());
            bytes.truncate(len);
        }
        4 => extend(draws, bytes)?,
        5 => swap_bytes(draws, bytes),
        _ => {}
    }
    Ok(())
}
