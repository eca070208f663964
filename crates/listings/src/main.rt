// Prints the listing of each line-up at standard input, where a line is a name, a colon and bytes in hexadecimal.
#![tactic(auto)]

use lineup_check::check_lineup;
use std::alloc::Global;
use std::io;

// The value of a hexadecimal digit, or none for any other byte. Capital letters are no digits here.
fn digit(byte: u8) -> Option<u8> {
    let symbol = char::from(byte);
    // before `a` stand the decimal digits and the capital letters
    let value = if byte < b'a' {
        symbol.to_digit(10)?
    } else {
        symbol.to_digit(16)?
    };
    Some(value as u8)
}

// The bytes that the digits spell, two for each; all else is passed over, as is a last digit alone.
// Not `script::decode`, which refuses text: what stands in this input is known.
fn from_hex(heap: Global, text: &[u8]) -> io::Result<Vec<u8>> {
    let mut bytes = Vec::new(heap);
    let mut high: Option<u8> = None;
    // paired as they come: a list of the digits takes more memory, and a chain of them more time on a line of blanks
    for byte in text {
        if let Some(low) = digit(*byte) {
            if let Some(first) = high.take() {
                bytes.push(first.wrapping_mul(16).wrapping_add(low))?;
            } else {
                high = Some(low);
            }
        }
    }
    Ok(bytes)
}

fn show(rt: &HostRuntime, line: &str) -> io::Result<()> {
    let Some((name, hex)) = line.split_once(':') else {
        return Ok(());
    };
    let bytes = from_hex(rt.alloc(), hex.as_bytes())?;
    let mut output = [0; 2048];
    let len = check_lineup(bytes.as_slice(), &mut output);
    rt.println(name)?;
    rt.write_all(&output[0..len])
}

fn main(rt: HostRuntime) -> io::Result<()> {
    for line in rt.lines(rt.alloc()) {
        show(&rt, line?.as_str())?;
    }
    Ok(())
}
