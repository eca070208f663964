// Bytes from hexadecimal digits.
ghost use Rattle.std.specs.Prelude.{◌≡◌, ◌+◌, ◌*◌, ◌<◌, [], ◌∷◌, ◌++◌, MatchOption, MatchResult};
ghost use Rattle.script.specs.Hex.{HexDigit, is_white, hex_value, Decoded, Undecoded, Half, spelt, NotPut};
ghost use Rattle.script.specs.declared.hex.HexFault.TheVariants.{NoMemory};

use std::alloc::{AllocFailed, Global};

// More than the longest line-up has, which is 1,345 bytes.
const MOST_BYTES: usize = 2048;

// Why a text spells no bytes.
#[derive(Clone, Copy)]
pub enum HexFault {
    // neither a digit nor white space, at this offset
    NoDigit(usize),
    OddDigits,
    TooLong,
    NoMemory,
}

impl<T: Drop> From<AllocFailed<T>> for HexFault {
    ghost from_gives = { λ _ e. e ≡ NoMemory };

    fn from(_e: AllocFailed<T>) -> HexFault {
        HexFault::NoMemory
    }
}

// The bytes that the digits of a text spell, two for each; white space is passed over, and a fault tells its place, as the kit's `hex` does not.
pub fn decode(heap: Global, text: &str) -> Result<Vec<u8>, HexFault>
    ensures { MatchResult result (λ v. Decoded text.now v.items) (Undecoded text.now) }
{
    let mut bytes = Vec::new(heap);
    let mut high = None;
    for (at, byte) in text.as_bytes().iter().enumerate() {
        if is_white(*byte) {
            continue;
        }
        let digit = hex_digit(*byte).ok_or(HexFault::NoDigit(at))?;
        high = pair(&mut bytes, high, digit)?;
    }
    match high {
        None => Ok(bytes),
        Some(_) => Err(HexFault::OddDigits),
    }
}

fn is_white(byte: u8) -> bool
    ensures { result ≡ is_white byte }
{
    byte == b' ' || byte == b'\t'
}

// The value of a hexadecimal digit, or none for any other byte.
fn hex_digit(byte: u8) -> Option<u8>
    ensures { MatchOption result (HexDigit byte → ⊥) (λ v. HexDigit byte × (v ≡ hex_value byte) × (v < 16)) }
{
    let digit = char::from(byte).to_digit(16)?;
    Some(digit as u8)
}

// One digit more. The first of a pair is kept, and with the second the pair becomes a byte.
fn pair(bytes: &mut Vec<u8>, high: Option<u8>, digit: u8) -> Result<Option<u8>, HexFault>
    requires { Half high × (digit < 16) }
    ensures { MatchResult result (λ h. Half h × (spelt bytes.new.items h ≡ spelt bytes.old.items high ++ digit ∷ [])) (NotPut bytes.old.items high) }
{
    let Some(first) = high else {
        return Ok(Some(digit));
    };
    if bytes.len() >= MOST_BYTES {
        return Err(HexFault::TooLong);
    }
    bytes.push(first * 16 + digit)?;
    Ok(None)
}
