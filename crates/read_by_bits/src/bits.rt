// Bytes as a list of bits, the most significant of each byte first, and back.
use std::alloc::{AllocError, Global};

const MASKS: [u8; 8] = [128, 64, 32, 16, 8, 4, 2, 1];

// Bits, and how many of them were read.
#[derive(Drop)]
pub struct Bits {
    bits: Vec<bool>,
    at: usize,
}

impl Bits {
    pub(crate) fn new(heap: Global) -> Bits {
        Bits {
            bits: Vec::new(heap),
            at: 0,
        }
    }

    pub(crate) fn of(heap: Global, bytes: &[u8]) -> Result<Bits, AllocError> {
        let mut bits = Vec::new(heap);
        // eight at a time: bit by bit through a `flat_map` takes twice as long
        for byte in bytes {
            bits.extend_from_slice(&MASKS.map(|mask| *byte & mask != 0))?;
        }
        Ok(Bits { bits, at: 0 })
    }

    // The byte that the next bit stands in.
    pub(crate) fn offset(&self) -> usize {
        self.at / 8
    }

    pub(crate) fn at_end(&self) -> bool {
        self.at >= self.bits.len()
    }

    // The number that the next bits spell; refused by 2 where they are too few.
    pub(crate) fn field(&mut self, width: u32) -> Result<u32, u8> {
        let past = self.at.saturating_add(width as usize);
        let part = self.bits.get(self.at..past).ok_or(2)?;
        let value = part.iter().fold(0u32, |value, one| {
            value.wrapping_mul(2).wrapping_add(u32::from(*one))
        });
        self.at = past;
        Ok(value)
    }

    // Puts the last `width` bits of a number behind the others.
    pub(crate) fn put(&mut self, value: u32, width: u32) -> Result<(), AllocError> {
        let ones = (0..width)
            .rev()
            .map(|behind| value.rotate_right(behind) % 2 == 1);
        self.bits.extend(ones)
    }

    pub(crate) fn bytes(&self, heap: Global) -> Result<Vec<u8>, AllocError> {
        self.bits.as_slice().chunks(8).map(byte_of).collect(heap)
    }
}

// The byte that up to eight bits spell; the others are 0.
fn byte_of(bits: &[bool]) -> u8 {
    bits.iter().zip(MASKS.iter()).fold(
        0,
        |byte, (bit, mask)| if *bit { byte | *mask } else { byte },
    )
}
