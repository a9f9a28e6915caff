// The hash over any part of bytes, in less time than it takes to go over that part.

ghost use Rattle.std.specs.Prelude.{◌≡◌, ◌≤◌, ◌+◌, ◌-◌, ◌*◌, ◌%◌, ◌^◌, ℕ, List, length, IfOk, OnOk};
ghost use Rattle.frame_file.specs.Frame.{hashed};
ghost use Rattle.frame_file.specs.Sums.{part, AreBytes, AreSums};

use crate::frame::{PRIME, hashed};
use std::alloc::{AllocError, Global};

// The bytes of a block.
const BLOCK: usize = 4096;

// How many lowest bytes there are.
const LOWEST: usize = 256;

/// The hashes over the blocks of a file's bytes, for parts that are long or many. A step of the hash takes what
/// is above its lowest byte times the same factor, whatever the bytes are: so what a block makes of a
/// hash follows from what it makes of the lowest byte.
#[derive(Drop)]
pub(crate) struct Sums {
    table: Vec<u64>,
    factor: u64,
    // How many bytes are still gone over one by one, before the table is made.
    spare: usize,
}

// A power of the factor of a step.
fn power(count: usize) -> u64
    ensures { result ≡ 1099511628211 ^ count % 2 ^ 64 }
{
    let mut power: u64 = 1;
    for step in 0..count {
        power = power.wrapping_mul(PRIME);
    }
    power
}

// The hash behind a block, by what the block makes of the lowest byte.
fn over_block(hash: u64, lowest: u64, factor: u64) -> u64
    ensures { result ≡ (lowest + (hash - hash % 256) * factor % 2 ^ 64) % 2 ^ 64 }
{
    let above = hash - hash % 256;
    lowest.wrapping_add(above.wrapping_mul(factor))
}

impl Sums {
    /// Of no block so far.
    pub(crate) fn new(alloc: Global, spare: usize) -> Sums
        ensures { (bytes : List ℕ) → AreSums bytes result }
    {
        Sums {
            table: Vec::new(alloc),
            factor: power(BLOCK),
            spare,
        }
    }

    // Goes on with the table up to a block.
    fn fill(&mut self, bytes: &[u8], blocks: usize) -> Result<(), AllocError>
        requires of { AreSums bytes.now self.old }
        requires inside { 4096 * blocks ≤ length bytes.now }
        ensures of { AreSums bytes.now self.new }
        ensures filled { OnOk result (256 * blocks ≤ length self.new.table.items) }
    {
        'entries: while self.table.len() < blocks * LOWEST {
            let entry = self.table.len();
            let start = entry / LOWEST * BLOCK;
            let lowest = hashed((entry % LOWEST) as u64, &bytes[start..start + BLOCK]);
            self.table.push(lowest)?;
        }
        Ok(())
    }

    // The hash behind blocks, from this hash on.
    fn over_blocks(&self, hash: u64, first: usize, last: usize) -> u64
        requires filled { 256 * last ≤ length self.now.table.items }
        requires order { first ≤ last }
        ensures { (bytes : List ℕ) → AreSums bytes self.now → AreBytes bytes → 4096 * last ≤ length bytes
            → result ≡ hashed hash (part (4096 * first) (4096 * last) bytes) }
    {
        let mut hash = hash;
        'each: for block in first..last {
            let lowest = self.table[block * LOWEST + (hash % 256) as usize];
            hash = over_block(hash, lowest, self.factor);
        }
        hash
    }

    /// The hash over the bytes from one place to another, from this hash on.
    pub(crate) fn over(
        &mut self,
        bytes: &[u8],
        hash: u64,
        start: usize,
        end: usize,
    ) -> Result<u64, AllocError>
        requires of { AreSums bytes.now self.old }
        requires inside { end ≤ length bytes.now }
        requires order { start ≤ end }
        ensures sum { IfOk result (λ sum. sum ≡ hashed hash (part start end bytes.now)) }
        ensures of { AreSums bytes.now self.new }
    {
        let first = start / BLOCK + 1;
        let last = end / BLOCK;
        if last <= first || end - start <= self.spare {
            self.spare = self.spare.saturating_sub(end - start);
            return Ok(hashed(hash, &bytes[start..end]));
        }
        self.fill(bytes, last)?;
        let begun = hashed(hash, &bytes[start..first * BLOCK]);
        let behind = self.over_blocks(begun, first, last);
        Ok(hashed(behind, &bytes[last * BLOCK..end]))
    }
}
