//! Where the regions of memory lie.

ghost use Rattle.std.specs.Prelude.{◌≡◌, ◌<◌, ◌≤◌, Some, None, true, map, slice_index, if◌then◌else◌};
ghost use Rattle.std.specs.List.{list_all};
ghost use Rattle.semantics.specs.Row.{plain_bases};
ghost use Rattle.semantics.specs.Reach.{is_layout, is_apart, is_in_reach, are_apart, buffer_extents, IsLayout};

use semantics::profile::{ARGUMENTS_BYTES, BUFFER_BYTES, STACK_BYTES};
use std::marker::Model;

// The lengths of the regions.
const STACK: u64 = STACK_BYTES as u64;

const ARGUMENTS: u64 = ARGUMENTS_BYTES as u64;

const BUFFER: u64 = BUFFER_BYTES as u64;

// The buffers' addresses in a plain layout. Behind a reference they are copied, and not each
// written by itself.
const PLAIN_BUFFERS: &[u64; 16] = &[
    196608, 196864, 197120, 197376, 197632, 197888, 198144, 198400, 198656, 198912, 199168, 199424,
    199680, 199936, 200192, 200448,
];

/// Regions end here at most.
const REACH: u64 = 0x8000_0000_0000;

/// The addresses of the stack (512 bytes), the arguments (64 bytes) and sixteen buffers (64
/// bytes each): none is 0, the regions are disjoint and end at 2^47 at most.
#[derive(Drop)]
pub struct Layout {
    stack: u64,
    args: u64,
    buffers: [u64; 16],
}

impl Model for Layout {
    ghost use Rattle.std.specs.Prelude.{◌≡◌, true};
    ghost use Rattle.semantics.specs.Step.{Bases};
    ghost use Rattle.semantics.specs.Reach.{is_layout};

    ghost Value = { Bases };

    ghost view = { λ l. record { stack = l.stack; arguments = l.args; buffers = l.buffers } };

    ghost invariant = { λ l. is_layout (record { stack = l.stack; arguments = l.args; buffers = l.buffers }) ≡ true };
}

// Whether the region isn't at 0 and ends within reach.
fn is_in_reach(base: u64, bytes: u64) -> bool
    requires { bytes ≤ STACK_BYTES }
    ensures { result ≡ is_in_reach (base, bytes) }
{
    base > 0 && base <= REACH - bytes
}

// Whether two regions share no byte.
fn is_apart(a: (u64, u64), b: (u64, u64)) -> bool
    ensures { result ≡ is_apart a b }
{
    let a_first = a.1 <= b.0 && a.0 <= b.0 - a.1;
    let b_first = b.1 <= a.0 && b.0 <= a.0 - b.1;
    a_first || b_first
}

fn all_in_reach(buffers: &[u64]) -> bool
    ensures { result ≡ list_all is_in_reach (buffer_extents buffers.now) }
{
    for base in buffers {
        if !is_in_reach(*base, BUFFER) {
            return false;
        }
    }
    true
}

fn all_apart(region: (u64, u64), buffers: &[u64]) -> bool
    ensures { result ≡ list_all (is_apart region) (buffer_extents buffers.now) }
{
    for base in buffers {
        if !is_apart(region, (*base, BUFFER)) {
            return false;
        }
    }
    true
}

fn are_apart(buffers: &[u64]) -> bool
    ensures { result ≡ are_apart (buffer_extents buffers.now) }
{
    for (place, base) in buffers.iter().enumerate() {
        if !all_apart((*base, BUFFER), &buffers[place + 1..]) {
            return false;
        }
    }
    true
}

impl Layout {
    /// The layout with its regions at these addresses; `None` where one is 0, two overlap or
    /// one ends past 2^47.
    pub fn new(stack: u64, args: u64, buffers: [u64; 16]) -> Option<Layout>
        ensures { result ≡ (if is_layout (record { stack = stack; arguments = args; buffers = buffers }) then
            Some (record { stack = stack; arguments = args; buffers = buffers }) else None) }
    {
        let stands = is_in_reach(stack, STACK)
            && is_in_reach(args, ARGUMENTS)
            && all_in_reach(&buffers);
        let apart = is_apart((stack, STACK), (args, ARGUMENTS))
            && all_apart((stack, STACK), &buffers)
            && all_apart((args, ARGUMENTS), &buffers)
            && are_apart(&buffers);
        if !(stands && apart) {
            return None;
        }
        Some(Layout {
            stack,
            args,
            buffers,
        })
    }

    /// The stack at 65536, the arguments at 131072, buffer k at 196608 + 256 * k.
    pub fn plain() -> Layout
        ensures { result ≡ plain_bases }
    {
        Layout {
            stack: 65536,
            args: 131072,
            buffers: *PLAIN_BUFFERS,
        }
    }

    /// The stack's first address.
    pub fn stack(&self) -> u64
        ensures value { result ≡ self.now.stack }
        ensures layout { IsLayout self.now }
    {
        self.stack
    }

    /// The arguments' first address.
    pub fn args(&self) -> u64
        ensures value { result ≡ self.now.arguments }
        ensures layout { IsLayout self.now }
    {
        self.args
    }

    /// The first address of the buffer of this slot, 0 to 15.
    pub fn buffer(&self, slot: usize) -> u64
        requires { slot < 16 }
        ensures value { result ≡ slice_index self.now.buffers slot }
        ensures layout { IsLayout self.now }
    {
        self.buffers[slot]
    }
}
