//! Operations and comparisons (RFC 9669, section 4), on 64 bits or on the low 32.
//!
//! ```
//! compute(Width::Bits64, Operation::Div, a, b);               // a / b, and 0 where b is 0
//! holds(Width::Bits32, Condition::SignedLess, a, b);          // of the low halves, as signed numbers
//! ```
//!
//! (`interpreter` computes with them. `tools/printed.py` has rows of both, by code that is run.)
#![tactic(auto)]

ghost use Rattle.std.specs.Prelude.{◌≡◌, false};
ghost use Rattle.std.specs.Int.{w32, w64};
ghost use Rattle.semantics.specs.Arithmetic.{negation, low, width_of, kept, reversed};
ghost use Rattle.semantics.specs.Instruction.{compute_of, result_of, extension_of, order_width, order_of, test_of, is_taken, exchange_of, exchanged_by};
ghost use Rattle.bpf_encoding.specs.Reading.{is_64};

use bpf_encoding::insn::{
    AtomicOperation, ByteOrder, Condition, Extension, Operation, OrderWidth, Width,
};

#[inline(always)]
fn low32(value: u64) -> u32
    ensures { result ≡ low false value }
{
    (value % 0x1_0000_0000) as u32
}

// What an operation gives on two numbers of this many bits.
macro_rules! computed {
    ($bits:literal, $operation:expr, $a:expr, $b:expr) => {
        match $operation {
            Operation::Add => $a.wrapping_add($b),
            Operation::Sub => $a.wrapping_sub($b),
            Operation::Mul => $a.wrapping_mul($b),
            Operation::Div => if $b == 0 { 0 } else { $a / $b },
            Operation::SignedDiv => if $b == 0 {
                0
            } else {
                $a.cast_signed().wrapping_div($b.cast_signed()).cast_unsigned()
            },
            Operation::Or => $a | $b,
            Operation::And => $a & $b,
            Operation::LeftShift => $a.wrapping_shl(($b % $bits) as u32),
            Operation::RightShift => $a >> ($b % $bits),
            Operation::Mod => if $b == 0 { $a } else { $a % $b },
            Operation::SignedMod => if $b == 0 {
                $a
            } else {
                $a.cast_signed().wrapping_rem($b.cast_signed()).cast_unsigned()
            },
            Operation::Xor => $a ^ $b,
            Operation::Mov => $b,
            Operation::SignedRightShift => ($a.cast_signed() >> ($b % $bits)).cast_unsigned(),
        }
    };
}

#[inline(always)]
fn compute64(operation: Operation, a: u64, b: u64) -> u64
    ensures { result ≡ compute_of operation w64 a b }
{
    computed!(64, operation, a, b)
}

#[inline(always)]
fn compute32(operation: Operation, a: u32, b: u32) -> u32
    ensures { result ≡ compute_of operation w32 a b }
{
    computed!(32, operation, a, b)
}

/// What the operation gives; at 32 bits the upper half of the result is 0.
#[inline(always)]
pub fn compute(width: Width, operation: Operation, a: u64, b: u64) -> u64
    ensures { result ≡ result_of (is_64 width) operation a b }
{
    match width {
        Width::Bits64 => compute64(operation, a, b),
        Width::Bits32 => u64::from(compute32(operation, low32(a), low32(b))),
    }
}

// What an atomic operation stores, all numbers being of one width.
macro_rules! exchanged {
    ($operation:expr, $expected:expr, $old:expr, $value:expr) => {
        match $operation {
            AtomicOperation::Add | AtomicOperation::FetchAdd => $old.wrapping_add($value),
            AtomicOperation::Or | AtomicOperation::FetchOr => $old | $value,
            AtomicOperation::And | AtomicOperation::FetchAnd => $old & $value,
            AtomicOperation::Xor | AtomicOperation::FetchXor => $old ^ $value,
            AtomicOperation::Exchange => $value,
            AtomicOperation::CompareExchange => if $old == $expected { $value } else { $old },
        }
    };
}

fn exchange64(operation: AtomicOperation, expected: u64, old: u64, value: u64) -> u64
    ensures { result ≡ exchange_of operation w64 expected old value }
{
    exchanged!(operation, expected, old, value)
}

fn exchange32(operation: AtomicOperation, expected: u32, old: u32, value: u32) -> u32
    ensures { result ≡ exchange_of operation w32 expected old value }
{
    exchanged!(operation, expected, old, value)
}

/// What an atomic operation stores (RFC 9669, section 5.3), by the number that it compares with,
/// the old one in memory and the other operand; at 32 bits by the low halves of all three.
pub fn exchange(
    width: Width,
    operation: AtomicOperation,
    expected: u64,
    old: u64,
    value: u64,
) -> u64
    ensures { result ≡ exchanged_by (is_64 width) operation expected old value }
{
    match width {
        Width::Bits64 => exchange64(operation, expected, old, value),
        Width::Bits32 => u64::from(exchange32(
            operation,
            low32(expected),
            low32(old),
            low32(value),
        )),
    }
}

/// The number negated.
#[inline(always)]
pub fn negate(width: Width, a: u64) -> u64
    ensures { result ≡ negation (width_of (is_64 width)) (low (is_64 width) a) }
{
    match width {
        Width::Bits64 => a.wrapping_neg(),
        Width::Bits32 => u64::from(low32(a).wrapping_neg()),
    }
}

/// The low bits with their sign.
#[inline(always)]
pub fn extend(extension: Extension, a: u64) -> u64
    ensures { result ≡ extension_of extension a }
{
    match extension {
        Extension::Byte64 => i64::from(((a % 0x100) as u8).cast_signed()).cast_unsigned(),
        Extension::Half64 => i64::from(((a % 0x1_0000) as u16).cast_signed()).cast_unsigned(),
        Extension::Word64 => i64::from(low32(a).cast_signed()).cast_unsigned(),
        Extension::Byte32 => {
            u64::from(i32::from(((a % 0x100) as u8).cast_signed()).cast_unsigned())
        }
        Extension::Half32 => {
            u64::from(i32::from(((a % 0x1_0000) as u16).cast_signed()).cast_unsigned())
        }
    }
}

#[inline(always)]
fn keep(width: OrderWidth, a: u64) -> u64
    ensures { result ≡ kept (order_width width) a }
{
    match width {
        OrderWidth::Order16 => a % 0x1_0000,
        OrderWidth::Order32 => a % 0x1_0000_0000,
        OrderWidth::Order64 => a,
    }
}

#[inline(always)]
fn reverse(width: OrderWidth, a: u64) -> u64
    ensures { result ≡ reversed (order_width width) a }
{
    match width {
        OrderWidth::Order16 => u64::from(((a % 0x1_0000) as u16).swap_bytes()),
        OrderWidth::Order32 => u64::from(low32(a).swap_bytes()),
        OrderWidth::Order64 => a.swap_bytes(),
    }
}

/// The low bits in another byte order, on a little-endian machine.
#[inline(always)]
pub fn reorder(order: ByteOrder, width: OrderWidth, a: u64) -> u64
    ensures { result ≡ order_of order width a }
{
    match order {
        ByteOrder::Little => keep(width, a),
        ByteOrder::Big | ByteOrder::Swap => reverse(width, a),
    }
}

// Whether a condition holds of two numbers of one width.
macro_rules! held {
    ($condition:expr, $a:expr, $b:expr) => {
        match $condition {
            Condition::Equal => $a == $b,
            Condition::Greater => $a > $b,
            Condition::GreaterOrEqual => $a >= $b,
            Condition::AnyBit => $a & $b != 0,
            Condition::NotEqual => $a != $b,
            Condition::SignedGreater => $a.cast_signed() > $b.cast_signed(),
            Condition::SignedGreaterOrEqual => $a.cast_signed() >= $b.cast_signed(),
            Condition::Less => $a < $b,
            Condition::LessOrEqual => $a <= $b,
            Condition::SignedLess => $a.cast_signed() < $b.cast_signed(),
            Condition::SignedLessOrEqual => $a.cast_signed() <= $b.cast_signed(),
        }
    };
}

#[inline(always)]
fn holds64(condition: Condition, a: u64, b: u64) -> bool
    ensures { result ≡ test_of condition w64 a b }
{
    held!(condition, a, b)
}

#[inline(always)]
fn holds32(condition: Condition, a: u32, b: u32) -> bool
    ensures { result ≡ test_of condition w32 a b }
{
    held!(condition, a, b)
}

/// Whether the condition holds of the two numbers.
#[inline(always)]
pub fn holds(width: Width, condition: Condition, a: u64, b: u64) -> bool
    ensures { result ≡ is_taken (is_64 width) condition a b }
{
    match width {
        Width::Bits64 => holds64(condition, a, b),
        Width::Bits32 => holds32(condition, low32(a), low32(b)),
    }
}
