//! The numbers of this profile, which the definitions cite.

/// The helper that reads a record into the slot's buffer.
pub const READ: i32 = 1;
/// The helper that inserts the slot's buffer as a record.
pub const INSERT: i32 = 2;
/// The helper that updates a record with the slot's buffer.
pub const UPDATE: i32 = 3;
/// The helper that deletes a record.
pub const DELETE: i32 = 4;
/// The helper that answers the address of the slot's buffer, and sends nothing.
pub const BUFFER: i32 = 5;

/// How many bytes the stack has.
pub const STACK_BYTES: usize = 512;
/// How many bytes a layout keeps for the arguments: eight of eight bytes.
pub const ARGUMENTS_BYTES: usize = 64;
/// How many bytes a slot's buffer has, as many as a value.
pub const BUFFER_BYTES: usize = 64;
