//! The numbers of the calls, as a frame's `what` has them. `mazzulpe.h` says of each what the frame holds.

/// Begins a transaction component over `number` data components, in an engine that isn't started.
pub const START_TC: u32 = 1;

/// Begins a data component with room for so many rows and operations, in an engine that isn't started.
pub const START_DC: u32 = 2;

/// Begins a program, in an engine that isn't started.
pub const START_CODE: u32 = 3;

/// Takes a piece of code, or of other bytes, behind those that came before.
pub const BYTES: u32 = 10;

/// Takes an access slot behind those that came before.
pub const SLOT: u32 = 11;

/// Forgets the bytes, slots and notes that came before.
pub const CLEAR: u32 = 12;

/// Loads the code and slots that came as a procedure of this name.
pub const LOAD: u32 = 13;

/// Finds a procedure by its name.
pub const FIND: u32 = 14;

/// Takes what was noted of one more data component, for `RECOVER`.
pub const NOTE: u32 = 15;

/// Recovers from the log whose rows came as bytes.
pub const RECOVER: u32 = 16;

/// Admits a call.
pub const ADMIT: u32 = 20;

/// Whether all that stand in a call's way are in doubt or stuck.
pub const BLOCKED: u32 = 21;

/// What an open transaction asks next.
pub const ASK: u32 = 22;

/// What an open transaction that is undoing sends next.
pub const UNDO: u32 = 23;

/// The wire of an open request.
pub const WIRE: u32 = 24;

/// Takes a reply to an open request in.
pub const ANSWER: u32 = 25;

/// Gives an open request up: its transaction is in doubt.
pub const GIVE_UP: u32 = 26;

/// Ends a transaction that is over.
pub const END: u32 = 27;

/// How many transactions are open.
pub const OPEN_COUNT: u32 = 28;

/// How many events the log has.
pub const LOG_LENGTH: u32 = 29;

/// The 96 bytes of an event.
pub const LOG_BYTES: u32 = 30;

/// What is known of a data component.
pub const SITE: u32 = 31;

/// Takes news of a restart in.
pub const TOLD: u32 = 32;

/// What is redone next at a data component that is down.
pub const REDO_NEXT: u32 = 33;

/// Takes the reply to what is redone in.
pub const REDONE: u32 = 34;

/// Begins the log anew.
pub const LOG_ANEW: u32 = 35;

/// The low-water mark, and the number that was given out last.
pub const LOW_WATER: u32 = 36;

/// The next open transaction from a serial number on.
pub const OPEN_FROM: u32 = 37;

/// An open transaction's request that nobody holds.
pub const RETAKE: u32 = 38;

/// A lock that an open transaction holds, by its place.
pub const LOCK_AT: u32 = 39;

/// Performs a wire.
pub const PERFORM: u32 = 40;

/// Restarts a data component.
pub const RESTART: u32 = 41;

/// The value of a record.
pub const GET: u32 = 42;

/// How many rows a data component has.
pub const ROWS: u32 = 43;

/// A row, by its place.
pub const ROW: u32 = 44;

/// The low-water mark that a data component knows.
pub const MARK: u32 = 45;

/// Takes a checkpoint of a data component.
pub const CHECKPOINT: u32 = 46;

/// How often a data component has restarted.
pub const INCARNATION: u32 = 47;

/// Tells a data component a low-water mark.
pub const HEAR_MARK: u32 = 48;

/// Drops what a data component performed and its checkpoint has.
pub const FORGET: u32 = 49;

/// Verifies the code and slots that came.
pub const VERIFY: u32 = 50;

/// Runs verified code from its beginning, to a question or the end.
pub const RUN: u32 = 51;

/// Goes on with a run behind the answer to its question.
pub const RESUME: u32 = 52;

/// The next open transaction, from a serial number on, that waits for a data component.
pub const WAITING_FROM: u32 = 60;

/// What is redone next behind a number, where several are redone at once.
pub const REDO_BEHIND: u32 = 61;

/// What a slot of a call holds whose run has ended.
pub const RESULT: u32 = 62;

/// Prepares what has to be written behind the end of the log's file.
pub const FILE_AHEAD: u32 = 63;

/// A piece of what was prepared.
pub const FILE_BYTES: u32 = 64;

/// Recovers from the bytes of the log's file, which came as code does.
pub const FILE_BACK: u32 = 65;

/// The session of the log.
pub const SESSION: u32 = 66;

/// Gives the log a session.
pub const SET_SESSION: u32 = 67;
