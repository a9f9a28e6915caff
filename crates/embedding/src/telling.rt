// What a transaction component says, written into a frame.

ghost use Rattle.std.specs.Prelude.{◌≡◌, ◌≢◌, ◌<◌, ◌≤◌, ◌+◌, ◌++◌, [], ◌∷◌, length, min, take, vec_len, vec_capacity, Some, IfOk, OnOk, OnErr};
ghost use Rattle.tc_core.specs.Lent.{wire_of};
ghost use Rattle.tc_log.specs.Printed.{printed};
ghost use Rattle.tc_log.specs.Entered.{seen};
ghost use Rattle.embedding.specs.Frames.{IsOf, Names};
ghost use Rattle.embedding.specs.Serving.{mode_number};
ghost use Rattle.embedding.specs.Telling.{Sends, Tells, requests_of, EndsAs, TellsRedo, TellsSite, TellsRefusal, TellsLoading};

use crate::codes::{self, DONE, MEMORY};
use crate::frame::Frame;
use access_slots::lock::Lock;
use access_slots::slot::Mode;
use std::alloc::{AllocError, Global};
use tc_core::procs::LoadRefusal;
use tc_core::state::{Asked, Redo, Refusal, Request, TcState};
use tc_log::event::{Entry, Outcome};
use tc_log::log::Log;
use transactions::{Sent, Site};

/// Makes room for one more request.
pub fn make_room(requests: &mut Vec<Request>) -> Result<(), AllocError>
    ensures room { OnOk result (vec_len requests.new < vec_capacity requests.new) }
    ensures full { OnErr result (vec_capacity requests.old ≤ vec_len requests.old) }
    ensures items { requests.new.items ≡ requests.old.items }
{
    requests.reserve(1)
}

/// Makes room for the requests of so many open transactions, so that no later call on these takes memory;
/// and for one more, since a call makes room before it is known whether it asks.
pub fn make_room_for(requests: &mut Vec<Request>, open: usize) -> Result<(), AllocError>
    ensures items { requests.new.items ≡ requests.old.items }
    ensures full { OnErr result (vec_capacity requests.old < vec_len requests.old + («open» + 1)) }
{
    requests.reserve(open.saturating_add(1))
}

/// What goes to the data component for a request now, or that nothing goes while that is down.
pub fn put_request(state: &TcState, request: &Request, frame: &mut Frame)
    ensures { Sends request.now frame.new (wire_of state.now request.now) }
{
    match state.wire(request) {
        Ok(wire) => {
            frame.kind = 1;
            frame.put_wire(&wire);
        }
        Err(_) => {
            frame.put_operation(&request.op());
            frame.kind = 8;
            frame.number = request.number();
        }
    }
}

/// What a transaction waits for, and whether its request is held.
pub fn put_sent(sent: &Sent, held: u32, frame: &mut Frame)
    ensures number { frame.new.number ≡ sent.now.number }
    ensures op { Names frame.new sent.now.op }
    ensures kind { frame.new.kind ≡ held }
    ensures place { frame.new.place ≡ frame.old.place }
    ensures txn { frame.new.txn ≡ frame.old.txn }
    ensures word { frame.new.word ≡ frame.old.word }
    ensures count { frame.new.count ≡ frame.old.count }
{
    frame.kind = held;
    frame.number = sent.number;
    frame.put_operation(&sent.op);
}

/// A lock: 1 for reading alone, 2 for both.
pub fn put_lock(lock: &Lock, frame: &mut Frame)
    ensures named { IsOf frame.new lock.now.«record» }
    ensures mode { frame.new.kind ≡ mode_number lock.now.mode }
    ensures txn { frame.new.txn ≡ frame.old.txn }
{
    frame.put_record(&lock.record);
    frame.kind = match lock.mode {
        Mode::Read => 1,
        Mode::Write => 2,
    };
}

/// Tells what a transaction does next. A request is kept until it is answered or given up.
pub fn tell(asked: Asked, state: &TcState, requests: &mut Vec<Request>, frame: &mut Frame)
    requires { vec_len requests.old < vec_capacity requests.old }
    ensures tells { Tells state.now asked frame.new }
    ensures requests { requests.new.items ≡ requests.old.items ++ requests_of asked }
{
    match asked {
        Asked::Request(request) => {
            put_request(state, &request, frame);
            requests.push_reserved(request);
        }
        Asked::Undoing => frame.kind = 2,
        Asked::Over => frame.kind = 3,
        Asked::Stuck(number) => {
            frame.kind = 4;
            frame.number = number;
        }
        Asked::Waits(number) => {
            frame.kind = 5;
            frame.number = number;
        }
        Asked::Running => frame.kind = 6,
        Asked::Unknown => frame.kind = 7,
    }
}

/// How a transaction ended.
pub fn put_outcome(frame: &mut Frame, outcome: Outcome)
    ensures { EndsAs (Some outcome) frame.new }
{
    match outcome {
        Outcome::Committed => {
            frame.kind = 1;
            frame.word = 0;
        }
        Outcome::Aborted(value) => {
            frame.kind = 2;
            frame.word = value;
        }
        Outcome::NoRoom => {
            frame.kind = 3;
            frame.word = 0;
        }
    }
}

/// Why a call isn't admitted; of a lock in the way the record and its holder.
pub fn put_refusal(refusal: Refusal, frame: &mut Frame) -> u32
    ensures refused { result ≢ 0 }
    ensures told { TellsRefusal refusal result frame.new }
{
    match refusal {
        Refusal::NoProcedure => codes::NO_PROCEDURE,
        Refusal::ArgumentCount => codes::ARGUMENT_COUNT,
        Refusal::Busy(busy) => {
            frame.put_record(&busy.name);
            frame.txn = busy.holder;
            codes::BUSY
        }
        Refusal::NumbersSpent => codes::NUMBERS_SPENT,
        Refusal::Memory => MEMORY,
    }
}

/// Why a procedure isn't loaded; of a data component that isn't there the slot.
pub fn put_loading(refusal: LoadRefusal, frame: &mut Frame) -> u32
    ensures refused { result ≢ 0 }
    ensures told { TellsLoading refusal result frame.new }
{
    match refusal {
        LoadRefusal::NameTaken => codes::NAME_TAKEN,
        LoadRefusal::DcUnknown(slot) => {
            frame.place = slot as u64;
            codes::DC_UNKNOWN
        }
        LoadRefusal::Memory => MEMORY,
    }
}

/// How the redo of a data component goes on.
pub fn put_redo(redo: Redo, frame: &mut Frame) -> u32
    ensures { TellsRedo redo result frame.new }
{
    match redo {
        Redo::Send(wire) => {
            frame.kind = 1;
            frame.put_wire(&wire);
            DONE
        }
        Redo::Finished => {
            frame.kind = 2;
            DONE
        }
        Redo::NotDown => codes::NOT_DOWN,
        Redo::NoDc => codes::NO_DC,
    }
}

/// What is known of a data component.
pub fn put_site(site: &Site, frame: &mut Frame)
    ensures { TellsSite site.now frame.new }
{
    frame.incarnation = site.incarnation;
    match site.redo {
        None => frame.kind = 1,
        Some(redo) => {
            frame.kind = 2;
            frame.low_water = redo.mark;
            frame.number = redo.redone;
        }
    }
}

/// The bytes of an event, as a log with it alone has them.
pub fn bytes_of(alloc: Global, event: &Entry<'_>) -> Result<Vec<u8>, AllocError>
    ensures { IfOk result (λ bytes. bytes.items ≡ printed (seen event.now)) }
{
    let event = event.copied(alloc)?;
    let mut log = Log::new(alloc);
    log.reserve(1)?;
    log.push(event);
    log.print(alloc)
}

/// The first 256 of these bytes.
pub fn put_bytes(frame: &mut Frame, bytes: &[u8])
    ensures count { frame.new.count ≡ min (length bytes.now) 256 }
    ensures bytes { take frame.new.count frame.new.bytes ≡ take frame.new.count bytes.now }
{
    let count = bytes.len().min(256);
    frame.bytes[..count].copy_from_slice(&bytes[..count]);
    frame.count = count as u32;
}
