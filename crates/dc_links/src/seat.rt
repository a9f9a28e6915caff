// Where a data component is that is served.

ghost use Rattle.std.specs.Prelude.{◌≡◌, ℕ, None, Some, IfErr, IfOk, IfSome};
ghost use Rattle.data_component.specs.Store.{Store, performed, replied};
ghost use Rattle.dc_links.specs.Serving.{IsFor, IsServed};
ghost use Rattle.dc_links.specs.Joining.Seated.{GoesOn, HasRisen, IsHolding, sitting};

use crate::link::{Outstanding, wire_for};
use crate::served::{Part, Served};
use crate::waiting::LOOKS;
use access_slots::op::{Reply, Wire};
use atomic_table::{Play, Table, TableRule};
use data_component::dc::Dc;
use std::alloc::{AllocError, Global};
use std::sync::Wait;
use std::{hint, thread};

// What the component with this number does with a wire. One for another is met with silence.
#[inline(always)]
fn perform_own(dc: &mut Dc, number: usize, wire: &Wire) -> Option<Reply>
    ensures store { IsFor number wire.now → dc.new ≡ performed dc.old wire.now }
    ensures reply { IsFor number wire.now → result ≡ replied dc.old wire.now }
    ensures other { (IsFor number wire.now → ⊥) → (dc.new ≡ dc.old) × (result ≡ None) }
{
    if usize::from(wire.op.record().dc) == number {
        dc.perform(wire)
    } else {
        None
    }
}

// Has the component with this number perform a request's wire, if that is for it.
#[inline(always)]
fn perform_request<O: Outstanding>(dc: &mut Dc, number: usize, request: &mut O)
    ensures { IsServed number dc.old dc.new }
{
    let Some(wire) = wire_for(request, number) else {
        return;
    };
    if let Some(reply) = dc.perform(wire) {
        request.bring(reply);
    }
}

/// Has the component with this number perform the requests' wires that are for it.
#[inline(always)]
pub fn perform_all<O: Outstanding>(dc: &mut Dc, number: usize, requests: &mut [O])
    ensures { IsServed number dc.old dc.new }
{
    for request in requests {
        perform_request(dc, number, request);
    }
}

/// What a thread knows of a seat. It has no bytes.
pub type Pass = atomic_table::Seat<Option<Served>, Part>;

/// The rule of a seat: one thread at a time has what lies there.
pub struct OneAtATime;

impl TableRule<Option<Served>, Part, ()> for OneAtATime {
    ghost use Rattle.dc_links.specs.declared.served.Part.TheVariants.{Away};
    ghost use Rattle.dc_links.specs.Joining.Seated.{IsSeat};

    ghost holds = { λ _. IsSeat };

    ghost first = { λ _. Away };
}

// The steps at a seat.
struct Taken;

impl Play<Option<Served>, Part> for Taken {
    ghost use Rattle.dc_links.specs.Joining.Seated.{taken};

    ghost then = { taken };
}

struct Risen;

impl Play<Option<Served>, Part> for Risen {
    ghost use Rattle.dc_links.specs.Joining.Seated.{risen};

    ghost then = { risen };
}

struct PutBack;

impl Play<Option<Served>, Part> for PutBack {
    ghost use Rattle.dc_links.specs.Joining.Seated.{put_back};

    ghost then = { put_back };
}

struct SatDown;

impl Play<Option<Served>, Part> for SatDown {
    ghost use Rattle.dc_links.specs.Joining.Seated.{sat_down};

    ghost then = { sat_down };
}

// What a component there does with a wire. Nothing where none is there.
fn perform_there(there: &mut Option<Served>, wire: &Wire) -> Option<Option<Reply>>
    ensures goes_on { GoesOn there.old there.new }
    ensures number { IfSome result (λ said. IfSome said (λ reply. reply.number ≡ wire.now.number)) }
{
    match there {
        Some(served) => Some(perform_own(&mut served.dc, served.number, wire)),
        None => None,
    }
}

// Has a component there perform the wires that are for it. Whether one is there.
fn perform_all_there<O: Outstanding>(there: &mut Option<Served>, requests: &mut [O]) -> bool
    ensures { GoesOn there.old there.new }
{
    match there {
        Some(served) => {
            perform_all(&mut served.dc, served.number, requests);
            true
        }
        None => false,
    }
}

// Puts the component there; it comes back where another one is.
fn put_there(there: &mut Option<Served>, number: usize, dc: Dc) -> Result<(), Dc>
    ensures put { IfOk result (λ _. (there.old ≡ None) × (there.new ≡ Some (record { number = number; dc = dc }))) }
    ensures back { IfErr result (λ back. (there.new ≡ there.old) × (back ≡ dc)) }
{
    if there.is_some() {
        return Err(dc);
    }
    *there = Some(Served { number, dc });
    Ok(())
}

// Of the word: nobody has the seat in hands.
const FREE: u64 = 0;

// Somebody has.
const IN_HANDS: u64 = 1;

/// The place of a component, which is empty while nobody serves it. Whoever finds it free has the component
/// perform wires there and then. It is a spin lock whose ghost rule ties what lies under it to the thread that put it
/// there.
#[derive(Drop)]
pub struct Seat {
    table: Table<Option<Served>, Part, (), OneAtATime, Global>,
    ghost sized: { (table.shared.table_id.words ≡ 1) × (table.shared.table_id.slots ≡ 1) },
}

impl Seat {
    /// Nobody serves a component there.
    pub fn empty(alloc: Global) -> Result<Seat, AllocError> {
        let (table, _pass) = Table::vacant(alloc, &[FREE], 1, &())?;
        Ok(Seat { table })
    }

    fn is_free(&self) -> bool {
        self.table.shared.peek(0) == FREE
    }

    // Takes it, if it is free or gets free in a moment.
    fn look(&self) -> Option<Pass>
        ensures own { IfSome result (λ pass. pass.table_id ≡ self.now.table.shared.table_id) }
        ensures held { IfSome result (λ pass. IsHolding pass.me) }
    {
        for _ in 0..LOOKS {
            if self.is_free() {
                let (found, pass) = self.table.shared.swap_new_seat::<Taken>(0, IN_HANDS);
                if found == FREE {
                    return Some(pass);
                }
            }
            hint::spin_loop();
        }
        None
    }

    // The same, which is waited for. It is in hands for a few microseconds at a time; where who has it lost
    // its processor, who waits lends its own.
    fn take<R: Wait>(&self, rt: &R) -> Pass
        ensures own { result.table_id ≡ self.now.table.shared.table_id }
        ensures held { IsHolding result.me }
    {
        for _ in rt.forever() {
            if let Some(pass) = self.look() {
                return pass;
            }
            thread::yield_now();
        }
        unreachable!()
    }

    // Puts it back.
    fn put_back(&self, mut pass: Pass)
        requires own { pass.table_id ≡ self.now.table.shared.table_id }
        requires held { IsHolding pass.me }
    {
        self.table.shared.store::<PutBack>(&mut pass, 0, FREE);
    }

    /// The component is served there from now on, and who has the pass is its owner; it comes back where another
    /// one is.
    pub fn sit<R: Wait>(&self, rt: &R, number: usize, dc: Dc) -> Result<Pass, Dc>
        ensures own { IfOk result (λ pass. pass.table_id ≡ self.now.table.shared.table_id) }
        ensures sits { IfOk result (λ pass. pass.me ≡ sitting (record { number = number; first = dc })) }
        ensures back { IfErr result (λ back. back ≡ dc) }
    {
        let mut pass = self.take(rt);
        match put_there(pass.slot_mut(&self.table.shared, 0), number, dc) {
            Ok(()) => {
                self.table.shared.store::<SatDown>(&mut pass, 0, FREE);
                Ok(pass)
            }
            Err(dc) => {
                self.put_back(pass);
                Err(dc)
            }
        }
    }

    // The owner takes it into its hands, and is the owner no longer.
    fn rise<R: Wait>(&self, rt: &R, pass: &mut Pass)
        requires own { pass.old.table_id ≡ self.now.table.shared.table_id }
        requires sits { (began : _) × (pass.old.me ≡ sitting began) }
        ensures own { pass.new.table_id ≡ pass.old.table_id }
        ensures risen { HasRisen pass.old.me pass.new.me }
    {
        for _ in rt.forever() {
            if self.is_free() && self.table.shared.swap::<Risen>(pass, 0, IN_HANDS) == FREE {
                return;
            }
            thread::yield_now();
        }
        unreachable!()
    }

    /// The owner's component leaves.
    pub fn leave<R: Wait>(&self, rt: &R, mut pass: Pass) -> Dc
        requires own { pass.table_id ≡ self.now.table.shared.table_id }
        requires sits { (began : _) × (pass.me ≡ sitting began) }
        ensures { (number : ℕ) (dc : Store) → pass.me ≡ sitting (record { number = number; first = dc })
            → IsServed number dc result }
    {
        self.rise(rt, &mut pass);
        let Some(served) = self.table.shared.exchange(&mut pass, 0, None) else {
            unreachable!()
        };
        self.put_back(pass);
        served.dc
    }

    // What the component does with a wire, before the seat is put back. Nothing where none is there.
    fn perform_held(&self, mut pass: Pass, wire: &Wire) -> Option<Option<Reply>>
        requires own { pass.table_id ≡ self.now.table.shared.table_id }
        requires held { IsHolding pass.me }
        ensures { IfSome result (λ said. IfSome said (λ reply. reply.number ≡ wire.now.number)) }
    {
        let said = perform_there(pass.slot_mut(&self.table.shared, 0), wire);
        self.put_back(pass);
        said
    }

    /// What the component does with a wire, in its turn.
    pub fn perform<R: Wait>(&self, rt: &R, wire: &Wire) -> Option<Reply>
        ensures { IfSome result (λ reply. reply.number ≡ wire.now.number) }
    {
        self.perform_held(self.take(rt), wire)?
    }

    /// What the component does with a wire, if its seat is free or gets free in a moment.
    pub fn try_perform(&self, wire: &Wire) -> Option<Option<Reply>>
        ensures { IfSome result (λ said. IfSome said (λ reply. reply.number ≡ wire.now.number)) }
    {
        self.perform_held(self.look()?, wire)
    }

    /// Has the component perform the wires that are for it, where it is free. Whether it was.
    pub fn try_perform_all<O: Outstanding>(&self, requests: &mut [O]) -> bool {
        let Some(mut pass) = self.look() else {
            return false;
        };
        let is_there = perform_all_there(pass.slot_mut(&self.table.shared, 0), requests);
        self.put_back(pass);
        is_there
    }
}
