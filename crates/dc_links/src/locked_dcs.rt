// The link to data components of this process.

ghost use Rattle.std.specs.Prelude.{◌≡◌, true, ◌<◌, ◌≤◌, ◌↔◌, None, vec_len, IfOk, IfSome, IsSome};
ghost use Rattle.access_slots.specs.Locks.{target};

use crate::link::{Link, Outstanding, wire_for};
use crate::seat::perform_all;
use crate::waiting::acquire;
use access_slots::op::{News, Reply, Wire};
use data_component::dc::Dc;
use std::alloc::{AllocError, Global};
use std::sync::{Mutex, Wait};

/// A link to data components, numbered from 0, each behind a lock of its own: two workers wait for
/// one another only where their operations are of one component.
#[derive(Drop)]
pub struct LockedDcs {
    dcs: Vec<Mutex<Dc>>,
}

impl LockedDcs {
    /// A link to these components.
    pub fn new(alloc: Global, dcs: Vec<Dc>) -> Result<LockedDcs, AllocError>
        ensures { IfOk result (λ link. vec_len link.dcs ≡ vec_len dcs) }
    {
        let mut locked = Vec::with_capacity(alloc, dcs.len())?;
        for dc in dcs {
            locked.push(Mutex::new(dc))?;
        }
        Ok(LockedDcs { dcs: locked })
    }

    /// How many components there are.
    pub fn count(&self) -> usize
        ensures { result ≡ vec_len self.now.dcs }
    {
        self.dcs.len()
    }

    /// The component with this number, if there is one, where no worker is at work. That it is the one
    /// with which this link was made is no clause: of what a lock holds its type alone is known.
    pub fn get_mut(&mut self, dc: u16) -> Option<&mut Dc>
        ensures { IsSome result ↔ (dc < vec_len self.old.dcs) }
    {
        Some(self.dcs.get_mut(usize::from(dc))?.get_mut())
    }

    /// The components, in their order, where no worker is at work. Of what was done to each no clause
    /// tells, as of [`LockedDcs::get_mut`]; where that matters, a [`RingLink`](crate::RingLink) serves
    /// them.
    pub fn into_dcs(self, alloc: Global) -> Result<Vec<Dc>, AllocError>
        ensures { IfOk result (λ dcs. vec_len dcs ≡ vec_len self.dcs) }
    {
        let LockedDcs { dcs: locked } = self;
        let mut dcs = Vec::with_capacity(alloc, locked.len())?;
        for dc in locked {
            dcs.push(dc.into_inner())?;
        }
        Ok(dcs)
    }
}

impl Link for LockedDcs {
    /// What the wire's component replies; nothing where there is no such component.
    #[inline(always)]
    fn carry<R: Wait>(&self, rt: &R, _worker: usize, wire: &Wire) -> Option<Reply>
        ensures absent { vec_len self.now.dcs ≤ (target wire.now.op).dc → result ≡ None }
        ensures number { IfSome result (λ reply. reply.number ≡ wire.now.number) }
    {
        let dc = self.dcs.get(usize::from(wire.op.record().dc))?;
        acquire(rt, dc).perform(wire)
    }

    /// Nothing: no component of this process restarts.
    fn news<R: Wait>(&self, _rt: &R, _worker: usize, _dc: u16) -> Option<News>
        ensures { result ≡ None }
    {
        None
    }

    /// Yes: who waits for a component's lock waits for the work of a moment.
    fn is_prompt(&self) -> bool
        ensures { result ≡ true }
    {
        true
    }

    /// What the wire's component replies; nothing where there is no such component.
    fn perform_at_once<R: Wait>(&self, rt: &R, wire: &Wire) -> Option<Reply>
        ensures absent { vec_len self.now.dcs ≤ (target wire.now.op).dc → result ≡ None }
        ensures number { IfSome result (λ reply. reply.number ≡ wire.now.number) }
    {
        self.carry(rt, 0, wire)
    }

    /// Each component's lock is taken once for all wires that are for it.
    fn carry_all<O: Outstanding, R: Wait>(&self, rt: &R, _worker: usize, requests: &mut [O]) {
        for (number, dc) in self.dcs.iter().enumerate() {
            if requests
                .iter()
                .any(|request| wire_for(request, number).is_some())
            {
                perform_all(&mut *acquire(rt, dc), number, requests);
            }
        }
    }
}
