// Copies of events, which are written without the lock under which the events lie.

ghost use Rattle.std.specs.Prelude.{◌≡◌, ◌≤◌, drop, length, reverse, OnOk};

use journals::copy_events;
use std::alloc::{AllocError, Global};
use std::marker::Model;
use tc_log::log::Log;

/// Copies of events, as a log of their own. Contracts see them as a list, the oldest event first.
#[derive(Drop)]
pub struct Batch {
    alloc: Global,
    log: Log,
}

impl Model for Batch {
    ghost use Rattle.std.specs.Prelude.{List, reverse};
    ghost use Rattle.tc_log.specs.declared.event.Event.{Event};

    ghost Value = { List Event };

    ghost view = { λ b. reverse b.log.events };
}

impl Batch {
    /// No event yet. It takes no memory.
    pub fn new(alloc: Global) -> Batch {
        Batch {
            alloc,
            log: Log::new(alloc),
        }
    }

    /// The events.
    pub fn log(&self) -> &Log
        ensures { reverse result.now.events ≡ self.now }
    {
        &self.log
    }

    /// Copies of a log's events from this place on, in place of those that there are.
    pub fn fill(&mut self, log: &Log, from: usize) -> Result<(), AllocError>
        requires { from ≤ length log.now.events }
        ensures { OnOk result (self.new ≡ drop from (reverse log.now.events)) }
    {
        self.log = Log::new(self.alloc);
        self.log.reserve(log.len() - from)?;
        copy_events(self.alloc, log, from, &mut self.log)
    }
}
