// A journal in memory.

ghost use Rattle.std.specs.Prelude.{◌≡◌, []};
ghost use Rattle.journals.specs.declared.journal.NotKept.TheVariants.{Memory};

use crate::copying::copy_events;
use crate::journal::{Journal, NotKept};
use std::alloc::{AllocError, Global};
use std::marker::Model;
use tc_log::log::Log;

/// A journal in memory, which outlasts a run and no crash. Contracts see it as what it has kept, the oldest
/// event first.
#[derive(Drop)]
pub struct MemoryJournal {
    alloc: Global,
    log: Log,
}

impl Model for MemoryJournal {
    ghost use Rattle.std.specs.Prelude.{List, reverse};
    ghost use Rattle.tc_log.specs.declared.event.Event.{Event};

    ghost Value = { List Event };

    ghost view = { λ journal. reverse journal.log.events };
}

impl MemoryJournal {
    ghost use Rattle.std.specs.Prelude.{◌≡◌, [], reverse};

    /// It has kept nothing yet. It takes no memory.
    pub fn new(alloc: Global) -> MemoryJournal
        ensures { result ≡ [] }
    {
        MemoryJournal {
            alloc,
            log: Log::new(alloc),
        }
    }

    /// What it has kept, the oldest event first.
    pub fn events(&self) -> &Log
        ensures { reverse result.now.events ≡ self.now }
    {
        &self.log
    }
}

impl Journal for MemoryJournal {
    ghost use Rattle.std.specs.Prelude.{true};

    ghost keeps = { λ journal. true };

    ghost has_kept = { λ journal events. journal ≡ events };

    ghost moment = { λ journal. 0 };

    ghost left_since = { λ journal since left. ⊥ };

    ghost leaves = { λ journal before more left. ⊥ };

    ghost fails = { λ before why after. why ≡ Memory };

    ghost kept_now = { λ journal events left kept now. now };

    fn keeps(&self) -> bool {
        true
    }

    fn keep(&mut self, events: &Log) -> Result<(), NotKept> {
        match copy_events(self.alloc, events, 0, &mut self.log) {
            Ok(()) => Ok(()),
            Err(AllocError) => Err(NotKept::Memory),
        }
    }
}
