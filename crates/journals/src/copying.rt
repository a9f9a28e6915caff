// Copies of events.

ghost use Rattle.std.specs.Prelude.{◌≡◌, ◌++◌, ◌∷◌, drop, reverse, OnOk};

use std::alloc::{AllocError, Global};
use tc_log::event::Event;
use tc_log::log::Log;

/// Adds copies of a log's events from this place on, the oldest first, to another. Where there is no memory it
/// has some of them.
pub fn copy_events(alloc: Global, log: &Log, from: usize, out: &mut Log) -> Result<(), AllocError>
    ensures { OnOk result (reverse out.new.events ≡ reverse out.old.events ++ drop from (reverse log.now.events)) }
{
    'events: for place in from..log.len() {
        add(out, log.entry(place).copied(alloc)?)?;
    }
    Ok(())
}

// One event more.
fn add(out: &mut Log, event: Event) -> Result<(), AllocError>
    ensures { OnOk result (out.new.events ≡ event ∷ out.old.events) }
{
    out.reserve(1)?;
    out.push(event);
    Ok(())
}
