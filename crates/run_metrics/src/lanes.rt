// The lanes in which spans are drawn, so that no two of a lane meet.

ghost use Rattle.std.specs.Prelude.{◌≡◌, IfOk, OnOk};
ghost use Rattle.run_metrics.specs.Spans.{free_lane, lane_of, taken};

use std::alloc::AllocError;

// The first lane that is free at this time.
fn free_lane(until: &[u64], begun: u64) -> Option<usize>
    ensures { result ≡ free_lane until.now begun }
{
    until.iter().position(|end| *end <= begun)
}

/// The lane of a span that begins and ends then, which is taken so long: the first that is free, of those that are taken until
/// these times, or else a new one.
pub fn take_lane(until: &mut Vec<u64>, begun: u64, end: u64) -> Result<usize, AllocError>
    ensures lane { IfOk result (λ lane. lane ≡ lane_of until.old.items begun) }
    ensures taken { OnOk result (until.new.items ≡ taken until.old.items begun end) }
{
    match free_lane(until.as_slice(), begun) {
        Some(lane) => {
            if let Some(taken) = until.get_mut(lane) {
                *taken = end;
            }
            Ok(lane)
        }
        None => {
            let lane = until.len();
            until.push(end)?;
            Ok(lane)
        }
    }
}
