// How workers are spread over partitions.

ghost use Rattle.std.specs.Prelude.{◌≡◌, ◌+◌, ◌<◌, ◌≤◌};
ghost use Rattle.partitions.specs.Spreading.{workers_of};

/// How many of so many workers the partition at this place has, of so many with calls: as many as each, one more in the
/// first ones where some are left, and one at least.
pub fn workers_of(workers: u64, partitions: u64, place: u64) -> u64
    requires { 0 < partitions }
    ensures value { result ≡ workers_of workers partitions place }
    ensures few { result ≤ workers + 1 }
{
    let each = workers / partitions;
    let left = workers % partitions;
    let own = if place < left { each + 1 } else { each };
    own.max(1)
}
