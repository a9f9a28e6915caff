//! A lane for each transaction: no two of a lane hold locks at one place.

ghost use Rattle.std.specs.Prelude.{◌≡◌, ◌≤◌, ◌<◌, IfOk, OnOk, IfSome, Some, vec_len, slice_get, length};
ghost use Rattle.log_picture.specs.Lives.{last_of};
ghost use Rattle.log_picture.specs.Lanes.{AreApart};
ghost use Rattle.log_picture.specs.Joining.Placing.{IsPlaced};

use crate::life::Life;
use std::alloc::{AllocError, Global};

/// The lane of each transaction, and how many lanes there are.
#[derive(Drop)]
pub struct Lanes {
    pub of: Vec<usize>,
    pub count: usize,
}

// The first lane whose last transaction is over before this place, or one more than there are.
fn free_lane(lasts: &[usize], begin: usize) -> usize
    ensures within { result ≤ length lasts.now }
    ensures free { IfSome (slice_get lasts.now result) (λ last. last < begin) }
{
    'lasts: for (lane, last) in lasts.iter().enumerate() {
        if *last < begin {
            return lane;
        }
    }
    lasts.len()
}

// Places a transaction in the first lane that is free. Of each lane is kept at which place its last locks are held.
fn place(lasts: &mut Vec<usize>, life: &Life) -> Result<usize, AllocError>
    ensures { IfOk result (λ lane. IsPlaced lasts.old.items lasts.new.items lane life.now.begin (last_of life.now)) }
{
    let lane = free_lane(lasts.as_slice(), life.begin);
    match lasts.get_mut(lane) {
        Some(last) => *last = life.last().max(*last),
        None => lasts.push(life.last())?,
    }
    Ok(lane)
}

/// A lane for each of these transactions, which stand in the order of their Admits.
pub fn lanes_of(alloc: Global, lives: &[Life]) -> Result<Lanes, AllocError>
    ensures { IfOk result (λ lanes. AreApart lives.now lanes.of.items lanes.count) }
{
    let mut of = Vec::new(alloc);
    let mut lasts = Vec::new(alloc);
    'lives: for life in lives {
        let lane = place(&mut lasts, life)?;
        of.push(lane)?;
    }
    Ok(Lanes {
        of,
        count: lasts.len(),
    })
}
