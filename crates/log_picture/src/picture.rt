//! The whole picture.

ghost use Rattle.std.specs.Prelude.{◌≡◌, length, IfOk};
ghost use Rattle.log_picture.specs.Picture.{IsPicture, ways_of};
ghost use Rattle.log_picture.specs.Joining.Tracks.{AreTracks};

use crate::busiest::{RecordRow, busiest_of};
use crate::lanes::{Lanes, lanes_of};
use crate::life::{Life, lives_in};
use crate::way::{Way, ways_in};
use std::alloc::{AllocError, Global};
use tc_log::events::Events;

/// A transaction in its lane, with its numbers.
#[derive(Drop)]
pub struct Track {
    pub life: Life,
    /// From 0.
    pub lane: usize,
    pub ways: Vec<Way>,
}

/// What is to be seen of a log from a place on.
#[derive(Drop)]
pub struct Picture {
    /// In the order of their Admits.
    pub tracks: Vec<Track>,
    pub lanes: usize,
    /// The records that most of them use.
    pub rows: Vec<RecordRow>,
}

// The numbers of a transaction, but for those that are answered before the place `from`.
fn ways_of(
    alloc: Global,
    events: &Events<'_>,
    from: usize,
    life: &Life,
) -> Result<Vec<Way>, AllocError>
    ensures { IfOk result (λ ways. ways.items ≡ ways_of from events.now life.now) }
{
    if life.begin >= events.len() {
        return Ok(Vec::new(alloc));
    }
    let first = life.begin + 1;
    ways_in(alloc, life.txn, from, first, &events.behind(first))
}

// Each transaction with its numbers, in its lane.
fn tracks_of(
    alloc: Global,
    events: &Events<'_>,
    from: usize,
    lives: &[Life],
    lanes: &[usize],
) -> Result<Vec<Track>, AllocError>
    requires { length lanes.now ≡ length lives.now }
    ensures { IfOk result (λ tracks. AreTracks from events.now lives.now lanes.now tracks.items) }
{
    let mut tracks = Vec::new(alloc);
    'lives: for (index, life) in lives.iter().enumerate() {
        let ways = ways_of(alloc, events, from, life)?;
        tracks.push(Track {
            life: *life,
            lane: lanes[index],
            ways,
        })?;
    }
    Ok(tracks)
}

/// The transactions that these events, the oldest first, leave open at the place `from` or behind it, in lanes, with
/// their numbers that are on their way there; and the records that most of them use.
pub fn pictured(alloc: Global, events: &Events<'_>, from: usize) -> Result<Picture, AllocError>
    ensures { IfOk result (IsPicture events.now from 16) }
{
    let lives = lives_in(alloc, events, from)?;
    let Lanes { of, count } = lanes_of(alloc, lives.as_slice())?;
    let tracks = tracks_of(alloc, events, from, lives.as_slice(), of.as_slice())?;
    let rows = busiest_of(alloc, tracks.as_slice())?;
    Ok(Picture {
        tracks,
        lanes: count,
        rows,
    })
}
