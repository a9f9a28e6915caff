//! The engine for C: six functions over a pointer to its frame. `mazzulpe.h` declares them.
//!
//! Between calls the engine is the caller's memory: it begins with the frame, which the caller reads
//! and writes as it likes, and the rest is left alone.
//!
//! ```
//! mz_frame *engine = aligned_alloc(16, (mazzulpe_size() + 15) / 16 * 16);
//! mazzulpe_open(engine);
//! engine->what = 1; /* START_TC of embedding/src/call.rt */
//! uint32_t code = mazzulpe_call(engine);
//! mazzulpe_close(engine);
//! ```
#![tactic(auto)]

ghost use Rattle.std.specs.Prelude.{◌≡◌};
ghost use Rattle.std.specs.Borrow.{full_share, sem};
ghost use Rattle.std.specs.Ptr.{lies_at, room_at};
ghost use Rattle.embedding.specs.declared.engine.Engine.{Engine as State};
ghost use Rattle.embedding.specs.declared.engine.Body.TheVariants.{Empty};
ghost use Rattle.embedding.specs.Calling.{IsCalled};
ghost use Rattle.embedding.specs.contracts.engine.Engine.{the_row};

use embedding::engine::{self, Engine};
use embedding::frame::Frame;
use std::alloc::Global;

// It is 2 as soon as a frame's fields or a call's number mean something else.
const VERSION: u32 = 2;

/// How many bytes of memory an engine takes, which begin at a multiple of 16.
#[unsafe(no_mangle)]
pub extern "C" fn mazzulpe_size() -> usize {
    engine::size()
}

/// How many bytes of them are the frame, with which they begin.
#[unsafe(no_mangle)]
pub extern "C" fn mazzulpe_frame_size() -> usize {
    size_of::<Frame>()
}

/// The version of the frame and its calls.
#[unsafe(no_mangle)]
pub extern "C" fn mazzulpe_version() -> u32
    ensures { result ≡ 2 }
{
    VERSION
}

/// Makes an engine in this room.
#[unsafe(no_mangle)]
pub unsafe extern "C" fn mazzulpe_open(alloc: Global, at: *mut Frame)
    requires* { sem 𝓛 (room_at the_row at) }
    ensures* { ∃ₛ (λ (after : State). sem 𝓛 (lies_at the_row full_share at after) ∗ ⌜ after.body ≡ Empty ⌝) }
{
    (at as *mut Engine).write(engine::made(alloc));
}

/// Makes the call that the frame of this engine has, and answers its code.
#[unsafe(no_mangle)]
pub unsafe extern "C" fn mazzulpe_call(at: *mut Frame) -> u32
    ghost before: { State }
    requires* { sem 𝓛 (lies_at the_row full_share at before) }
    ensures* { ∃ₛ (λ (after : State). sem 𝓛 (lies_at the_row full_share at after) ∗ ⌜ IsCalled before result after ⌝) }
{
    engine::serve(&mut *(at as *mut Engine))
}

/// Gives back what this engine has. Its memory is room again.
#[unsafe(no_mangle)]
pub unsafe extern "C" fn mazzulpe_close(at: *mut Frame)
    ghost before: { State }
    requires* { sem 𝓛 (lies_at the_row full_share at before) }
    ensures* { sem 𝓛 (room_at the_row at) }
{
    engine::finish((at as *mut Engine).read());
}
