//! The value behind a handle.

ghost use Rattle.std.specs.Prelude.{◌≡◌, ◌≢◌, IfOk, IfErr};
ghost use Rattle.data_component.specs.Store.{Store};
ghost use Rattle.embedding.specs.Sound.{IsSoundBody};
ghost use Rattle.embedding.specs.Calling.{IsCalled, Begins, BegunBy, UnbegunBy, Serves, Keeps, Runs};
ghost use Rattle.embedding.specs.declared.code_part.CodePart.{CodePart as Program};
ghost use Rattle.embedding.specs.declared.filed_part.FiledPart.{FiledPart as Part};
ghost use Rattle.embedding.specs.declared.engine.Body.TheVariants.{Tc as IsTc, Dc as IsDc, Code as IsCode};

use crate::code_part::CodePart;
use crate::codes::{BAD_FRAME, DONE, MEMORY, NO_SUCH_CALL};
use crate::filed_part::FiledPart;
use crate::frame::Frame;
use crate::{call, dc_part};
use data_component::dc::Dc;
use std::alloc::Global;
use std::mem;

/// What an engine is.
pub enum Body {
    /// Not started.
    Empty,
    Tc(FiledPart),
    Dc(Dc),
    Code(CodePart),
}

/// A frame, and what the calls in it are for.
#[repr(C)]
pub struct Engine {
    pub frame: Frame,
    body: Body,
    alloc: Global,
}

/// An engine that isn't started. It takes no memory.
pub fn made(alloc: Global) -> Engine
    ensures { result.body ≡ Body.Empty }
{
    Engine {
        frame: Frame::zeros(),
        body: Body::Empty,
        alloc,
    }
}

fn close(body: Body) {
    match body {
        Body::Empty => {}
        Body::Tc(part) => part.close(),
        Body::Dc(dc) => drop(dc),
        Body::Code(part) => drop(part),
    }
}

/// Gives back all that it has.
pub fn finish(engine: Engine) {
    let Engine {
        frame: _,
        body,
        alloc: _,
    } = engine;
    close(body);
}

// What the frame begins.
fn started(alloc: Global, frame: &Frame) -> Result<Body, u32>
    ensures ok { IfOk result (BegunBy frame.now.what frame.now) }
    ensures err { IfErr result (λ code. code ≢ 0) }
    ensures why { IfErr result (UnbegunBy frame.now.what frame.now) }
{
    match frame.what {
        call::START_TC => {
            if frame.word > 65535 {
                return Err(BAD_FRAME);
            }
            match FiledPart::new(alloc, frame.word as u16) {
                Ok(part) => Ok(Body::Tc(part)),
                Err(_) => Err(MEMORY),
            }
        }
        call::START_DC => {
            if frame.word > 65536 || frame.place > 1_048_576 {
                return Err(BAD_FRAME);
            }
            match Dc::new(alloc, frame.word as usize, frame.place as usize) {
                Ok(dc) => Ok(Body::Dc(dc)),
                Err(_) => Err(MEMORY),
            }
        }
        call::START_CODE => Ok(Body::Code(CodePart::new(alloc))),
        _ => Err(NO_SUCH_CALL),
    }
}

fn start(alloc: Global, body: &mut Body, frame: &Frame) -> u32
    ensures refused { result ≢ 0 → body.new ≡ body.old }
    ensures why { result ≢ 0 → UnbegunBy frame.now.what frame.now result }
    ensures done { result ≡ 0 → BegunBy frame.now.what frame.now body.new }
{
    match started(alloc, frame) {
        Ok(new) => {
            close(mem::replace(body, new));
            DONE
        }
        Err(code) => code,
    }
}

fn serve_body(alloc: Global, body: &mut Body, frame: &mut Frame) -> u32
    ensures begun { body.old ≡ Body.Empty → Begins frame.old result body.new }
    ensures served { (part : Part) → body.old ≡ IsTc part → Serves part frame.old result body.new frame.new }
    ensures kept { (store : Store) → body.old ≡ IsDc store → Keeps store frame.old result body.new frame.new }
    ensures run { (program : Program) → body.old ≡ IsCode program → Runs program frame.old result body.new frame.new }
{
    match body {
        Body::Empty => start(alloc, body, frame),
        Body::Tc(part) => part.serve(frame),
        Body::Dc(dc) => dc_part::serve(dc, frame),
        Body::Code(part) => part.serve(frame),
    }
}

// What the types keep, told to a caller.
fn known(body: &Body)
    ensures { IsSoundBody body.now }
{
    match body {
        Body::Tc(part) => part.known(),
        Body::Empty | Body::Dc(_) | Body::Code(_) => {}
    }
}

/// Makes the call that the frame has, and answers a code. Where the code isn't 0, a transaction
/// component is as it was, and else it goes on as the call says. Whatever the frame is and whatever
/// was called before: its log is legal, and what is in flight is covered by its transaction's locks
/// and without conflict.
pub fn serve(engine: &mut Engine) -> u32
    ensures { IsCalled engine.old result engine.new }
{
    let code = serve_body(engine.alloc, &mut engine.body, &mut engine.frame);
    known(&engine.body);
    code
}

fn may_cross<T: Send>(_value: &T) {}

/// It may go from thread to thread, one call at a time. This does nothing, and is there for its proof.
pub fn crosses(engine: &Engine) {
    may_cross(engine);
}

/// How many bytes an engine takes.
pub fn size() -> usize {
    size_of::<Engine>()
}
