// A program behind a frame.

ghost use Rattle.std.specs.Prelude.{◌≡◌, ◌≢◌, None};
ghost use Rattle.embedding.specs.Gathering.{HasNothing, IsAsGathered, IsNoProcedure};
ghost use Rattle.embedding.specs.Programs.{IsStop, Accepts, Starts, WhyNotStarted, GoesOn, WhyNotGoneOn, IsRun};

use crate::call;
use crate::codes::{
    ARGUMENT_COUNT, BAD_FRAME, DONE, NO_PROCEDURE, NO_SUCH_CALL, NOTHING_OPEN, STRANGER,
};
use crate::frame::Frame;
use crate::gathered::Gathered;
use crate::program::Program;
use interpreter::pause::Pause;
use std::alloc::Global;

/// A program, if code was accepted, and what is handed in for the next one.
#[derive(Drop)]
pub struct CodePart {
    gathered: Gathered,
    program: Option<Program>,
}

// Where a run stopped: at its end with a value, or at an operation.
fn put_stop(frame: &mut Frame, pause: &Pause, executed: u32)
    ensures { IsStop frame.new pause.now executed }
{
    match pause {
        Pause::Exit(value) => {
            frame.op = 0;
            frame.word = *value;
        }
        Pause::Ask(op) => frame.put_operation(op),
    }
    frame.place = u64::from(executed);
}

impl CodePart {
    /// Nothing is accepted yet. It takes no memory.
    pub fn new(alloc: Global) -> CodePart
        ensures gathered { HasNothing result.gathered }
        ensures program { result.program ≡ None }
    {
        CodePart {
            gathered: Gathered::new(alloc),
            program: None,
        }
    }

    fn verify(&mut self, frame: &mut Frame) -> u32
        ensures refused { result ≢ 0 → self.new.program ≡ self.old.program }
        ensures why { result ≢ 0 → IsNoProcedure self.old.gathered frame.old result frame.new }
        ensures done { result ≡ 0 → Accepts self.old frame.old self.new frame.new }
        ensures gathered { IsAsGathered self.old.gathered self.new.gathered }
    {
        match self.gathered.verified(frame.word) {
            Ok(verified) => {
                frame.word = verified.code().len() as u64;
                self.program = Some(Program::new(verified));
                DONE
            }
            Err(wrong) => {
                let (code, place) = wrong.code();
                frame.place = place;
                code
            }
        }
    }

    fn run(&mut self, frame: &mut Frame) -> u32
        ensures refused { result ≢ 0 → self.new.program ≡ self.old.program }
        ensures why { result ≢ 0 → WhyNotStarted self.old frame.old result }
        ensures done { result ≡ 0 → Starts self.old frame.old self.new frame.new }
        ensures gathered { IsAsGathered self.old.gathered self.new.gathered }
    {
        let Some(program) = &mut self.program else {
            return NO_PROCEDURE;
        };
        let Some(args) = frame.arguments() else {
            return BAD_FRAME;
        };
        if args.len() != program.args() {
            return ARGUMENT_COUNT;
        }
        let (pause, executed) = program.start(args);
        put_stop(frame, &pause, executed);
        DONE
    }

    fn resume(&mut self, frame: &mut Frame) -> u32
        ensures refused { result ≢ 0 → self.new.program ≡ self.old.program }
        ensures why { result ≢ 0 → WhyNotGoneOn self.old frame.old result }
        ensures done { result ≡ 0 → GoesOn self.old frame.old self.new frame.new }
        ensures gathered { IsAsGathered self.old.gathered self.new.gathered }
    {
        let Some(program) = &mut self.program else {
            return NO_PROCEDURE;
        };
        if !program.waits() {
            return NOTHING_OPEN;
        }
        let Some(said) = frame.said() else {
            return BAD_FRAME;
        };
        match program.resume(said) {
            Some(stop) => {
                put_stop(frame, &stop.0, stop.1);
                DONE
            }
            None => STRANGER,
        }
    }

    /// Makes the call that the frame has.
    pub fn serve(&mut self, frame: &mut Frame) -> u32
        ensures { IsRun self.old frame.old result self.new frame.new }
    {
        match frame.what {
            call::BYTES => self.gathered.more_bytes(frame),
            call::SLOT => self.gathered.more_slots(frame),
            call::CLEAR => self.gathered.clear(),
            call::VERIFY => self.verify(frame),
            call::RUN => self.run(frame),
            call::RESUME => self.resume(frame),
            _ => NO_SUCH_CALL,
        }
    }
}
