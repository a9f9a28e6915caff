//! Workloads of code: decoded, verified and run.

ghost use Rattle.std.specs.Prelude.{◌≡◌, length, IfSome};

use access_slots::decl::Decl;
use access_slots::slot::{Key, Mode, Slot};
use bpf_encoding::decode::decode;
use interpreter::layout::Layout;
use interpreter::machine::Machine;
use interpreter::pause::Pause;
use std::alloc::Global;
use verifier::verify::{Verified, verify};

/// Code with its arguments, what it answers and how many instructions that takes.
#[derive(Drop)]
pub struct Workload {
    bytes: Vec<u8>,
    args: Vec<u64>,
    answer: u64,
    executed: u32,
}

/// How much was done.
#[derive(Clone, Copy, Debug, Default, PartialEq, Eq)]
pub struct Done {
    /// Slots that were decoded and verified.
    pub slots: u64,
    /// Instructions that were executed.
    pub instructions: u64,
    /// Workloads that the verifier refuses.
    pub refused: u64,
    /// Runs that came to another answer or count than the workload says.
    pub wrong: u64,
}

/// The workload that a line says. Its words are apart by tabs: a name, the code as hex text, how
/// many arguments there are, the arguments, the answer, a number that isn't read, and how many
/// instructions are executed.
pub fn read_workload(alloc: Global, line: &str) -> Option<Workload> {
    let words = line.split('\t').collect::<Vec<&str>>(alloc).ok()?;
    let workload = workload_of(alloc, words.as_slice());
    drop(words);
    workload
}

fn workload_of(alloc: Global, words: &[&str]) -> Option<Workload> {
    let count: usize = words.get(2)?.parse().ok()?;
    let behind = words.get(3..)?;
    let answer = behind.get(count)?.parse().ok()?;
    let executed = behind.get(count.checked_add(2)?)?.parse().ok()?;
    let args = numbers_of(alloc, behind.get(..count)?)?;
    match hex::decode(alloc, words.get(1).copied().unwrap_or_default()) {
        Ok(bytes) => Some(Workload {
            bytes,
            args,
            answer,
            executed,
        }),
        Err(_) => {
            drop(args);
            None
        }
    }
}

fn numbers_of(alloc: Global, words: &[&str]) -> Option<Vec<u64>> {
    let mut numbers = Vec::new(alloc);
    match push_numbers(words, &mut numbers) {
        Some(()) => Some(numbers),
        None => {
            drop(numbers);
            None
        }
    }
}

fn push_numbers(words: &[&str], numbers: &mut Vec<u64>) -> Option<()> {
    for word in words {
        numbers.push(word.parse().ok()?).ok()?;
    }
    Some(())
}

// Decodes and verifies code that takes so many arguments and declares these slots.
fn load(alloc: Global, bytes: &[u8], args: &[u64], slots: &[Slot]) -> Option<Verified>
    ensures { IfSome result (λ v. length args.now ≡ v.decl.args) }
{
    if args.len() > 8 {
        return None;
    }
    let Ok(decl) = Decl::new(args.len() as u8, slots) else {
        return None;
    };
    let code = decode(alloc, bytes).ok()?;
    match verify(alloc, code, decl) {
        Ok(verified) => Some(verified),
        Err(_) => None,
    }
}

// Starts the machine over, as a transaction component does for each call, and runs the code to its end: its answer, and how
// many instructions it executed.
fn run(machine: &mut Machine, verified: &Verified, args: &[u64]) -> Option<(u64, u32)>
    requires { length args.now ≡ verified.now.decl.args }
{
    machine.restart(verified, args, Layout::plain());
    match machine.resume(verified, None) {
        Pause::Exit(answer) => Some((answer, machine.executed())),
        Pause::Ask(_) => None,
    }
}

impl Workload {
    /// Decodes and verifies it so many times, and then runs it so many times.
    pub fn repeat(&self, alloc: Global, loads: u64, runs: u64, done: &mut Done) -> Option<()> {
        let args = self.args.as_slice();
        let Some(verified) = load(alloc, self.bytes.as_slice(), args, &[]) else {
            done.refused = done.refused.wrapping_add(1);
            return Some(());
        };
        let repeated = match self.load_again(alloc, loads, done) {
            Some(()) => self.run_again(&verified, runs, done),
            None => None,
        };
        drop(verified);
        repeated
    }

    fn load_again(&self, alloc: Global, loads: u64, done: &mut Done) -> Option<()> {
        for _ in 0..loads {
            let loaded = load(alloc, self.bytes.as_slice(), self.args.as_slice(), &[])?;
            done.slots = done.slots.wrapping_add(loaded.code().len() as u64);
            drop(loaded);
        }
        Some(())
    }

    fn run_again(&self, verified: &Verified, runs: u64, done: &mut Done) -> Option<()>
        requires { length self.now.args.items ≡ verified.now.decl.args }
    {
        let mut machine = Machine::blank();
        for _ in 0..runs {
            let (answer, executed) = run(&mut machine, verified, self.args.as_slice())?;
            done.instructions = done.instructions.wrapping_add(u64::from(executed));
            if answer != self.answer || executed != self.executed {
                done.wrong = done.wrong.wrapping_add(1);
            }
        }
        Some(())
    }
}

// mov r0, 0; exit
const TWO: &[u8] = &[0xb7, 0, 0, 0, 0, 0, 0, 0, 0x95, 0, 0, 0, 0, 0, 0, 0];

/// Starts a machine over for code of two instructions with so many declared slots, and runs it to its
/// end, so many times. How many instructions were executed; `None` for more than 16 slots.
pub fn repeat_starts(alloc: Global, slots: u64, times: u64) -> Option<u64> {
    let mut declared = Vec::new(alloc);
    let verified = match push_slots(slots, &mut declared) {
        Some(()) => load(alloc, TWO, &[], declared.as_slice()),
        None => None,
    };
    drop(declared);
    let verified = verified?;
    let executed = start_again(&verified, times);
    drop(verified);
    executed
}

// So many slots, for reading.
fn push_slots(slots: u64, declared: &mut Vec<Slot>) -> Option<()> {
    for key in 0..slots {
        let slot = Slot {
            mode: Mode::Read,
            dc: 0,
            table: 0,
            key: Key::Fixed(key),
        };
        declared.push(slot).ok()?;
    }
    Some(())
}

// How many instructions are executed in so many runs.
fn start_again(verified: &Verified, times: u64) -> Option<u64>
    requires { 0 ≡ verified.now.decl.args }
{
    let mut machine = Machine::blank();
    let mut executed: u64 = 0;
    for _ in 0..times {
        let (_, count) = run(&mut machine, verified, &[])?;
        executed = executed.wrapping_add(u64::from(count));
    }
    Some(executed)
}
