//! A log that begins anew.

ghost use Rattle.std.specs.Prelude.{◌≡◌, ◌+◌, ◌<◌, ◌≤◌, ◌^◌, [], ◌∷◌, List, length, nat_le, OnOk, OnErr, IfErr};
ghost use Rattle.std.specs.List.{list_all};
ghost use Rattle.tc_log.specs.declared.event.Event.TheVariants.{Checkpoint};
ghost use Rattle.verifier.specs.Checked.{Checked};
ghost use Rattle.slab.specs.Slab.{slab_len};
ghost use Rattle.history.specs.Flight.{given, low_water};
ghost use Rattle.history.specs.Anew.{begun};
ghost use Rattle.tc_core.specs.Kept.{IsBook};
ghost use Rattle.tc_core.specs.Checkpointing.{are_up, have_kept, MayCheckpoint, checkpointed, IsCheckpointFault};

use crate::book::Book;
use crate::sites::begin_all;
use crate::state::TcState;
use tc_log::event::Event;
use transactions::Site;

/// Why a log can't begin anew, in the order in which it is looked for.
#[derive(Clone, Copy, Debug, PartialEq, Eq)]
pub enum CheckpointFault {
    /// G1: nothing has happened.
    Nothing,
    /// G2: so many transactions are open; those in doubt and those that are stuck are.
    Open(usize),
    /// G3: there isn't one mark for each data component.
    DcCount,
    /// G4: a data component is down: its redo needs the log.
    Down,
    /// G5: the checkpoint of a data component hasn't kept all that was answered: its redo would need the
    /// log.
    Behind,
    /// G6: more than 2^62 transactions were admitted.
    Spent,
}

const MOST: u64 = 1 << 62;

// Whether each data component is up.
fn are_up(sites: &[Site]) -> bool
    ensures { result ≡ are_up sites.now }
{
    sites.iter().all(|site| site.redo.is_none())
}

// Whether each mark is at least this number.
fn have_kept(number: u64, marks: &[u64]) -> bool
    ensures { result ≡ have_kept number marks.now }
{
    marks.iter().all(|mark| number <= *mark)
}

impl Book {
    /// The log is this one event, behind which so many were admitted and so many numbers given out.
    /// There has to be room for it.
    pub(crate) fn begin_behind(&mut self, admitted: u64, given: u64)
        requires room { 0 < self.old.log.room + length self.old.log.events }
        requires none { self.old.numbers.pending ≡ [] }
        requires few { given ≤ 2 ^ 62 }
        ensures kept { (ps : List Checked) → IsBook ps self.old → slab_len self.old.txns ≡ 0 → admitted ≤ 2 ^ 62 → IsBook ps self.new }
        ensures events { self.new.log.events ≡ Checkpoint admitted given ∷ [] }
        ensures given_up { self.new.given_up.numbers ≡ [] }
        ensures sites { self.new.sites ≡ self.old.sites }
    {
        self.log.begin_anew(Event::Checkpoint { admitted, given });
        self.numbers.begin_behind(given);
        self.given_up.begin_behind(given);
        begin_all(&mut self.starts);
        self.serials = admitted;
    }
}

impl TcState {
    /// The log begins anew, where no transaction is open, each data component is up, and each has kept
    /// all that was answered: its mark, as its last checkpoint told it, is no less than the last number.
    /// Then what happened is one event: that so many were admitted, and so many numbers given out.
    /// Serial numbers and numbers go on from there; places of the log count from it. It takes no memory,
    /// and that of the old log is for the new one.
    pub fn checkpoint(&mut self, kept: &[u64]) -> Result<(), CheckpointFault>
        ensures may { OnOk result (MayCheckpoint self.old kept.now) }
        ensures ok { OnOk result (self.new ≡ checkpointed self.old) }
        ensures err { OnErr result (self.new ≡ self.old) }
        ensures fault { IfErr result (IsCheckpointFault self.old kept.now) }
    {
        if self.book.log.is_empty() {
            return Err(CheckpointFault::Nothing);
        }
        let open = self.book.txns.len();
        if open > 0 {
            return Err(CheckpointFault::Open(open));
        }
        if kept.len() != usize::from(self.procs.dcs()) {
            return Err(CheckpointFault::DcCount);
        }
        if !are_up(self.book.sites.as_slice()) {
            return Err(CheckpointFault::Down);
        }
        let given = self.book.numbers.last();
        if !have_kept(given, kept) {
            return Err(CheckpointFault::Behind);
        }
        let admitted = self.book.serials;
        if admitted > MOST {
            return Err(CheckpointFault::Spent);
        }
        self.book.begin_behind(admitted, given);
        Ok(())
    }

    /// How many numbers were given out before the log's first event.
    pub fn begun(&self) -> u64
        ensures { result ≡ begun self.now.events }
    {
        self.book.given_up.from()
    }

    /// The last number that was given out, also before the log's first event.
    pub fn last_number(&self) -> u64
        ensures { result ≡ given self.now.events }
    {
        self.book.numbers.last()
    }

    /// The low-water mark: each number up to it is answered. Told to data components, it lets their
    /// checkpoints keep it.
    pub fn low_water(&self) -> u64
        ensures { result ≡ low_water self.now.events }
    {
        self.book.numbers.low_water()
    }
}
