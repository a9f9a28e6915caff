//! What calls are run on.

ghost use Rattle.std.specs.Prelude.{◌≡◌, None, false};
ghost use Rattle.run_ground.specs.Kept.{over_at_end};

use data_component::dc::Dc;
use disk_file::DiskFile;
use log_journal::LogJournal;
use tc_core::state::TcState;

/// A journal in a file.
pub type FileJournal = LogJournal<DiskFile>;

/// When the log of a run begins anew.
#[derive(Clone, Copy, Debug)]
pub struct Checkpoints {
    /// Behind the last call.
    pub at_end: bool,
    /// At the beginning, between parts of the calls and behind the last, where the log's file has more bytes than
    /// this.
    pub over: Option<u64>,
}

impl Checkpoints {
    /// Never.
    pub const NONE: Checkpoints = Checkpoints {
        at_end: false,
        over: None,
    };

    /// The size of the log's file, in bytes, above which it does so behind the last call.
    pub fn over_at_end(&self) -> Option<u64>
        ensures over { result ≡ over_at_end self.now }
        ensures none { self.now.over ≡ None → self.now.at_end ≡ false → result ≡ None }
    {
        if self.at_end { Some(0) } else { self.over }
    }
}

/// What calls are run on: a transaction component's state, its data components, and the journal of its log, if
/// there is one.
#[derive(Drop)]
pub struct Ground {
    pub state: TcState,
    pub dcs: Vec<Dc>,
    pub journal: Option<FileJournal>,
}
