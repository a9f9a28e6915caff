// Bytes for a file, until they are handed out.

ghost use Rattle.std.specs.Prelude.{◌≡◌, ◌++◌, [], ℕ, List, drop, length, min, take, OnErr, OnOk, IfErr};
ghost use Rattle.engine_log.specs.Handing.{GoesOn, IsAheadFault};

use crate::frame::Frame;
use crate::telling;
use engine_log::{AheadFault, EngineLog};
use std::alloc::Global;
use std::marker::Model;
use tc_core::TcState;

/// The bytes that aren't handed out yet.
#[derive(Drop)]
pub struct Prepared {
    bytes: Vec<u8>,
    handed: usize,
}

impl Model for Prepared {
    ghost use Rattle.std.specs.Prelude.{◌≤◌, ℕ, List, drop, length};

    ghost Value = { List ℕ };

    ghost view = { λ p. drop p.handed p.bytes.items };

    ghost invariant = { λ p. p.handed ≤ length p.bytes.items };
}

impl Prepared {
    /// None. It takes no memory.
    pub fn new(alloc: Global) -> Prepared
        ensures { result ≡ [] }
    {
        Prepared {
            bytes: Vec::new(alloc),
            handed: 0,
        }
    }

    /// How many there are.
    pub fn len(&self) -> usize
        ensures { result ≡ length self.now }
    {
        self.bytes.len() - self.handed
    }

    /// What a log has ahead, behind those that there are.
    pub fn prepare(&mut self, file: &mut EngineLog, tc: &TcState) -> Result<(), AheadFault>
        ensures goes_on { OnOk result ((bytes : List ℕ) × (self.new ≡ self.old ++ bytes) × GoesOn file.old tc.now bytes file.new) }
        ensures refused { OnErr result ((file.new ≡ file.old) × (self.new ≡ self.old)) }
        ensures why { IfErr result (IsAheadFault file.old tc.now) }
    {
        file.ahead(tc, &mut self.bytes)
    }

    /// The first 256 of them go into the frame.
    pub fn hand_out(&mut self, frame: &mut Frame)
        ensures count { frame.new.count ≡ min (length self.old) 256 }
        ensures bytes { take frame.new.count frame.new.bytes ≡ take frame.new.count self.old }
        ensures rest { self.new ≡ drop frame.new.count self.old }
    {
        telling::put_bytes(frame, &self.bytes[self.handed..]);
        self.handed += frame.count as usize;
        if self.handed == self.bytes.len() {
            self.bytes.clear();
            self.handed = 0;
        }
    }

    /// Forgets them. The memory stays, for further ones.
    pub fn clear(&mut self)
        ensures { self.new ≡ [] }
    {
        self.bytes.clear();
        self.handed = 0;
    }
}
