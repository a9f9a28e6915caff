//! Where a run stands.

ghost use Rattle.std.specs.Prelude.{◌≡◌, ◌+◌, ◌≤◌};
ghost use Rattle.interpreter.specs.Standing.{IsEarly};

/// Where a run stands: at which slot, and how many instructions it has executed.
#[derive(Clone, Copy, Debug, PartialEq, Eq)]
pub(crate) struct Cursor {
    pub(crate) pc: usize,
    pub(crate) executed: u32,
}

impl Cursor {
    /// So many slots on, one instruction later.
    #[inline(always)]
    pub(crate) fn after(self, slots: usize) -> Cursor
        requires early { IsEarly self }
        requires slots { slots ≤ 2 }
        ensures pc { result.pc ≡ self.pc + slots }
        ensures executed { result.executed ≡ self.executed + 1 }
    {
        Cursor {
            pc: self.pc + slots,
            executed: self.executed + 1,
        }
    }
}
