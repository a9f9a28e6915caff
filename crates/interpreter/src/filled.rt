// Which registers are filled: only clauses read it, so no memory holds it.

ghost use Rattle.std.specs.Prelude.{◌≡◌, Bool, List, true, false, replicate, slice_set};
ghost use Rattle.std.specs.Borrow.{ftrue};
ghost use Rattle.interpreter.specs.Joining.Filled.{called};

use std::marker::{Model, PhantomData};

/// For each register whether it is filled.
#[derive(Drop)]
pub(crate) struct Filled {
    marker: PhantomData<u8>,
    pub ghost marks: { List Bool },
}

impl Model for Filled {
    ghost also_owns = { λ _. ftrue };
}

impl Filled {
    /// None is.
    #[inline(always)]
    pub(crate) fn none() -> Filled
        ensures { result.marks ≡ replicate 11 false }
    {
        Filled {
            marker: PhantomData,
        }
    }

    /// The register with this number is filled.
    #[inline(always)]
    pub(crate) fn fill(&mut self, _number: usize)
        ensures { self.new.marks ≡ slice_set self.old.marks _number true }
    {}

    /// Behind a call register 0 is filled, and registers 1 to 5 aren't.
    #[inline(always)]
    pub(crate) fn call(&mut self)
        ensures { self.new.marks ≡ called self.old.marks }
    {}
}
