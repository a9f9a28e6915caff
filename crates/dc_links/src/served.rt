// What lies in a seat, and the parts of threads at it.

use data_component::dc::Dc;

/// A component that is served, and under which number.
#[derive(Drop)]
pub struct Served {
    pub number: usize,
    pub dc: Dc,
}

/// In proofs alone: under which number a component is served, and its state when that began.
pub struct Began {
    pub number: usize,
    pub first: Dc,
}

/// A thread's part at a seat, in proofs alone.
pub enum Part {
    /// It has none.
    Away,
    /// It is the seat's owner, whose component is served there.
    Sits(Began),
    /// It has the seat in hands, with the component there, if there is one.
    Holds(Option<Began>),
}
