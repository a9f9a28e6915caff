// What a call comes to on the way to its answer.

/// A stage on the way of a call to its answer.
#[derive(Clone, Copy, Debug, PartialEq, Eq)]
pub enum Stage {
    /// Another transaction stands in its way, and it waits until that leaves it.
    Waiting,
    /// A wire is carried for it.
    Carried,
    /// The same, since nothing came back that answers the wire before.
    CarriedAgain,
    /// The link is back from that, with an answer or without.
    Back,
    /// Its answer stands. In a run with a journal, what was logged until then is to be kept first.
    Answered,
}
