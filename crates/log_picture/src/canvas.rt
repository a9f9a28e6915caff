//! What a drawing is of.

ghost use Rattle.std.specs.Prelude.{◌≤◌, ◌+◌};

/// The events that are drawn, from a place up to another, and how wide one of them is.
#[derive(Clone, Copy)]
pub(crate) struct Canvas {
    pub from: usize,
    pub to: usize,
    pub step: usize,
    ghost ordered: { from ≤ to },
    ghost few: { to ≤ from + 1000 },
    ghost narrow: { step ≤ 40 },
}
