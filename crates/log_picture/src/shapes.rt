//! Where things stand on a drawing, in pixels, and its shapes in SVG.

ghost use Rattle.std.specs.Prelude.{◌≡◌, ◌≤◌, ◌+◌, IfOk, OnOk, ◌++◌, string_bytes};
ghost use Rattle.log_picture.specs.Canvas.{sheet, sheet_from, x_of, span_of, place_text, size_text, bar_text, label_text};

use crate::canvas::Canvas;
use std::alloc::{AllocError, Global};

/// The left edge of the first event.
const LEFT: usize = 130;

impl Canvas {
    /// Of the events from a place up to another.
    pub fn new(from: usize, to: usize) -> Canvas
        requires ordered { from ≤ to }
        requires few { to ≤ from + 1000 }
        ensures { sheet result ≡ sheet_from from to }
    {
        let step = (1200 / (to - from).max(1)).clamp(4, 40);
        Canvas { from, to, step }
    }

    /// Where the event at this place begins, or the edge beyond which it is.
    pub fn x(&self, place: usize) -> usize
        ensures value { result ≡ x_of (sheet self.now) place }
        ensures low { result ≤ 40130 }
    {
        LEFT + (place.max(self.from).min(self.to) - self.from) * self.step
    }

    /// Where what begins at a place begins, and how wide it is: as far as the event that ends it, or the drawing, but for
    /// a pixel between it and the next.
    pub fn span(&self, begin: usize, end: Option<usize>) -> Span
        ensures value { result ≡ span_of (sheet self.now) begin end }
        ensures low { result.left ≤ 40130 }
    {
        let left = self.x(begin);
        let right = match end {
            Some(end) => self.x(end) + self.step,
            None => self.x(self.to),
        };
        Span {
            left,
            width: right.saturating_sub(left + 1),
        }
    }
}

/// From where on, and how wide.
#[derive(Clone, Copy)]
pub(crate) struct Span {
    pub left: usize,
    pub width: usize,
}

/// A bar, and what is said of it under the pointer.
#[derive(Clone, Copy)]
pub(crate) struct Bar<'a> {
    pub class: &'a str,
    pub span: Span,
    pub y: usize,
    pub height: usize,
    pub title: &'a str,
}

// A bar's text up to its place.
#[tactic(auto, unfolding(crate::specs::Canvas::place_text))]
fn place_text(alloc: Global, class: &str, x: usize, y: usize) -> Result<String, AllocError>
    ensures { IfOk result (λ s. string_bytes s ≡ place_text class.now x y) }
{
    format!(in alloc; "<rect class='{class}' x='{x}' y='{y}'")
}

// And from there on.
#[tactic(auto, unfolding(crate::specs::Canvas::size_text))]
fn size_text(alloc: Global, width: usize, height: usize, title: &str) -> Result<String, AllocError>
    ensures { IfOk result (λ s. string_bytes s ≡ size_text width height title.now) }
{
    format!(in alloc; " width='{width}' height='{height}'><title>{title}</title></rect>\n")
}

/// Adds a bar.
#[tactic(auto, unfolding(crate::specs::Canvas::shape_text))]
pub(crate) fn write_bar(alloc: Global, bar: &Bar, svg: &mut String) -> Result<(), AllocError>
    ensures { OnOk result (string_bytes svg.new ≡ string_bytes svg.old ++ bar_text bar.now) }
{
    let Bar {
        class,
        span: Span { left, width },
        y,
        height,
        title,
    } = *bar;
    let place = place_text(alloc, class, left, y)?;
    svg.push_str(place.as_str())?;
    let size = size_text(alloc, width, height, title)?;
    svg.push_str(size.as_str())
}

/// Adds a text that begins here.
#[tactic(auto, unfolding(crate::specs::Canvas::label_text))]
pub(crate) fn write_label(
    alloc: Global,
    x: usize,
    y: usize,
    text: &str,
    svg: &mut String,
) -> Result<(), AllocError>
    ensures { OnOk result (string_bytes svg.new ≡ string_bytes svg.old ++ label_text x y text.now) }
{
    let text = format!(in alloc; "<text x='{x}' y='{y}'>{text}</text>\n")?;
    svg.push_str(text.as_str())
}
