//! A picture of a log, drawn in SVG: transactions in lanes, by outcome; their numbers on their way; and the records that
//! most of them use. No text of a user stands in it, so nothing has to be escaped.

ghost use Rattle.std.specs.Prelude.{◌≡◌, ◌≤◌, ◌<◌, ◌++◌, ◌+◌, ◌-◌, length, IfOk, OnOk, string_bytes};
ghost use Rattle.std.specs.List.{flat_map};
ghost use Rattle.log_picture.specs.Canvas.{sheet};
ghost use Rattle.log_picture.specs.Drawing.{way_bar, name_text, life_bar, track_text, drawn_text, use_bar, use_of, row_text, rows_text};
ghost use Rattle.log_picture.specs.Drawing.{every_of, tick_at, ticks_text, shown_words, caption_words, caption_text, head_text, records_text, svg_text};

use crate::busiest::RecordRow;
use crate::canvas::Canvas;
use crate::life::Life;
use crate::picture::{Picture, Track};
use crate::shapes::{Bar, Span, write_bar, write_label};
use crate::texts::{
    class_of, life_title, mode_class, record_text, use_title, way_class, way_title,
};
use crate::way::{Way, mode_of};
use access_slots::slot::Mode;
use std::alloc::{AllocError, Global};
use tc_log::events::Events;

/// How many events are drawn at most.
pub const MOST_EVENTS: usize = 1000;

/// How many lanes are drawn at most.
pub const MOST_LANES: usize = 200;

/// How far one lane is below the other, and one record's row.
const LANE: usize = 22;

const ROW: usize = 16;

/// The upper edge of the first lane.
const TOP: usize = 64;

const HEAD: &str = "<style>text{font:11px monospace;fill:#222}.name{fill:#fff;font-size:10px}\
.committed{fill:#3a7d44}.aborted{fill:#b3261e}.noroom{fill:#777}.open{fill:#d08700}.ask{fill:#fff}.undo{fill:#ffb4a9}\
.write{fill:#27408b}.read{fill:#9fb4e8}.tick{fill:#e4e4e4}.page{fill:#fff}</style>\n\
<rect class='page' width='100%' height='100%'/>\n";

const LEGEND: &str =
    "<rect class='committed' x='130' y='24' width='10' height='10'/><text x='144' y='33'>committed</text>\
<rect class='aborted' x='220' y='24' width='10' height='10'/><text x='234' y='33'>aborted</text>\
<rect class='noroom' x='300' y='24' width='10' height='10'/><text x='314' y='33'>no room</text>\
<rect class='open' x='380' y='24' width='10' height='10'/><text x='394' y='33'>open at the end</text>\
<rect class='committed' x='510' y='24' width='26' height='10'/><rect class='ask' x='513' y='27' width='20' height='4'/>\
<text x='540' y='33'>a number on its way</text>\
<rect class='aborted' x='690' y='24' width='26' height='10'/><rect class='undo' x='693' y='27' width='20' height='4'/>\
<text x='720' y='33'>an undo's</text>\
<rect class='write' x='800' y='24' width='10' height='10'/><text x='814' y='33'>written</text>\
<rect class='read' x='880' y='24' width='10' height='10'/><text x='894' y='33'>read</text>\n";

const RECORDS: &str = "The records that most transactions use, and who holds them";

const FOOT: &str =
    "Locks are held from a transaction's first event to its last. Waiting for one leaves no event, and isn't seen.";

// Adds a number, in the lane at this height.
#[tactic(auto, unfolding(crate::specs::Drawing::way_bar))]
fn write_way(
    alloc: Global,
    canvas: &Canvas,
    y: usize,
    way: &Way,
    svg: &mut String,
) -> Result<(), AllocError>
    requires { y ≤ 5000 }
    ensures { OnOk result (string_bytes svg.new ≡ string_bytes svg.old ++ way_bar (sheet canvas.now) y way.now) }
{
    let title = way_title(alloc, way)?;
    let bar = Bar {
        class: way_class(way),
        span: canvas.span(way.begin, way.end_place()),
        y: y + 11,
        height: 5,
        title: title.as_str(),
    };
    write_bar(alloc, &bar, svg)
}

// Adds numbers, in the lane at this height.
fn write_ways(
    alloc: Global,
    canvas: &Canvas,
    y: usize,
    ways: &[Way],
    svg: &mut String,
) -> Result<(), AllocError>
    requires { y ≤ 5000 }
    ensures { OnOk result (string_bytes svg.new ≡ string_bytes svg.old ++ flat_map (way_bar (sheet canvas.now) y) ways.now) }
{
    'ways: for way in ways {
        write_way(alloc, canvas, y, way, svg)?;
    }
    Ok(())
}

// Adds a transaction's number into its bar, where it is wide enough.
#[tactic(auto, unfolding(crate::specs::Drawing::name_text))]
fn write_name(
    alloc: Global,
    span: Span,
    y: usize,
    txn: u64,
    svg: &mut String,
) -> Result<(), AllocError>
    requires low { span.left ≤ 41000 }
    requires high { y ≤ 5000 }
    ensures { OnOk result (string_bytes svg.new ≡ string_bytes svg.old ++ name_text span y txn) }
{
    if span.width < 28 {
        return Ok(());
    }
    let x = span.left + 2;
    let y = y + 9;
    let name = format!(in alloc; "<text class='name' x='{x}' y='{y}'>{txn}</text>\n")?;
    svg.push_str(name.as_str())
}

// Adds a transaction's bar at this height, and its number where there is room.
#[tactic(auto, unfolding(crate::specs::Drawing::life_bar))]
fn write_life(
    alloc: Global,
    canvas: &Canvas,
    events: &Events<'_>,
    y: usize,
    life: &Life,
    svg: &mut String,
) -> Result<(), AllocError>
    requires { y ≤ 5000 }
    ensures { OnOk result (string_bytes svg.new ≡ string_bytes svg.old ++ life_bar (sheet canvas.now) events.now y life.now) }
{
    let title = life_title(alloc, events, life)?;
    let span = canvas.span(life.begin, life.end_place());
    let bar = Bar {
        class: class_of(life.end),
        span,
        y,
        height: 18,
        title: title.as_str(),
    };
    write_bar(alloc, &bar, svg)?;
    write_name(alloc, span, y, life.txn, svg)
}

// Adds a transaction, and its numbers on their way.
#[tactic(auto, unfolding(crate::specs::Drawing::track_text))]
fn write_track(
    alloc: Global,
    canvas: &Canvas,
    events: &Events<'_>,
    track: &Track,
    svg: &mut String,
) -> Result<(), AllocError>
    requires { track.now.lane < 200 }
    ensures { OnOk result (string_bytes svg.new ≡ string_bytes svg.old ++ track_text (sheet canvas.now) events.now track.now) }
{
    let y = TOP + track.lane * LANE;
    write_life(alloc, canvas, events, y, &track.life, svg)?;
    write_ways(alloc, canvas, y, track.ways.as_slice(), svg)
}

// Adds the transactions of the first lanes.
fn write_tracks(
    alloc: Global,
    canvas: &Canvas,
    events: &Events<'_>,
    tracks: &[Track],
    svg: &mut String,
) -> Result<(), AllocError>
    ensures { OnOk result (string_bytes svg.new ≡ string_bytes svg.old ++ flat_map (drawn_text (sheet canvas.now) events.now) tracks.now) }
{
    'tracks: for track in tracks {
        if track.lane < MOST_LANES {
            write_track(alloc, canvas, events, track, svg)?;
        }
    }
    Ok(())
}

// Adds a transaction that uses a record, in the record's row at this height.
#[tactic(auto, unfolding(crate::specs::Drawing::use_bar))]
fn write_use(
    alloc: Global,
    canvas: &Canvas,
    y: usize,
    name: &str,
    mode: Mode,
    life: &Life,
    svg: &mut String,
) -> Result<(), AllocError>
    ensures { OnOk result (string_bytes svg.new ≡ string_bytes svg.old ++ use_bar (sheet canvas.now) y name.now mode life.now) }
{
    let title = use_title(alloc, name, mode, life)?;
    let bar = Bar {
        class: mode_class(mode),
        span: canvas.span(life.begin, life.end_place()),
        y,
        height: 12,
        title: title.as_str(),
    };
    write_bar(alloc, &bar, svg)
}

// Adds the transactions that use a record, in its row at this height.
fn write_uses(
    alloc: Global,
    canvas: &Canvas,
    y: usize,
    name: &str,
    row: &RecordRow,
    tracks: &[Track],
    svg: &mut String,
) -> Result<(), AllocError>
    ensures { OnOk result (string_bytes svg.new ≡ string_bytes svg.old
        ++ flat_map (use_of (sheet canvas.now) y name.now row.now.«record») tracks.now) }
{
    'tracks: for track in tracks {
        if let Some(mode) = mode_of(track.ways.as_slice(), &row.record) {
            write_use(alloc, canvas, y, name, mode, &track.life, svg)?;
        }
    }
    Ok(())
}

// Adds the row of a record: its name, how many use it, and who holds it when.
#[tactic(auto, unfolding(crate::specs::Drawing::row_text))]
fn write_row(
    alloc: Global,
    canvas: &Canvas,
    y: usize,
    row: &RecordRow,
    tracks: &[Track],
    svg: &mut String,
) -> Result<(), AllocError>
    requires { y ≤ 10000 }
    ensures { OnOk result (string_bytes svg.new ≡ string_bytes svg.old ++ row_text (sheet canvas.now) tracks.now y row.now) }
{
    let name = record_text(alloc, &row.record)?;
    let users = row.users;
    let label = format!(in alloc; "{name} ({users})")?;
    write_label(alloc, 4, y + 10, label.as_str(), svg)?;
    write_uses(alloc, canvas, y, name.as_str(), row, tracks, svg)
}

// Adds the rows of records, the first of them at this height.
fn write_rows(
    alloc: Global,
    canvas: &Canvas,
    top: usize,
    rows: &[RecordRow],
    tracks: &[Track],
    svg: &mut String,
) -> Result<(), AllocError>
    requires low { top ≤ 9000 }
    requires few { length rows.now ≤ 16 }
    ensures { OnOk result (string_bytes svg.new ≡ string_bytes svg.old ++ rows_text (sheet canvas.now) tracks.now top rows.now) }
{
    'rows: for (index, row) in rows.iter().enumerate() {
        write_row(alloc, canvas, top + index * ROW, row, tracks, svg)?;
    }
    Ok(())
}

// Every how many events a place is written.
fn every_of(step: usize) -> usize
    ensures value { result ≡ every_of step }
    ensures some { 0 < result }
{
    if step < 8 {
        20
    } else if step < 16 {
        10
    } else {
        5
    }
}

// Adds a line at an event, as long as this, and its place; at each so many events.
#[tactic(auto, unfolding(crate::specs::Drawing::tick_text))]
fn write_tick(
    alloc: Global,
    canvas: &Canvas,
    height: usize,
    place: usize,
    svg: &mut String,
) -> Result<(), AllocError>
    ensures { OnOk result (string_bytes svg.new ≡ string_bytes svg.old ++ tick_at (sheet canvas.now) height place) }
{
    if place % every_of(canvas.step) != 0 {
        return Ok(());
    }
    let x = canvas.x(place);
    let text = format!(in alloc;
        "<rect class='tick' x='{x}' y='44' width='1' height='{height}'/><text x='{x}' y='54'>{place}</text>\n"
    )?;
    svg.push_str(text.as_str())
}

// Adds the places of events.
fn write_ticks(
    alloc: Global,
    canvas: &Canvas,
    height: usize,
    svg: &mut String,
) -> Result<(), AllocError>
    ensures { OnOk result (string_bytes svg.new ≡ string_bytes svg.old
        ++ ticks_text (sheet canvas.now) height canvas.now.from (canvas.now.to - canvas.now.from)) }
{
    'places: for place in canvas.from..canvas.to {
        write_tick(alloc, canvas, height, place, svg)?;
    }
    Ok(())
}

// Which events are shown.
#[tactic(auto, unfolding(crate::specs::Drawing::shown_words))]
fn shown_words(alloc: Global, canvas: &Canvas, count: usize) -> Result<String, AllocError>
    ensures { IfOk result (λ s. string_bytes s ≡ shown_words (sheet canvas.now) count) }
{
    let shown = canvas.to - canvas.from;
    let from = canvas.from;
    format!(in alloc; "{shown} of {count} events, from place {from} on: ")
}

// What is said above the picture.
fn caption_words(
    alloc: Global,
    canvas: &Canvas,
    count: usize,
    picture: &Picture,
) -> Result<String, AllocError>
    ensures { IfOk result (λ s. string_bytes s
        ≡ caption_words (sheet canvas.now) count (length picture.now.tracks.items) picture.now.lanes) }
{
    let shown = shown_words(alloc, canvas, count)?;
    let transactions = picture.tracks.len();
    let lanes = picture.lanes;
    format!(in alloc; "{shown}{transactions} transactions in {lanes} lanes")
}

// Adds it.
#[tactic(auto, unfolding(crate::specs::Drawing::caption_text))]
fn write_caption(
    alloc: Global,
    canvas: &Canvas,
    count: usize,
    picture: &Picture,
    svg: &mut String,
) -> Result<(), AllocError>
    ensures { OnOk result (string_bytes svg.new ≡ string_bytes svg.old
        ++ caption_text (sheet canvas.now) count (length picture.now.tracks.items) picture.now.lanes) }
{
    let text = caption_words(alloc, canvas, count, picture)?;
    write_label(alloc, 4, 14, text.as_str(), svg)
}

// The SVG's beginning: its size, its colours, and its ground.
#[tactic(auto, unfolding(crate::specs::Drawing::head_text))]
fn head(alloc: Global, width: usize, height: usize) -> Result<String, AllocError>
    ensures { IfOk result (λ s. string_bytes s ≡ head_text width height) }
{
    format!(in alloc;
        "<svg xmlns='http://www.w3.org/2000/svg' width='{width}' height='{height}'>\n{HEAD}"
    )
}

// What stands below the lanes, which end at this height: the rows of records, and what isn't seen.
#[tactic(auto, unfolding(crate::specs::Drawing::records_text))]
fn write_records(
    alloc: Global,
    canvas: &Canvas,
    top: usize,
    picture: &Picture,
    svg: &mut String,
) -> Result<(), AllocError>
    requires low { top ≤ 5000 }
    requires few { length picture.now.rows.items ≤ 16 }
    ensures { OnOk result (string_bytes svg.new ≡ string_bytes svg.old ++ records_text (sheet canvas.now) top picture.now) }
{
    write_label(alloc, 4, top + 16, RECORDS, svg)?;
    write_rows(
        alloc,
        canvas,
        top + 24,
        picture.rows.as_slice(),
        picture.tracks.as_slice(),
        svg,
    )?;
    write_label(alloc, 4, top + 40 + picture.rows.len() * ROW, FOOT, svg)?;
    svg.push_str("</svg>\n")
}

/// The drawing of a picture of these events of a log, the oldest first, from a place up to another, of so many that the
/// log has. Lanes beyond [`MOST_LANES`] aren't drawn.
#[tactic(auto, unfolding(crate::specs::Drawing::svg_text))]
pub fn drawing(
    alloc: Global,
    events: &Events<'_>,
    from: usize,
    to: usize,
    count: usize,
    picture: &Picture,
) -> Result<String, AllocError>
    requires ordered { from ≤ to }
    requires few { to ≤ from + 1000 }
    requires rows { length picture.now.rows.items ≤ 16 }
    ensures { IfOk result (λ s. string_bytes s ≡ svg_text events.now from to count picture.now) }
{
    let canvas = Canvas::new(from, to);
    let below = TOP + picture.lanes.min(MOST_LANES) * LANE;
    let width = (canvas.x(to) + 20).max(960);
    let height = below + 60 + picture.rows.len() * ROW;
    let mut svg = head(alloc, width, height)?;
    write_caption(alloc, &canvas, count, picture, &mut svg)?;
    svg.push_str(LEGEND)?;
    write_ticks(alloc, &canvas, below - 44, &mut svg)?;
    write_tracks(alloc, &canvas, events, picture.tracks.as_slice(), &mut svg)?;
    write_records(alloc, &canvas, below, picture, &mut svg)?;
    Ok(svg)
}
