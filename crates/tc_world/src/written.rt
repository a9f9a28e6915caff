// What was carried, held against what the first events of a log say of numbers.

ghost use Rattle.std.specs.Prelude.{ℕ, ◌≡◌, ◌↔◌, ◌≤◌, ◌^◌, ◌==◌, IsTrue, count_by, fold};
ghost use Rattle.std.specs.List.{All, list_all, list_any};
ghost use Rattle.tc_log.specs.Entered.{seen};
ghost use Rattle.access_slots.specs.declared.op.Reply.{Reply as ReplyValue};
ghost use Rattle.access_slots.specs.declared.op.News.{News as NewsValue};
ghost use Rattle.transactions.specs.declared.Site.{Site as SiteValue};
ghost use Rattle.tc_world.specs.Marks.{IsLow};
ghost use Rattle.tc_world.specs.Waiting.{AreWaiting};
ghost use Rattle.tc_world.specs.Recovery.{MayCrash};
ghost use Rattle.tc_world.specs.Joining.Written.{gives, given_of, answers, is_left, below, below_request, below_event, low_left};
ghost use Rattle.tc_world.specs.Joining.Written.{is_wire_told, is_store_told};
ghost use Rattle.tc_core.specs.Core.{Asking};

use access_slots::op::{News, Reply, Wire};
use data_component::dc::Dc;
use tc_core::state::{Request, TcState};
use tc_log::event::Entry;
use tc_log::events::Events;
use transactions::Site;

fn gives(event: &Entry<'_>) -> bool
    ensures { result ≡ gives (seen event.now) }
{
    matches!(event, Entry::Ask { .. } | Entry::Undo { .. })
}

// How many numbers these events gave out.
fn count_in(events: &Events<'_>) -> u64
    ensures { result ≡ count_by gives events.now }
{
    let mut count = 0;
    'events: for place in 0..events.len() {
        if gives(&events.entry(place)) {
            count += 1;
        }
    }
    count
}

// How many numbers were given out up to these events, the first ones of a log that begins behind
// `begun`.
fn given_in(begun: u64, events: &Events<'_>) -> u64
    requires { begun ≤ 2 ^ 62 }
    ensures { result ≡ given_of begun events.now }
{
    events.known();
    let count = count_in(events);
    if events.len() > 0 { begun + count } else { 0 }
}

fn answers(event: &Entry<'_>, number: u64) -> bool
    ensures { result ≡ answers number (seen event.now) }
{
    match event {
        Entry::Answer {
            txn: _,
            number: answered,
            said: _,
        } => *answered == number,
        _ => false,
    }
}

fn is_asked(requests: &[Request], number: u64) -> bool
    ensures { result ≡ list_any (λ (r : Asking). r.number == number) requests.now }
{
    requests.iter().any(|request| request.number() == number)
}

fn is_answered(events: &Events<'_>, number: u64) -> bool
    ensures { result ≡ list_any (answers number) events.now }
{
    'events: for place in 0..events.len() {
        if answers(&events.entry(place), number) {
            return true;
        }
    }
    false
}

// Whether a later event answers the number, or it is open still.
fn is_left(later: &Events<'_>, requests: &[Request], number: u64) -> bool
    ensures { result ≡ is_left later.now requests.now number }
{
    is_asked(requests, number) || is_answered(later, number)
}

// The mark, at most right below a number that is open.
fn below(low_water: u64, number: u64) -> u64
    ensures { result ≡ below low_water number }
{
    low_water.min(number.saturating_sub(1))
}

fn below_requests(low_water: u64, requests: &[Request]) -> u64
    ensures { result ≡ fold below_request low_water requests.now }
{
    requests
        .iter()
        .fold(low_water, |low, request| below(low, request.number()))
}

fn below_event(low_water: u64, event: &Entry<'_>) -> u64
    ensures { result ≡ below_event low_water (seen event.now) }
{
    match event {
        Entry::Answer {
            txn: _,
            number,
            said: _,
        } => below(low_water, *number),
        _ => low_water,
    }
}

fn below_answers(low_water: u64, events: &Events<'_>) -> u64
    ensures { result ≡ fold below_event low_water events.now }
{
    let mut low = low_water;
    'events: for place in 0..events.len() {
        low = below_event(low, &events.entry(place));
    }
    low
}

// Up to which number all were answered before the later events, where so many were given out.
fn low_left(given: u64, later: &Events<'_>, requests: &[Request]) -> u64
    ensures { result ≡ low_left given later.now requests.now }
{
    below_answers(below_requests(given, requests), later)
}

fn is_wire_told(
    given: u64,
    low_water: u64,
    later: &Events<'_>,
    requests: &[Request],
    wire: &Wire,
) -> bool
    ensures { result ≡ is_wire_told given low_water later.now requests.now wire.now }
{
    wire.number <= given
        && wire.low_water <= low_water
        && !(wire.redo && is_left(later, requests, wire.number))
}

// Whether no wire tells of more than so many numbers, of marks above this one, or redoes what is left
// open.
fn are_wires_told(
    given: u64,
    low_water: u64,
    later: &Events<'_>,
    requests: &[Request],
    wires: &[Wire],
) -> bool
    ensures { result ≡ list_all (is_wire_told given low_water later.now requests.now) wires.now }
{
    wires.iter().all(|wire| is_wire_told(given, low_water, later, requests, wire))
}

// Whether no reply is to a later number.
fn are_replies_told(given: u64, replies: &[Reply]) -> bool
    ensures { IsTrue result ↔ All (λ (x : ReplyValue). x.number ≤ given) replies.now }
{
    replies.iter().all(|reply| reply.number <= given)
}

// Whether no later number was performed, and the marks aren't above this one.
fn is_store_told(given: u64, low_water: u64, dc: &Dc) -> bool
    ensures { result ≡ is_store_told given low_water dc.now }
{
    dc.mark() <= low_water
        && dc.saved_mark() <= low_water
        && dc.performed().are_at_most(given)
        && dc.performed().are_first_at_most(dc.saved(), given)
}

// Whether no data component has performed a later number, or has a mark above this one, behind a
// restart either.
fn are_stores_told(given: u64, low_water: u64, dcs: &[Dc]) -> bool
    ensures { result ≡ list_all (is_store_told given low_water) dcs.now }
{
    dcs.iter().all(|dc| is_store_told(given, low_water, dc))
}

// Whether no news have a mark above this one.
fn are_news_told(low_water: u64, news: &[(u16, News)]) -> bool
    ensures { IsTrue result ↔ All (λ (x : ℕ × NewsValue). x.1.mark ≤ low_water) news.now }
{
    news.iter().all(|(_, news)| news.mark <= low_water)
}

fn is_site_low(low_water: u64, site: Site) -> bool
    ensures { IsTrue result ↔ IsLow low_water site.redo }
{
    match site.redo {
        None => true,
        Some(redo) => redo.mark <= low_water,
    }
}

// Whether no redo begins from a mark above this one.
fn are_sites_low(low_water: u64, state: &TcState) -> bool
    ensures { IsTrue result ↔ All (λ (t : SiteValue). IsLow low_water t.redo) state.now.sites }
{
    state.known();
    for dc in 0..usize::from(state.dcs()) {
        if !is_site_low(low_water, state.site(dc)) {
            return false;
        }
    }
    true
}

/// Whether a log's first so many events, and a note of all that is known of each data component, tell
/// of all that was carried. It takes no memory.
pub fn are_written(
    state: &TcState,
    requests: &[Request],
    dcs: &[Dc],
    copies: &[Wire],
    replies: &[Reply],
    news: &[(u16, News)],
    events: usize,
) -> bool
    requires { AreWaiting requests.now state.now.events }
    ensures { IsTrue result ↔
        MayCrash events (record { core = state.now; dcs = dcs.now; copies = copies.now; replies = replies.now; news = news.now }) }
{
    state.known();
    let log = state.log().events();
    if events > log.len() {
        return false;
    }
    let first = log.before(events);
    let later = log.behind(events);
    let given = given_in(state.begun(), &first);
    let low_water = low_left(given, &later, requests);
    are_wires_told(given, low_water, &later, requests, copies)
        && are_replies_told(given, replies)
        && are_stores_told(given, low_water, dcs)
        && are_news_told(low_water, news)
        && are_sites_low(low_water, state)
}
