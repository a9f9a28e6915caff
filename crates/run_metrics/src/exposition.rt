// The metrics of a run in Prometheus' text format, version 0.0.4.

ghost use Rattle.std.specs.Prelude.{◌≡◌, ◌++◌, IfOk, OnOk, string_bytes};
ghost use Rattle.run_metrics.specs.Exposition.{wanted_lines, answered_lines, bucket_line, bucket_lines, sum_lines, duration_lines, delay_lines};
ghost use Rattle.run_metrics.specs.Exposition.{sync_lines, log_lines, exposition};

use std::alloc::{AllocError, Global};

/// How many calls were answered how.
#[derive(Clone, Copy, Debug)]
pub struct Outcomes {
    pub committed: u64,
    pub aborted: u64,
    pub in_doubt: u64,
    pub blocked: u64,
    pub refused: u64,
}

/// How many calls took no longer than so many microseconds.
#[derive(Clone, Copy, Debug)]
pub struct Bucket {
    pub micros: u64,
    pub calls: u64,
}

/// How long calls took: how many no longer than each bound, how many there are, and their nanoseconds in all.
#[derive(Drop)]
pub struct Durations {
    pub buckets: Vec<Bucket>,
    pub calls: u64,
    pub nanos: u64,
}

/// How many calls had to wait for a lock, and how many wires were carried again since nothing came back.
#[derive(Clone, Copy, Debug)]
pub struct Delays {
    pub lock_waits: u64,
    pub resends: u64,
}

/// The file that keeps a log: its bytes, and how often it was synced, where that is known.
#[derive(Clone, Copy, Debug)]
pub struct LogFigures {
    pub bytes: u64,
    pub syncs: Option<u64>,
}

/// What is known of a run.
#[derive(Drop)]
pub struct Figures {
    pub wanted: u64,
    pub outcomes: Outcomes,
    pub durations: Durations,
    pub delays: Delays,
    pub log: Option<LogFigures>,
}

fn wanted_lines(alloc: Global, calls: u64) -> Result<String, AllocError>
    ensures { IfOk result (λ s. string_bytes s ≡ wanted_lines calls) }
{
    format!(in alloc;
        "# HELP procd_calls_wanted Calls that the run is to make.\n# TYPE procd_calls_wanted gauge\nprocd_calls_wanted {calls}\n"
    )
}

fn answered_lines(alloc: Global, outcomes: Outcomes) -> Result<String, AllocError>
    ensures { IfOk result (λ s. string_bytes s ≡ answered_lines outcomes) }
{
    let Outcomes {
        committed,
        aborted,
        in_doubt,
        blocked,
        refused,
    } = outcomes;
    format!(in alloc;
        "# HELP procd_calls_answered_total Calls that were answered, by outcome.\n\
         # TYPE procd_calls_answered_total counter\n\
         procd_calls_answered_total{{outcome=\"committed\"}} {committed}\n\
         procd_calls_answered_total{{outcome=\"aborted\"}} {aborted}\n\
         procd_calls_answered_total{{outcome=\"in_doubt\"}} {in_doubt}\n\
         procd_calls_answered_total{{outcome=\"blocked\"}} {blocked}\n\
         procd_calls_answered_total{{outcome=\"refused\"}} {refused}\n"
    )
}

fn bucket_line(alloc: Global, bucket: Bucket) -> Result<String, AllocError>
    ensures { IfOk result (λ s. string_bytes s ≡ bucket_line bucket) }
{
    let Bucket { micros, calls } = bucket;
    format!(in alloc; "procd_call_duration_seconds_bucket{{le=\"{micros}e-6\"}} {calls}\n")
}

// Adds a line for each bucket.
fn write_buckets(alloc: Global, buckets: &[Bucket], text: &mut String) -> Result<(), AllocError>
    ensures { OnOk result (string_bytes text.new ≡ string_bytes text.old ++ bucket_lines buckets.now) }
{
    for (place, bucket) in buckets.iter().enumerate() {
        let line = bucket_line(alloc, *bucket)?;
        text.push_str(line.as_str())?;
    }
    Ok(())
}

fn sum_lines(alloc: Global, calls: u64, nanos: u64) -> Result<String, AllocError>
    ensures { IfOk result (λ s. string_bytes s ≡ sum_lines calls nanos) }
{
    format!(in alloc;
        "procd_call_duration_seconds_bucket{{le=\"+Inf\"}} {calls}\nprocd_call_duration_seconds_sum {nanos}e-9\nprocd_call_duration_seconds_count {calls}\n"
    )
}

fn duration_lines(alloc: Global, durations: &Durations) -> Result<String, AllocError>
    ensures { IfOk result (λ s. string_bytes s ≡ duration_lines durations.now) }
{
    let mut text = String::from_str(
        alloc,
        "# HELP procd_call_duration_seconds From a call's admission to its answer.\n# TYPE procd_call_duration_seconds histogram\n",
    )?;
    write_buckets(alloc, durations.buckets.as_slice(), &mut text)?;
    let sum = sum_lines(alloc, durations.calls, durations.nanos)?;
    text.push_str(sum.as_str())?;
    Ok(text)
}

fn delay_lines(alloc: Global, delays: Delays) -> Result<String, AllocError>
    ensures { IfOk result (λ s. string_bytes s ≡ delay_lines delays) }
{
    let Delays {
        lock_waits,
        resends,
    } = delays;
    format!(in alloc;
        "# HELP procd_lock_waits_total Calls that had to wait for a lock.\n\
         # TYPE procd_lock_waits_total counter\n\
         procd_lock_waits_total {lock_waits}\n\
         # HELP procd_resends_total Wires that were sent again.\n\
         # TYPE procd_resends_total counter\n\
         procd_resends_total {resends}\n"
    )
}

fn sync_lines(alloc: Global, syncs: Option<u64>) -> Result<String, AllocError>
    ensures { IfOk result (λ s. string_bytes s ≡ sync_lines syncs) }
{
    let Some(syncs) = syncs else {
        return Ok(String::new(alloc));
    };
    format!(in alloc;
        "# HELP procd_log_syncs_total Syncs of the log's file.\n# TYPE procd_log_syncs_total counter\nprocd_log_syncs_total {syncs}\n"
    )
}

fn log_lines(alloc: Global, log: Option<LogFigures>) -> Result<String, AllocError>
    ensures { IfOk result (λ s. string_bytes s ≡ log_lines log) }
{
    let Some(LogFigures { bytes, syncs }) = log else {
        return Ok(String::new(alloc));
    };
    let syncs = sync_lines(alloc, syncs)?;
    format!(in alloc;
        "# HELP procd_log_bytes Bytes of the log's file.\n# TYPE procd_log_bytes gauge\nprocd_log_bytes {bytes}\n{syncs}"
    )
}

/// All metrics, a family behind another.
pub fn exposition(alloc: Global, figures: &Figures) -> Result<String, AllocError>
    ensures { IfOk result (λ s. string_bytes s ≡ exposition figures.now) }
{
    let mut text = wanted_lines(alloc, figures.wanted)?;
    let answered = answered_lines(alloc, figures.outcomes)?;
    text.push_str(answered.as_str())?;
    let durations = duration_lines(alloc, &figures.durations)?;
    text.push_str(durations.as_str())?;
    let delays = delay_lines(alloc, figures.delays)?;
    text.push_str(delays.as_str())?;
    let log = log_lines(alloc, figures.log)?;
    text.push_str(log.as_str())?;
    Ok(text)
}
