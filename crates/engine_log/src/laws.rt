// Laws of what is handed out and read.

ghost use Rattle.std.specs.Prelude.{◌≡◌, ℕ, List, Option, Some, reverse};
ghost use Rattle.frame_file.specs.Reading.{Reads};
ghost use Rattle.log_file.specs.declared.header.Header.{Header as HeaderValue};
ghost use Rattle.log_file.specs.Bytes.{Rows};
ghost use Rattle.log_file.specs.Reading.{Says};
ghost use Rattle.tc_core.specs.declared.recovery.SiteNote.{SiteNote};
ghost use Rattle.tc_log.specs.declared.event.Event.{Event};
ghost use Rattle.tc_log.specs.Reading.{AreEvents};
ghost use Rattle.transactions.specs.Legal.{Legal};
ghost use Rattle.transactions.specs.Rows.{AllTakeFew};
ghost use Rattle.verifier.specs.Checked.{Checked};
ghost use Rattle.engine_log.specs.Handing.{HasHandedOut};
ghost use Rattle.engine_log.specs.declared.ahead.EngineLog.{EngineLog as LogValue};

/// What was handed out of a legal log says, read again, this log, and of each data component what was noted last.
pub fn handed_out_is_read()
    ensures { (l : LogValue) (h : HeaderValue) (ps : List Checked) (log : List Event) (file : List ℕ) (payloads : List (List ℕ))
        (base : Option Rows) (known : List SiteNote) (events : List Event) → AllTakeFew ps → Legal ps log → AreEvents (reverse log)
        → HasHandedOut l file (reverse log) → l.header ≡ Some h → Reads file payloads → Says h payloads base known events
        → (events ≡ reverse log) × (known ≡ l.notes.items) }
{}
