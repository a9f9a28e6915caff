// A data component behind a frame.

ghost use Rattle.std.specs.Prelude.{◌≡◌, ◌≢◌, ◌<◌, ◌≤◌, length};
ghost use Rattle.data_component.specs.Performed.{count};
ghost use Rattle.data_component.specs.Store.{IsSpent};
ghost use Rattle.embedding.specs.Keeping.{Performs, WhyNotPerformed, Finds, ShowsRow, HasRestarted, Forgets, IsKept};

use crate::call;
use crate::codes::{BAD_FRAME, DONE, INCARNATIONS_SPENT, NO_PLACE, NO_SUCH_CALL, SILENT};
use crate::frame::{Frame, bit_of};
use access_slots::op::Said;
use data_component::dc::Dc;

fn perform(dc: &mut Dc, frame: &mut Frame) -> u32
    ensures refused { result ≢ 0 → result ≢ SILENT → dc.new ≡ dc.old }
    ensures why { result ≢ 0 → WhyNotPerformed dc.old frame.old result dc.new }
    ensures done { result ≡ 0 → Performs dc.old frame.old dc.new frame.new }
{
    let Some(wire) = frame.wire() else {
        return BAD_FRAME;
    };
    match dc.perform(&wire) {
        Some(reply) => {
            frame.put_reply(&reply);
            DONE
        }
        None => SILENT,
    }
}

fn restart(dc: &mut Dc, frame: &mut Frame) -> u32
    ensures refused { result ≢ 0 → dc.new ≡ dc.old }
    ensures why { result ≢ 0 → (result ≡ INCARNATIONS_SPENT) × IsSpent dc.old }
    ensures done { result ≡ 0 → HasRestarted dc.old dc.new frame.new }
{
    match dc.restart() {
        Ok(news) => {
            frame.put_news(&news);
            DONE
        }
        Err(_) => INCARNATIONS_SPENT,
    }
}

fn get(dc: &Dc, frame: &mut Frame)
    ensures { Finds dc.now frame.old frame.new }
{
    match dc.get(&frame.named()) {
        Some(value) => frame.put_said(&Said::Value(value)),
        None => frame.put_said(&Said::Absent),
    }
}

fn row_count(dc: &Dc) -> u64
    ensures { result ≡ count dc.now.base dc.now.list }
{
    dc.rows().len() as u64
}

fn row(dc: &Dc, frame: &mut Frame) -> u32
    ensures why { result ≢ 0 → (result ≡ NO_PLACE) × (count dc.now.base dc.now.list ≤ frame.old.place) }
    ensures done { result ≡ 0 → ShowsRow dc.now frame.old frame.new }
{
    let Some(row) = dc.rows().get(frame.place as usize) else {
        return NO_PLACE;
    };
    frame.put_record(&row.0);
    frame.put_said(&Said::Value(row.1));
    DONE
}

fn forget(dc: &mut Dc, frame: &mut Frame)
    ensures { Forgets dc.old dc.new frame.new }
{
    let forgot = dc.forget();
    frame.word = u64::from(bit_of(forgot));
}

/// Makes the call that the frame has.
pub fn serve(dc: &mut Dc, frame: &mut Frame) -> u32
    ensures { IsKept dc.old frame.old result dc.new frame.new }
{
    match frame.what {
        call::PERFORM => perform(dc, frame),
        call::CHECKPOINT => {
            frame.low_water = dc.checkpoint();
            DONE
        }
        call::RESTART => restart(dc, frame),
        call::GET => {
            get(dc, frame);
            DONE
        }
        call::ROWS => {
            frame.word = row_count(dc);
            DONE
        }
        call::ROW => row(dc, frame),
        call::MARK => {
            frame.word = dc.mark();
            DONE
        }
        call::INCARNATION => {
            frame.incarnation = dc.incarnation();
            DONE
        }
        call::HEAR_MARK => {
            dc.hear_mark(frame.incarnation, frame.low_water);
            DONE
        }
        call::FORGET => {
            forget(dc, frame);
            DONE
        }
        _ => NO_SUCH_CALL,
    }
}
