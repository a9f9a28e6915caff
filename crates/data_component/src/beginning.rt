//! Data components that begin with records.

ghost use Rattle.std.specs.Prelude.{◌≡◌, ◌<◌, ◌≤◌, ℕ, Some, take, length, slice_get, IsTrue, OnOk};
ghost use Rattle.data_component.specs.Store.{Store};
ghost use Rattle.data_component.specs.Beginning.{AreOf, AreBegun};
ghost use Rattle.data_component.specs.Joining.Begins.{BeginsIn};

use crate::dc::Dc;
use crate::rows::Row;

// How many rows at the front are of this data component.
fn own_count(rows: &[Row], dc: usize) -> usize
    ensures own { AreOf dc (take result rows.now) }
    ensures few { result ≤ length rows.now }
{
    let mut count = 0;
    'rows: for row in rows {
        if usize::from(row.0.dc) != dc {
            return count;
        }
        count += 1;
    }
    count
}

// The data component at this place begins with these rows, where it may.
fn begin_at(dcs: &mut [Dc], dc: usize, own: &[Row], mark: u64) -> bool
    requires { dc < length dcs.old }
    ensures { (s : Store) → slice_get dcs.old dc ≡ Some s → IsTrue result → BeginsIn own.now mark dc s dcs.old dcs.new }
{
    dcs[dc].begin_with(own, mark)
}

/// Each data component, of which nothing was performed, begins with the rows that are its own, behind a mark
/// up to which all was performed before. The rows rise, as a log has them that was cut. `Err` names the
/// first data component that can't: its rows don't rise or are more than there may be, or something was performed
/// there or a higher mark was told. It has the number of data components where rows are left behind them all, for one
/// that isn't there or out of order. Those before it have begun then.
pub fn begin_all(dcs: &mut [Dc], rows: &[Row], mark: u64) -> Result<(), usize>
    ensures { OnOk result (AreBegun rows.now mark dcs.old dcs.new) }
{
    let mut rest = rows;
    'dcs: for dc in 0..dcs.len() {
        let (own, others) = rest.split_at(own_count(rest, dc));
        if !begin_at(dcs, dc, own, mark) {
            return Err(dc);
        }
        rest = others;
    }
    if rest.is_empty() {
        Ok(())
    } else {
        Err(dcs.len())
    }
}
