//! What the calls of one partition are run on.

ghost use Rattle.std.specs.Prelude.{◌≡◌, option_map, None, IfOk};
ghost use Rattle.scripts.specs.Reading.{contents_of};
ghost use Rattle.script_loading.specs.Loading.{first_unverified, begun, empty_stores};

use crate::dividing::Division;
use run_calls::answering::Manner;
use run_calls::watching::Waits;
use run_ground::ground::Ground;
use script_loading::loading::{Unloaded, empty_dcs, state_of};
use scripts::script::Script;
use std::alloc::{AllocError, Global};

/// A script that isn't refused, and the object file beside it, if there is one; which partitions its calls are of, how
/// they are run, and who watches them. The files that keep the logs have this path, and the number of the partition behind a
/// dot.
#[derive(Clone, Copy)]
pub struct Task<'a> {
    pub object: Option<&'a [u8]>,
    pub script: &'a Script<'a>,
    pub division: &'a Division,
    pub log: Option<&'a str>,
    pub manner: Manner,
    pub waits: &'a Waits,
}

/// What the calls of the partition with this number go on from.
#[derive(Drop)]
pub struct Start {
    pub number: usize,
    /// What came back from its log's file, if it has one.
    pub ground: Option<Ground>,
    /// The lines of that.
    pub lines: String,
}

/// What calls of a script are run on, where it is accepted, and nothing has happened.
pub fn own_ground(
    alloc: Global,
    object: Option<&[u8]>,
    script: &Script,
) -> Result<Ground, AllocError>
    requires { first_unverified (option_map (λ file. file.now) object) script.now.procedures.items ≡ None }
    ensures state { IfOk result (λ g. g.state ≡ begun (contents_of script.now)) }
    ensures dcs { IfOk result (λ g. g.dcs.items ≡ empty_stores (contents_of script.now)) }
{
    let procedures = script.procedures.as_slice();
    match state_of(alloc, object, script.dcs.len(), procedures) {
        Ok(state) => match empty_dcs(alloc, script.dcs.as_slice()) {
            Ok(dcs) => Ok(Ground {
                state,
                dcs,
                journal: None,
            }),
            Err(AllocError) => {
                drop(state);
                Err(AllocError)
            }
        },
        Err(Unloaded::Memory) => Err(AllocError),
        Err(Unloaded::Refused(_)) => unreachable!(),
    }
}
