//! The loaded procedures, by number and by name.

ghost use Rattle.std.specs.Prelude.{◌≡◌, ◌==◌, ◌++◌, [], ◌∷◌, ◌<◌, length, map, slice_get, option_copied, None, Some};
ghost use Rattle.std.specs.Arc.{arc_value};
ghost use Rattle.std.specs.Prelude.{IfOk, OnOk, IfErr, OnErr, IfNone};
ghost use Rattle.std.specs.String.{string_bytes};
ghost use Rattle.indexmap.specs.IndexMap.{keys, values, get_by_text};
ghost use Rattle.transactions.specs.Reached.{AllGood, IsGood};
ghost use Rattle.tc_core.specs.Loaded.{number_of, unknown_dc, AllReach};
ghost use Rattle.tc_core.specs.Loading.{load_refusal, IsFirstRefusal};

use access_slots::slot::Slot;
use indexmap::IndexMap;
use std::alloc::{AllocError, Global};
use std::marker::Model;
use std::sync::Arc;
use verifier::verify::Verified;

/// Why a procedure isn't loaded, in the order in which it is looked for.
#[derive(Clone, Copy, Debug, PartialEq, Eq)]
pub enum LoadRefusal {
    /// P1: another procedure has the name.
    NameTaken,
    /// P2: this access slot, counted from 0, is the first that names a data component that isn't
    /// there.
    DcUnknown(usize),
    /// P3: memory ran out.
    Memory,
}

/// A procedure that isn't loaded, handed back.
#[derive(Drop)]
pub struct LoadFault {
    pub why: LoadRefusal,
    pub code: Verified,
}

/// The procedures that calls name, in the order in which they were loaded, each under a name of its
/// own. Contracts see the verified procedures by number, their names, and for how many data
/// components they are. Each is shared with the replay of a log, and none is copied for it.
#[derive(Drop)]
pub struct Procs {
    alloc: Global,
    dcs: u16,
    by_name: IndexMap<String, Arc<Verified>>,
}

impl Model for Procs {
    ghost use Rattle.std.specs.Prelude.{map};
    ghost use Rattle.std.specs.Arc.{arc_value};
    ghost use Rattle.std.specs.String.{string_bytes};
    ghost use Rattle.indexmap.specs.IndexMap.{keys, values};
    ghost use Rattle.transactions.specs.Reached.{AllGood};
    ghost use Rattle.tc_core.specs.Loaded.{Loaded, AllReach};

    ghost Value = { Loaded };

    ghost view = { λ p. record { dcs = p.dcs; codes = map arc_value (values p.by_name); names = map string_bytes (keys p.by_name) } };

    ghost invariant = { λ p. AllGood (map arc_value (values p.by_name)) × AllReach p.dcs (map arc_value (values p.by_name)) };
}

// What the verifier shows of code.
fn good(code: &Verified)
    ensures { IsGood code.now }
{
    let _calls = code.calls();
    let _code = code.code();
}

// The place of the procedure with this name.
fn place_of(by_name: &IndexMap<String, Arc<Verified>>, name: &str) -> Option<usize>
    ensures place { result ≡ number_of name.now (map string_bytes (keys by_name.now)) }
    ensures absent { IfNone result (get_by_text by_name.now name.now ≡ None) }
{
    by_name.get_index_of(name)
}

// One more procedure goes last, under a name that there isn't yet; where memory runs out it is handed
// back, and those that are there stay.
fn add(
    alloc: Global,
    by_name: &mut IndexMap<String, Arc<Verified>>,
    name: &str,
    code: Verified,
) -> Result<(), Verified>
    requires { get_by_text by_name.old name.now ≡ None }
    ensures codes { OnOk result (map arc_value (values by_name.new) ≡ map arc_value (values by_name.old) ++ code ∷ []) }
    ensures names { OnOk result (map string_bytes (keys by_name.new) ≡ map string_bytes (keys by_name.old) ++ name.now ∷ []) }
    ensures err { OnErr result (by_name.new.entries ≡ by_name.old.entries) }
    ensures back { IfErr result (λ back. back ≡ code) }
{
    let Ok(name) = String::from_str(alloc, name) else {
        return Err(code);
    };
    // Room first, since a shared procedure can't be handed back.
    let Ok(()) = by_name.reserve(1) else {
        return Err(code);
    };
    let shared = match Arc::new(alloc, code) {
        Ok(shared) => shared,
        Err(failed) => return Err(failed.value),
    };
    match by_name.insert(name, shared) {
        Ok(_replaced) => Ok(()),
        Err(_) => unreachable!(),
    }
}

// The first slot that names a data component that isn't there.
fn unknown_dc(dcs: u16, slots: &[Slot]) -> Option<usize>
    ensures { result ≡ unknown_dc dcs slots.now }
{
    slots.iter().position(|slot| slot.dc >= dcs)
}

impl Procs {
    /// No procedure yet, for data components numbered below `dcs`.
    pub(crate) fn new(alloc: Global, dcs: u16) -> Procs
        ensures dcs { result.dcs ≡ dcs }
        ensures codes { result.codes ≡ [] }
        ensures names { result.names ≡ [] }
    {
        Procs {
            alloc,
            dcs,
            by_name: IndexMap::new(alloc),
        }
    }

    /// The same procedures under the same names, for whoever replays a log. What takes memory is the names.
    pub(crate) fn shared(&self) -> Result<Procs, AllocError>
        ensures dcs { IfOk result (λ p. p.dcs ≡ self.now.dcs) }
        ensures codes { IfOk result (λ p. p.codes ≡ self.now.codes) }
    {
        let by_name = self.by_name.clone()?;
        Ok(Procs {
            alloc: self.alloc,
            dcs: self.dcs,
            by_name,
        })
    }

    /// How many there are.
    pub fn len(&self) -> usize
        ensures { result ≡ length self.now.codes }
    {
        self.by_name.len()
    }

    /// Whether there is none.
    pub fn is_empty(&self) -> bool
        ensures { result ≡ (length self.now.codes == 0) }
    {
        self.by_name.is_empty()
    }

    /// For how many data components they are.
    pub fn dcs(&self) -> u16
        ensures { result ≡ self.now.dcs }
    {
        self.dcs
    }

    /// The procedure with this number.
    pub fn get(&self, number: usize) -> Option<&Verified>
        ensures { option_copied result ≡ slice_get self.now.codes number }
    {
        match self.by_name.get_index(number) {
            Some((_name, code)) => Some(&**code),
            None => None,
        }
    }

    /// The procedure with this number, which there is.
    pub(crate) fn at(&self, number: usize) -> &Verified
        requires { number < length self.now.codes }
        ensures { slice_get self.now.codes number ≡ Some result.now }
    {
        match self.get(number) {
            Some(code) => code,
            None => unreachable!(),
        }
    }

    /// The name of the procedure with this number.
    pub fn name(&self, number: usize) -> Option<&str>
        ensures { option_copied result ≡ slice_get self.now.names number }
    {
        match self.by_name.get_index(number) {
            Some((name, _code)) => Some(name.as_str()),
            None => None,
        }
    }

    /// The number of the procedure with this name.
    pub fn find(&self, name: &str) -> Option<usize>
        ensures { result ≡ number_of name.now self.now.names }
    {
        place_of(&self.by_name, name)
    }

    /// What the type keeps, told to a caller.
    pub fn known(&self)
        ensures good { AllGood self.now.codes }
        ensures reach { AllReach self.now.dcs self.now.codes }
    {
        let _ = &self.dcs;
    }

    /// One procedure more, under the next number.
    pub(crate) fn load(&mut self, name: &str, code: Verified) -> Result<usize, LoadFault>
        ensures allowed { OnOk result (load_refusal self.old.dcs self.old.names name.now code.decl.slots ≡ None) }
        ensures number { IfOk result (λ n. n ≡ length self.old.codes) }
        ensures ok { OnOk result
            (self.new ≡ record self.old { codes = self.old.codes ++ code ∷ []; names = self.old.names ++ name.now ∷ [] }) }
        ensures refused { IfErr result
            (λ fault. IsFirstRefusal (load_refusal self.old.dcs self.old.names name.now code.decl.slots) fault.why) }
        ensures err { OnErr result (self.new ≡ self.old) }
        ensures back { IfErr result (λ fault. fault.code ≡ code) }
        ensures good { OnOk result (IsGood code) }
    {
        if place_of(&self.by_name, name).is_some() {
            return Err(LoadFault {
                why: LoadRefusal::NameTaken,
                code,
            });
        }
        if let Some(slot) = unknown_dc(self.dcs, code.decl().slots()) {
            return Err(LoadFault {
                why: LoadRefusal::DcUnknown(slot),
                code,
            });
        }
        good(&code);
        let number = self.by_name.len();
        match add(self.alloc, &mut self.by_name, name, code) {
            Ok(()) => Ok(number),
            Err(code) => Err(LoadFault {
                why: LoadRefusal::Memory,
                code,
            }),
        }
    }
}
