// Components behind locks, each at its place.

use crate::test_pool::{are_committed, first_answers, is_same, two_locked_dcs};
use crate::test_state::{PUT_BESIDE, calls_of};
use access_slots::slot::Record;
use data_component::dc::Dc;
use dc_links::LockedDcs;
use samples::{PUT, record, value};
use std::process::Abort;
use worker_pool::OpenGate;

// Sees that this component keeps one row: record 5 of its own, with this number.
fn keeps(rt: &impl Abort, dc: &Dc, number: u16, kept: u64) {
    let own = Record {
        dc: number,
        ..record(5)
    };
    is_same(rt, dc.rows(), [(own, value(kept))].as_slice());
}

// By their numbers, where no worker is at work.
fn are_at_their_numbers(rt: &impl Abort, link: &mut LockedDcs) {
    is_same(rt, link.count(), 2);
    for number in 0..2u16 {
        match link.get_mut(number) {
            Some(dc) => keeps(rt, dc, number, u64::from(number) + 1),
            None => panic!(rt; "no component {number}"),
        }
    }
    assert!(rt; link.get_mut(2).is_none());
}

// In their order.
fn are_in_order(rt: &impl Abort, dcs: &[Dc]) {
    is_same(rt, dcs.len(), 2);
    for (number, dc) in (0..2u16).zip(dcs) {
        keeps(rt, dc, number, u64::from(number) + 1);
    }
}

// A wire goes to the component that it names, and each component is handed back at its place: `put 5 1` into the
// first, and `put 5 2` into the second.
#[test]
fn two_components_at_their_places(rt: HostRuntime) {
    let mut link = two_locked_dcs(rt.alloc(), 4).expect(&rt, "no link");
    let calls = calls_of(&rt, rt.alloc(), &[(PUT, &[5, 1]), (PUT_BESIDE, &[5, 2])]);
    let answers = first_answers(&rt, rt.alloc(), calls, 2, &link, &OpenGate);
    are_committed(&rt, answers.as_slice(), 2);
    drop(answers);
    are_at_their_numbers(&rt, &mut link);
    let dcs = link.into_dcs(rt.alloc()).expect(&rt, "no components");
    are_in_order(&rt, dcs.as_slice());
}
