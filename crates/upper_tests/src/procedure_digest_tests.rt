use crate::checks::is_same;
use access_slots::decl::Decl;
use access_slots::slot::{Key, Mode, Slot};
use bpf_encoding::decode::decode;
use log_file::Header;
use procedure_digest::header_of;
use std::alloc::Global;
use std::test::Fail;
use tc_core::TcState;
use verifier::verify::{Verified, verify};

// `mov r0, 0` and `exit`.
const ZERO: [u8; 16] = [0xb7, 0, 0, 0, 0, 0, 0, 0, 0x95, 0, 0, 0, 0, 0, 0, 0];

// `mov r0, 5` and `exit`.
const FIVE: [u8; 16] = [0xb7, 0, 0, 0, 5, 0, 0, 0, 0x95, 0, 0, 0, 0, 0, 0, 0];

// Digests of other programs: of no bytes, of the first procedure's, and of both.
const NONE: [u8; 32] = [
    0xe3, 0xb0, 0xc4, 0x42, 0x98, 0xfc, 0x1c, 0x14, 0x9a, 0xfb, 0xf4, 0xc8, 0x99, 0x6f, 0xb9, 0x24,
    0x27, 0xae, 0x41, 0xe4, 0x64, 0x9b, 0x93, 0x4c, 0xa4, 0x95, 0x99, 0x1b, 0x78, 0x52, 0xb8, 0x55,
];

const ONE: [u8; 32] = [
    0x32, 0xc0, 0x22, 0x22, 0x30, 0x2e, 0xba, 0xb8, 0x21, 0xc9, 0xee, 0x64, 0xd3, 0x72, 0x66, 0x71,
    0x99, 0xb1, 0x88, 0x56, 0xc9, 0xdf, 0x29, 0x87, 0x26, 0xd6, 0x67, 0x11, 0xf1, 0x1e, 0x73, 0xb5,
];

const TWO: [u8; 32] = [
    0xee, 0x74, 0x35, 0xfa, 0x6f, 0xa6, 0x9d, 0x40, 0xd0, 0xe4, 0x4e, 0xef, 0x88, 0xbc, 0x70, 0x09,
    0xfa, 0x24, 0x9e, 0x23, 0x18, 0x2d, 0xea, 0x41, 0x2a, 0xd1, 0x93, 0x02, 0x57, 0xb2, 0x5f, 0xf3,
];

fn procedure(alloc: Global, args: u8, slots: &[Slot], code: &[u8]) -> Option<Verified> {
    let code = decode(alloc, code).ok()?;
    let decl = Decl::new(args, slots).ok()?;
    verify(alloc, code, decl).ok()
}

fn first(alloc: Global) -> Option<Verified> {
    let slots = [
        Slot {
            mode: Mode::Write,
            dc: 1,
            table: 2,
            key: Key::Arg(0),
        },
        Slot {
            mode: Mode::Read,
            dc: 0,
            table: 3,
            key: Key::Fixed(7),
        },
    ];
    procedure(alloc, 1, &slots, &ZERO)
}

// The header of a state of two data components with these procedures.
fn header(alloc: Global, procedures: [Option<Verified>; 2]) -> Option<Header> {
    let mut state = TcState::new(alloc, 2).ok()?;
    for (name, procedure) in ["zero", "five"].into_iter().zip(procedures) {
        if let Some(code) = procedure {
            let _number = state.load(name, code);
        }
    }
    let header = header_of(alloc, state.procs());
    drop(state);
    header.ok()
}

fn of(procedures: u64, digest: [u8; 32]) -> Option<Header> {
    Some(Header {
        dcs: 2,
        procedures,
        digest,
        session: None,
    })
}

#[test]
fn digests_of_another_program(rt: HostRuntime) -> Result<(), Fail> {
    let alloc = rt.alloc();
    let second = procedure(alloc, 0, &[], &FIVE);
    is_same(&rt, header(alloc, [None, None]), of(0, NONE));
    is_same(&rt, header(alloc, [first(alloc), None]), of(1, ONE));
    is_same(&rt, header(alloc, [first(alloc), second]), of(2, TWO));
    Ok(())
}
