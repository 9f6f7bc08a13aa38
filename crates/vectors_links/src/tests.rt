// What no line calls: bytes that are taken outside of a call of a receiver. The frames are examples of the documents.
use dle::Dle;
use expansion::Expansion;
use framing::{Link, State, Stepwise};
use mdu::Mdu;
use pcs::Pcs;

const SIZE: usize = 1200;

const PCS: [u8; 11] = [
    0xFD, 0xFA, 0x65, 0x06, 0x02, 0x80, 0x80, 0x01, 0x01, 0x69, 0xFE,
];

const MDU: [u8; 13] = [
    0xE3, 0x01, 0x00, 0x05, 0x33, 0x1C, 0xB1, 0x00, 0x04, 0x47, 0xBA, 0x98, 0x8F,
];

const DLE: [u8; 10] = [0x10, 0x02, 0x10, 0x10, 0x03, 0x02, 0x64, 0x96, 0x10, 0x03];

const EXPANSION: [u8; 12] = [
    0xFD, 0x01, 0x00, 0x00, 0x02, 0x64, 0x96, 0xBA, 0x3E, 0xE7, 0x61, 0xFE,
];

// The message to which a fresh receiver comes with the last byte of a frame, run by run and byte by byte.
fn taken<L: Stepwise>(frame: &[u8]) -> Option<L::Message> {
    let mut store = [0u8; SIZE];
    let mut state = L::fresh();
    let mut at = 0;
    for _ in frame {
        let passed = L::advance(state, &mut store, frame, at);
        let byte = *frame.get(passed.next)?;
        let stepped = L::step(passed.state, &mut store, byte);
        state = stepped.state;
        at = passed.next.wrapping_add(1);
        if let Ok(Some(message)) = stepped.told {
            return if at == frame.len() {
                Some(message)
            } else {
                None
            };
        }
    }
    None
}

#[test]
fn takes_frames_outside_of_calls(rt: HostRuntime) {
    let pcs = taken::<Pcs>(&PCS).map(|m| (m.receiver, m.sender, m.length));
    assert_eq!(rt; pcs, Some((250, 101, 0)));
    let mdu = taken::<Mdu>(&MDU).map(|m| (m.address, m.length));
    assert_eq!(rt; mdu, Some((0x33, 5)));
    let dle = taken::<Dle>(&DLE).map(|m| (m.sequence, m.node, m.length));
    assert_eq!(rt; dle, Some((16, 3, 2)));
    let expansion = taken::<Expansion>(&EXPANSION).map(|m| (m.id, m.address, m.length));
    assert_eq!(rt; expansion, Some((1, 2, 2)));
}

// A store that is too short, and on MDU a body that is not at its last byte: nothing is taken.
#[test]
fn leaves_what_is_not_ready(rt: HostRuntime) {
    let mut short = [0u8; 8];
    assert!(rt; !Pcs::is_ready(Pcs::fresh(), &short) && !Pcs::is_due(Pcs::fresh(), &short));
    let left = Pcs::step(Pcs::fresh(), &mut short, 0xFD);
    assert!(rt; matches!(left.told, Ok(None)) && left.state.mode == 0 && left.state.noise == 0);
    let mut store = [0u8; SIZE];
    let passed = Dle::advance(Dle::fresh(), &mut store, &DLE, 11);
    assert_eq!(rt; passed.next, 11);
    let body = mdu::State {
        base: State {
            mode: 1,
            count: 6,
            open: 6,
            noise: 0,
        },
        length: 5,
    };
    assert!(rt; Mdu::is_ready(body, &store) && !Mdu::is_due(body, &store));
    assert_eq!(rt; Mdu::step(body, &mut store, 0xB1).state.base.count, 6);
    assert_eq!(rt; Mdu::advance(body, &mut store, &MDU, 6).next, 12);
}
