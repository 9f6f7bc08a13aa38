// What no line calls: wire bytes of an open frame that are taken outside of a call of a receiver.
use dle::Dle;
use escape::Enclosed;
use framing::State;

const SIZE: usize = 300;

const FRAME: [u8; 10] = [0x10, 0x02, 0x10, 0x10, 0x03, 0x02, 0x64, 0x96, 0x10, 0x03];

// Of DLE a 10 waits, and two of them are a byte.
#[test]
fn takes_bytes_of_an_open_frame(rt: HostRuntime) {
    let mut store = [0u8; SIZE];
    let open = State {
        mode: 2,
        count: 0,
        open: 2,
        noise: 0,
    };
    let passed = Dle::pass_bytes(open, &mut store, &FRAME, 2);
    assert_eq!(rt; passed.next, 8);
    assert_eq!(rt; &store[..5], [0x10, 0x03, 0x02, 0x64, 0x96].as_slice());
    let waits = Dle::take_byte(passed.state, &mut store, 0x10);
    assert_eq!(rt; waits.state.mode, 3);
    let ended = Dle::take_byte(waits.state, &mut store, 0x03);
    let told = ended
        .told
        .ok()
        .flatten()
        .map(|m| (m.sequence, m.node, m.length));
    assert_eq!(rt; told, Some((16, 3, 2)));
    assert_eq!(rt; Dle::take_byte(open, &mut store[..8], 0x64).state.count, 0);
}
